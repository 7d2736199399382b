//! Laws of the definitions: each function has an empty body, and its contract is the law.

ghost use Rattle.std.specs.Prelude.{◌≡◌, ℕ, ◌<◌, ◌⊎◌, ◌↔◌, List, Some};
ghost use Rattle.std.specs.List.{Contains};
ghost use Rattle.room_base.specs.declared.numbers.Ssid.{Ssid};
ghost use Rattle.media_db.specs.declared.records.Record.{Record};
ghost use Rattle.media_db.specs.declared.records.RecordState.TheVariants.{Complete};
ghost use Rattle.media_db.specs.Rows.{AreRecords, find_record};
ghost use Rattle.dep_chain.specs.declared.chains.ChainFault.{ChainFault};
ghost use Rattle.dep_chain.specs.declared.open_set.OpenSet.{OpenSet};
ghost use Rattle.dep_chain.specs.Chains.{Breaks, IsChain};
ghost use Rattle.dep_chain.specs.Depends.{Depends, StandsOn};
ghost use Rattle.dep_chain.specs.Need.{Needed};
ghost use Rattle.dep_chain.specs.Purging.{IsPurgeable};

/// What a set depends on has a lesser number; and it depends on what that depends on.
pub fn dependence_goes_down()
    ensures lower { (rows : List Record) (ssid other : ℕ) → AreRecords rows
        → Depends rows ssid other → other < ssid }
    ensures onward { (rows : List Record) (ssid base other : ℕ)
        → Depends rows ssid base → Depends rows base other → Depends rows ssid other }
{}

/// What a needed set depends on is needed.
pub fn need_is_passed_down()
    ensures { (rows : List Record) (sessions : List OpenSet) (moment ssid other : ℕ)
        → Needed rows sessions moment ssid → Depends rows ssid other
        → Needed rows sessions moment other }
{}

/// Where a set can be purged, each complete one that depends on it can.
pub fn purgeable_from_above()
    ensures { (rows : List Record) (sessions : List OpenSet) (moment ssid user : ℕ)
        (row : Record) → IsPurgeable rows sessions moment ssid → Depends rows user ssid
        → find_record user rows ≡ Some row → row.state ≡ Complete
        → IsPurgeable rows sessions moment user }
{}

/// A set has one chain, or one fault, and never both.
pub fn one_chain_or_one_fault()
    ensures chain { (rows : List Record) (ssid : Ssid) (ssids others : List Ssid)
        → IsChain rows ssid ssids → IsChain rows ssid others → ssids ≡ others }
    ensures fault { (rows : List Record) (ssid : Ssid) (fault other : ChainFault)
        → Breaks rows ssid fault → Breaks rows ssid other → fault ≡ other }
    ensures never_both { (rows : List Record) (ssid : Ssid) (ssids : List Ssid)
        (fault : ChainFault) → IsChain rows ssid ssids → ¬ Breaks rows ssid fault }
{}

/// A chain has the set and all that it depends on, and nothing else.
pub fn chain_is_what_it_depends_on()
    ensures { (rows : List Record) (ssid other : Ssid) (ssids : List Ssid)
        → IsChain rows ssid ssids
        → Contains ssids other ↔ StandsOn rows ssid.0 other.0 }
{}
