//! Laws of the definitions: each function has an empty body, and its contract is the law.

ghost use Rattle.std.specs.Prelude.{◌≡◌, ◌≢◌, ◌<◌, ◌↔◌, ◌%◌, ℕ, List, length};
ghost use Rattle.std.specs.List.{All, Contains, slice_index, sum};
ghost use Rattle.room_base.specs.declared.numbers.Ssid.{Ssid};
ghost use Rattle.media_db.specs.Rows.{AreRecords};
ghost use Rattle.media_db.specs.declared.records.Record.{Record};
ghost use Rattle.room_rules.specs.declared.schedule.Override.{Override};
ghost use Rattle.room_rules.specs.declared.schedule.Schedule.{Schedule};
ghost use Rattle.sched_levels.specs.Actions.{OverridesAscend, action_on, place_in};
ghost use Rattle.sched_levels.specs.Bases.{IsBaseFor, full};
ghost use Rattle.sched_levels.specs.Calendar.{IsInto, days_into};

/// Each override decides its day, and the list of actions every other one.
pub fn overrides_decide_their_days()
    ensures theirs { (schedule : Schedule) (override : Override)
        → OverridesAscend schedule.overrides → Contains schedule.overrides override
        → action_on schedule override.day ≡ override.action }
    ensures others { (schedule : Schedule) (day : ℕ)
        → All (λ override. override.day ≢ day) schedule.overrides → action_on schedule day
        ≡ slice_index schedule.actions
        (place_in schedule.period day % length schedule.actions) }
{}

/// `days_into` finds where a day stands in months that follow each other, which is one place.
pub fn days_stand_in_one_month()
    ensures found { (months : List ℕ) (day : ℕ) → day < sum months
        → IsInto months day (days_into months day) }
    ensures only { (months : List ℕ) (day into : ℕ) → IsInto months day into
        → into ≡ days_into months day }
{}

/// Each save has one level and one base.
pub fn one_base_for_a_save()
    ensures { (rows : List Record) (client set : List ℕ) (wanted level other_level : ℕ)
        (base other : Ssid)
        → IsBaseFor rows client set wanted level base
        → IsBaseFor rows client set wanted other_level other
        → (level ≡ other_level) × (base.0 ≡ other.0) }
{}

/// The base is 0 exactly where the save is a full one.
pub fn full_saves_alone_have_no_base()
    ensures { (rows : List Record) (client set : List ℕ) (wanted level : ℕ) (base : Ssid)
        → AreRecords rows → IsBaseFor rows client set wanted level base
        → (base.0 ≡ 0) ↔ (level ≡ full) }
{}
