//! Laws of catalogues and changes: each function has an empty body, and its contract is the law.

ghost use Rattle.catalog_change.specs.Catalogues.{Catalogue, IsCatalogue};
ghost use Rattle.catalog_change.specs.declared.change.Change.{Change};
ghost use Rattle.room_catalog.specs.Alike.{FindAlike, HaveSameLists};
ghost use Rattle.room_catalog.specs.Held.{HeldCatalogue};
ghost use Rattle.room_catalog.specs.Ready.{IsReady, MayGoBefore, TakesRoom};

/// Catalogues in which the same is found have the same lists.
pub fn catalogues_are_what_is_found()
    ensures { (one other : Catalogue) → IsCatalogue one → IsCatalogue other
        → FindAlike one other → HaveSameLists one other }
{}

/// A change that was prepared stays ready when one that goes before it is applied: the end of a
/// save behind its begin, and behind the parts of its index; each part behind the parts before it;
/// the end of a copy behind its begin.
pub fn prepared_changes_stay_ready()
    ensures { (first second : Change) (held now : HeldCatalogue) → MayGoBefore first second
        → IsReady held second → TakesRoom first held.room now.room → IsReady now second }
{}
