//! The greatest numbers at which one more change is entered.

ghost use Rattle.std.specs.Prelude.{◌≡◌};
ghost use Rattle.room_effects.specs.Entering.{is_at_ceiling};

use room_catalog::Catalogue;

/// The greatest that the numbers of a catalogue may be before one more change.
pub const CEILING: u64 = 9_223_372_036_854_775_806;

/// Whether no number is left for one more change.
pub fn is_at_ceiling(catalogue: &Catalogue) -> bool
    ensures { result ≡ is_at_ceiling catalogue.now.lists }
{
    CEILING <= catalogue.number()
        || CEILING <= catalogue.next_ssid().0
        || CEILING <= catalogue.next_volid().0
}
