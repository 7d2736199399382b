//! Where the bytes at a place of a stream may lie: the sections of its copies, and the cartridges
//! that are in slots.

ghost use Rattle.std.specs.Prelude.{◌≡◌, ◌==◌, IfSome};
ghost use Rattle.std.specs.List.{AllByRecursion, find, list_any};
ghost use Rattle.volume_store.specs.Writes.{IsCart};
ghost use Rattle.recover_files.specs.StreamAt.{Follow, HasSections, LiesOnCart, covers_place};
ghost use Rattle.recover_files.specs.StreamAt.{section_at, cart_at_home, spot_at};
ghost use Rattle.recover_files.specs.StreamAt.{first_section, first_spot};

use media_db::{CopyState, MediaDb, Section, SetCopy};
use room_base::{Cart, Volid};

/// A section of a copy that is in a slot, and the cartridge that it is on.
#[derive(Clone, Copy)]
pub struct Spot {
    pub section: Section,
    pub cart: Cart,
}

/// The section of a copy at a place of the stream. A copy that isn't done has none.
pub(crate) fn section_at(copy: &SetCopy, place: u64) -> Option<Section>
    requires { HasSections copy.now }
    ensures { result ≡ section_at place copy.now }
{
    match copy.state {
        CopyState::Done => section_covering(copy.sections.as_slice(), place),
        CopyState::Begun => None,
    }
}

// The section that covers the place, found by binary search.
fn section_covering(sections: &[Section], place: u64) -> Option<Section>
    requires { Follow 0 sections.now }
    ensures { result ≡ find (covers_place place) sections.now }
{
    let index = sections.partition_point(|section| section.to <= place);
    if index < sections.len() {
        Some(sections[index])
    } else {
        None
    }
}

/// The cartridge of a volume that is in a slot and on record.
pub(crate) fn cart_at_home(db: &MediaDb, home: &[Volid], volid: Volid) -> Option<Cart>
    requires { AllByRecursion LiesOnCart db.now.volumes }
    ensures found { result ≡ cart_at_home db.now.volumes home.now volid }
    ensures cart { IfSome result (λ cart. IsCart cart.0) }
{
    if !is_home(home, volid) {
        return None;
    }
    match db.volume(volid) {
        Some(volume) => Some(volume.cart),
        None => None,
    }
}

fn is_home(home: &[Volid], volid: Volid) -> bool
    ensures { result ≡ list_any (λ one. one.0 == volid.0) home.now }
{
    home.iter().any(|one| one.0 == volid.0)
}

/// The section at the place of the first copy that has one in a slot.
pub(crate) fn first_spot(
    db: &MediaDb,
    home: &[Volid],
    copies: &[SetCopy],
    place: u64,
) -> Option<Spot>
    requires carts { AllByRecursion LiesOnCart db.now.volumes }
    requires sections { AllByRecursion HasSections copies.now }
    ensures found { result ≡ first_spot db.now.volumes home.now place copies.now }
    ensures cart { IfSome result (λ spot. IsCart spot.cart.0) }
{
    for copy in copies {
        if let Some(spot) = spot_at(db, home, copy, place) {
            return Some(spot);
        }
    }
    None
}

fn spot_at(db: &MediaDb, home: &[Volid], copy: &SetCopy, place: u64) -> Option<Spot>
    requires carts { AllByRecursion LiesOnCart db.now.volumes }
    requires sections { HasSections copy.now }
    ensures found { result ≡ spot_at db.now.volumes home.now place copy.now }
    ensures cart { IfSome result (λ spot. IsCart spot.cart.0) }
{
    let section = section_at(copy, place)?;
    let cart = cart_at_home(db, home, section.volid)?;
    Some(Spot { section, cart })
}

/// The section at the place of the first copy that has one.
pub(crate) fn first_section(copies: &[SetCopy], place: u64) -> Option<Section>
    requires { AllByRecursion HasSections copies.now }
    ensures { result ≡ first_section place copies.now }
{
    for copy in copies {
        if let Some(section) = section_at(copy, place) {
            return Some(section);
        }
    }
    None
}
