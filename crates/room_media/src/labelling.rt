//! Labelling: what is checked, and the entry and the label that are written.

ghost use Rattle.std.specs.Prelude.{◌≡◌, ◌≤◌, IfOk, IfSome, IsTrue, MatchBool, Option, Result};
ghost use Rattle.std.specs.Prelude.{None, Some, true, false, length, replicate, ◌++◌, ◌-◌};
ghost use Rattle.std.specs.Option.{option_copied};
ghost use Rattle.room_base.specs.Numbers.{max_moment};
ghost use Rattle.room_base.specs.declared.numbers.Ssid.{Ssid};
ghost use Rattle.media_db.specs.Rows.{volume_on};
ghost use Rattle.catalog_change.specs.Resources.{IsShortName};
ghost use Rattle.room_command.specs.declared.reply.Reply.TheVariants as replies;
ghost use Rattle.volume_block.specs.Valid.{IsLabel};
ghost use Rattle.volume_store.specs.Writes.{IsCart};
ghost use Rattle.volume_store.specs.declared.label.Found.{Found};
ghost use Rattle.room_effects.specs.View.{IsBetweenCommands};
ghost use Rattle.room_effects.specs.Needs.{IsInNoDrive};
ghost use Rattle.room_effects.specs.Checked.{ComesTo};
ghost use Rattle.room_effects.specs.Plans.{Plan, Follows};
ghost use Rattle.room_media.specs.Labelling.{IsAsked, IsLabelPlan, is_block, is_capacity};
ghost use Rattle.room_media.specs.Labelling.{label_checks, label_of, new_volume_plan, old_label};
ghost use Rattle.room_media.specs.Labelling.{relabel_plan, units_of};
ghost use Rattle.room_media.specs.Slots.{cart_in};
ghost use Rattle.room_effects.specs.Entering.{is_at_ceiling};
ghost use Rattle.volume_block.specs.Layout.{IsUnits};
ghost use Rattle.room_media.specs.NewVolumes.{IsNewVolume};

use crate::drives::free_cart;
use crate::labels::volume_on;
use crate::replacing::old_label;
use crate::slots::is_slot;
use catalog_change::Change;
use room_base::{Cart, Memory, Moment, Name, Refusal, Volid, name_text};
use room_checks::{malformed, no_such_name};
use room_command::{Answer, Reply};
use room_disk::Store;
use room_entering::{CEILING, enter_prepared, is_at_ceiling, prepare_entry};
use room_state::RoomState;
use volume_block::{Label, MAX_CAPACITY, min_capacity};

/// The most bytes of a pool's name.
const MAX_POOL: usize = 64;

/// The blocks of a volume are numbered by units of so many bytes.
const UNIT: u32 = 4096;

/// What a cartridge is to become, as the plan of labelling has it.
#[derive(Drop)]
pub struct NewVolume {
    pub cart: Cart,
    pub pool: Name,
    /// In units of 4,096 bytes.
    pub capacity: u32,
    /// How many units a data block has.
    pub units: u32,
}

/// Makes a volume of the cartridge in a slot.
pub fn label<D: Store>(
    room: &mut RoomState,
    store: &mut D,
    m: Moment,
    slot: u8,
    pool: Name,
    capacity: u32,
    block: Option<u32>,
) -> Reply
    requires opens { IsTrue room.old.room.is_open }
    requires moment { m.0 ≤ max_moment }
    requires between { IsBetweenCommands room.old.room }
    ensures { (plan : Plan) × IsLabelPlan m slot pool capacity block room.old.room plan
        × Follows plan result
        room.old.room room.new.room (D.view store.old) (D.view store.new) }
{
    let named = is_pool_name(&pool);
    match label_checks(room, slot, named, pool, capacity, block) {
        Ok(new) => relabel(room, store, m, new),
        Err(refusal) => Reply::Refused(refusal),
    }
}

// Whether it is a name of at most 64 bytes.
fn is_pool_name(pool: &Name) -> bool
    ensures { MatchBool result (IsShortName pool.now) (¬ (IsShortName pool.now)) }
{
    let bytes = pool.as_bytes();
    !bytes.is_empty() && bytes.len() <= MAX_POOL && name_text(bytes).is_some()
}

fn label_checks(
    room: &RoomState,
    slot: u8,
    named: bool,
    pool: Name,
    capacity: u32,
    block: Option<u32>,
) -> Result<NewVolume, Refusal>
    requires { MatchBool named (IsShortName pool) (¬ (IsShortName pool)) }
    ensures checks { ComesTo (label_checks named slot pool capacity block room.now.room) result }
    ensures new { IfOk result (λ new. IsNewVolume new room.now.room) }
    ensures cart { IfOk result (λ new. cart_in slot room.now.room ≡ Some new.cart) }
{
    let alloc = room.allocator();
    if !is_slot(slot) {
        return Err(malformed(alloc, "slot"));
    }
    if !named {
        return Err(malformed(alloc, "pool"));
    }
    if !is_block(block) {
        return Err(malformed(alloc, "block"));
    }
    let units = units_of(block);
    if !is_capacity(units, capacity) {
        return Err(malformed(alloc, "capacity"));
    }
    if room.catalogue().pool(pool.as_bytes()).is_none() {
        return Err(no_such_name(alloc, "pool", pool));
    }
    match free_cart(room, slot) {
        Ok(cart) => Ok(NewVolume {
            cart,
            pool,
            capacity,
            units,
        }),
        Err(refusal) => Err(refusal),
    }
}

// Whether it is a size of data blocks.
fn is_block(block: Option<u32>) -> bool
    ensures { result ≡ is_block block }
{
    match block {
        Some(block) => {
            block == 4096 || block == 8192 || block == 16384 || block == 32768 || block == 65536
        }
        None => true,
    }
}

fn units_of(block: Option<u32>) -> u32
    requires { is_block block ≡ true }
    ensures units { result ≡ units_of block }
    ensures allowed { IsUnits result }
{
    match block {
        Some(block) => block / UNIT,
        None => 1,
    }
}

fn is_capacity(units: u32, capacity: u32) -> bool
    requires { IsUnits units }
    ensures { result ≡ is_capacity units capacity }
{
    min_capacity(units) <= capacity && capacity <= MAX_CAPACITY
}

// Looks at the label of a cartridge, and makes a new volume of it where that may be replaced.
fn relabel<D: Store>(room: &mut RoomState, store: &mut D, m: Moment, new: NewVolume) -> Reply
    requires opens { IsTrue room.old.room.is_open }
    requires moment { m.0 ≤ max_moment }
    requires between { IsBetweenCommands room.old.room }
    requires new { IsNewVolume new room.old.room }
    ensures { (found : Found) × (asked : Option (Result (Unit {0}) Ssid))
        × IfSome (volume_on new.cart.0 room.old.room.catalogue.volumes)
        (IsAsked m asked room.old.room)
        × Follows (relabel_plan m found asked
        (volume_on new.cart.0 room.old.room.catalogue.volumes) room.old.room new) result
        room.old.room room.new.room (D.view store.old) (D.view store.new) }
{
    match room.look_for_label(store, new.cart) {
        Ok(found) => match old_label(room, m, new.cart, found) {
            Ok(was) => make_volume(room, store, m, new, was),
            Err(refusal) => Reply::Refused(refusal),
        },
        Err(fault) => Reply::Refused(fault),
    }
}

// Enters the new volume, and writes its label, where a number is left for it.
fn make_volume<D: Store>(
    room: &mut RoomState,
    store: &mut D,
    m: Moment,
    new: NewVolume,
    was: Volid,
) -> Reply
    requires opens { IsTrue room.old.room.is_open }
    requires moment { m.0 ≤ max_moment }
    requires new { IsNewVolume new room.old.room }
    ensures { Follows (new_volume_plan m new was room.old.room) result
        room.old.room room.new.room (D.view store.old) (D.view store.new) }
{
    if is_at_ceiling(room.catalogue()) {
        return Reply::Refused(Refusal::TooMany { limit: CEILING });
    }
    enter_and_write(room, store, m, new, was)
}

// Enters the new volume, and writes its label.
fn enter_and_write<D: Store>(
    room: &mut RoomState,
    store: &mut D,
    m: Moment,
    new: NewVolume,
    was: Volid,
) -> Reply
    requires opens { IsTrue room.old.room.is_open }
    requires moment { m.0 ≤ max_moment }
    requires new { IsNewVolume new room.old.room }
    requires below { is_at_ceiling room.old.room.catalogue ≡ false }
    ensures { Follows (new_volume_plan m new was room.old.room) result
        room.old.room room.new.room (D.view store.old) (D.view store.new) }
{
    let catalogue = room.catalogue();
    let _number = catalogue.number();
    let volid = catalogue.next_volid();
    let label = label_of(m, volid, &new);
    let NewVolume {
        cart,
        pool,
        capacity,
        ..
    } = new;
    let change = Change::Labelled {
        volid,
        cart,
        pool,
        capacity,
        was,
    };
    match prepare_entry(room, &change) {
        Ok(first) => match enter_prepared(room, store, m, change, first) {
            Ok(()) => match room.write_label(store, &label) {
                Ok(()) => Reply::Done(Answer::Labelled { cart, volid }),
                Err(fault) => Reply::Refused(fault),
            },
            Err(fault) => Reply::Refused(fault),
        },
        Err(Memory) => Reply::Refused(Refusal::NoMemory),
    }
}

fn label_of(m: Moment, volid: Volid, new: &NewVolume) -> Label
    requires pool { IsShortName new.now.pool }
    ensures { result ≡ label_of m volid new.now }
{
    let name = new.pool.as_bytes();
    Label {
        volid,
        cart: new.cart,
        capacity: new.capacity,
        made: m,
        pool_length: name.len() as u8,
        pool: padded(name),
        units: new.units,
    }
}

// A name of at most 64 bytes, with zero bytes behind it.
fn padded(name: &[u8]) -> [u8; MAX_POOL]
    requires { length name.now ≤ 64 }
    ensures { result ≡ name.now ++ replicate (64 - length name.now) 0 }
{
    let mut pool = [0; MAX_POOL];
    let (front, _) = pool.split_at_mut(name.len());
    front.copy_from_slice(name);
    pool
}
