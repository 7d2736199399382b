//! Opens a journal: finds the current file, its snapshot and its entries.

ghost use Rattle.std.specs.Prelude.{◌≡◌, ◌≤◌, ◌+◌, ◌^◌, ◌<◌, length, take, Some, None, OnOk};
ghost use Rattle.std.specs.Prelude.{IfOk, IfErr};
ghost use Rattle.room_base.specs.Outside.{Told};
ghost use Rattle.room_disk.specs.Disk.{Quiet, Settled};
ghost use Rattle.cat_journal.specs.Meaning.{HasFront};
ghost use Rattle.cat_journal.specs.Entries.{IsCounted};
ghost use Rattle.cat_journal.specs.Heads.{FindsHead, IsFileHead, HasFileHead, head_of};
ghost use Rattle.cat_journal.specs.Opening.{OpenCause, Opens, FindsFront, ChecksFront, OpensFile};
ghost use Rattle.cat_journal.specs.Opening.{OpensAlone, GivesNothing, GivesJournal};
ghost use Rattle.cat_journal.specs.declared.opening.OpenFault.TheVariants as faults;
ghost use Rattle.cat_journal.specs.declared.front.FrontRead.TheVariants as read;

use crate::current::CurrentFile;
use crate::entry_list::{Entry, EntryList, read_entries};
use crate::front::{FileHead, FrontRead, check_snapshot, read_front, read_snapshot};
use crate::head::FRONT_SIZE;
use crate::journal::Journal;
use crate::reading::{Pieces, ReadFault};
use room_base::{Failed, Items};
use room_disk::Store;
use std::alloc::Global;

/// An opened journal, the number of its current file, and what that file holds: a snapshot with the
/// number of the last change in it, and the entries behind it. Where no file is open, there is no
/// current file, the number is 0, and snapshot and entries are empty.
#[derive(Drop)]
pub struct Opened {
    pub journal: Journal,
    pub file: Option<u32>,
    pub number: u64,
    pub snapshot: Items<u8>,
    pub entries: Items<Entry>,
}

/// Why a journal can't be opened.
#[derive(Clone, Copy)]
pub enum OpenFault {
    /// The front of the file is damaged (place 0), or the entry whose gate stands at that place.
    Damaged { file: u32, place: u64 },
    /// A call on the file failed.
    Failed { file: u32 },
    Memory,
}

impl From<ReadFault> for OpenFault {
    ghost use Rattle.std.specs.Prelude.{◌≡◌};
    ghost use Rattle.cat_journal.specs.Opening.{open_fault};

    ghost from_gives = { λ read fault. fault ≡ open_fault read };

    fn from(read: ReadFault) -> OpenFault {
        match read {
            ReadFault::Failed { file } => OpenFault::Failed { file },
            ReadFault::Memory => OpenFault::Memory,
        }
    }
}

impl Journal {
    /// Opens the journal. It begins with a sync of both files; then it reads both heads, and of
    /// each open file its snapshot, once, and the entries of the current one. It holds no more than
    /// the current file and one piece.
    pub fn open<D: Store>(alloc: Global, store: &mut D) -> Result<Opened, OpenFault>
        ensures journal { IfOk result (λ opened. GivesJournal opened opened.file) }
        ensures cause { OpenCause (D.view store.old) (D.view store.new) result }
        ensures tells { (D.view store.new).tells ≡ (D.view store.old).tells }
        ensures quiet { Told (D.view store.old).tells
            (Quiet (D.view store.old) (D.view store.new)) }
        ensures settled { Told (D.view store.old).tells
            (OnOk result (Settled (D.view store.new) 0 × Settled (D.view store.new) 1)) }
        ensures opens { Told (D.view store.old).tells (Opens (D.view store.old).reads result) }
    {
        sync_file(store, 0)?;
        sync_file(store, 1)?;
        let first = read_front(store, 0)?;
        let second = read_front(store, 1)?;
        open_files(alloc, store, &first, &second)
    }
}

fn sync_file<D: Store>(store: &mut D, file: u32) -> Result<(), OpenFault>
    requires { file ≤ 1 }
    ensures cause { OpenCause (D.view store.old) (D.view store.new) result }
    ensures fault { IfErr result (λ fault. fault ≡ faults.Failed file) }
    ensures tells { (D.view store.new).tells ≡ (D.view store.old).tells }
    ensures quiet { Told (D.view store.old).tells (Quiet (D.view store.old) (D.view store.new)) }
    ensures settled { Told (D.view store.old).tells
        (OnOk result (Settled (D.view store.new) file)) }
{
    match store.sync(file) {
        Ok(()) => Ok(()),
        Err(Failed) => Err(OpenFault::Failed { file }),
    }
}

// Judges the fronts of the two files, that of file 0 first, and opens the current one.
fn open_files<D: Store>(
    alloc: Global,
    store: &mut D,
    first: &FrontRead,
    second: &FrontRead,
) -> Result<Opened, OpenFault>
    requires first { HasFileHead first.now }
    requires second { HasFileHead second.now }
    ensures journal { IfOk result (λ opened. GivesJournal opened opened.file) }
    ensures cause { OpenCause (D.view store.old) (D.view store.new) result }
    ensures tells { (D.view store.new).tells ≡ (D.view store.old).tells }
    ensures quiet { Told (D.view store.old).tells (Quiet (D.view store.old) (D.view store.new)) }
    ensures opens { Told (D.view store.old).tells
        (FindsHead (take 64 ((D.view store.old).reads 0))
        (length ((D.view store.old).reads 0)) first.now
        → FindsHead (take 64 ((D.view store.old).reads 1))
        (length ((D.view store.old).reads 1)) second.now
        → Opens (D.view store.old).reads result) }
{
    match (first, second) {
        (FrontRead::Bad, _) => Err(bad_front(0)),
        (FrontRead::Shut, FrontRead::Bad) => Err(bad_front(1)),
        (FrontRead::Open(head), FrontRead::Bad) => {
            check_front(alloc, store, 0, head)?;
            Err(bad_front(1))
        }
        (FrontRead::Shut, FrontRead::Shut) => Ok(nothing_open(alloc)),
        (FrontRead::Open(head), FrontRead::Shut) => open_alone(alloc, store, 0, head),
        (FrontRead::Shut, FrontRead::Open(head)) => open_alone(alloc, store, 1, head),
        (FrontRead::Open(head), FrontRead::Open(other)) => open_greater(alloc, store, head, other),
    }
}

// Opens the file of greater generation, where both are open.
fn open_greater<D: Store>(
    alloc: Global,
    store: &mut D,
    first: &FileHead,
    second: &FileHead,
) -> Result<Opened, OpenFault>
    requires first { IsFileHead first.now }
    requires second { IsFileHead second.now }
    ensures journal { IfOk result (λ opened. GivesJournal opened opened.file) }
    ensures cause { OpenCause (D.view store.old) (D.view store.new) result }
    ensures tells { (D.view store.new).tells ≡ (D.view store.old).tells }
    ensures quiet { Told (D.view store.old).tells (Quiet (D.view store.old) (D.view store.new)) }
    ensures opens { Told (D.view store.old).tells
        (FindsHead (take 64 ((D.view store.old).reads 0))
        (length ((D.view store.old).reads 0)) (read.Open first.now)
        → FindsHead (take 64 ((D.view store.old).reads 1))
        (length ((D.view store.old).reads 1)) (read.Open second.now)
        → Opens (D.view store.old).reads result) }
{
    if first.generation < second.generation {
        check_front(alloc, store, 0, first)?;
        return open_alone(alloc, store, 1, second);
    }
    let snapshot = take_snapshot(alloc, store, 0, first)?;
    check_front(alloc, store, 1, second)?;
    open_file(alloc, store, 0, first, snapshot)
}

// Opens the one file that is open, or the later of two.
fn open_alone<D: Store>(
    alloc: Global,
    store: &mut D,
    file: u32,
    head: &FileHead,
) -> Result<Opened, OpenFault>
    requires file { file ≤ 1 }
    requires head { IsFileHead head.now }
    ensures journal { IfOk result (λ opened. GivesJournal opened opened.file) }
    ensures cause { OpenCause (D.view store.old) (D.view store.new) result }
    ensures tells { (D.view store.new).tells ≡ (D.view store.old).tells }
    ensures quiet { Told (D.view store.old).tells (Quiet (D.view store.old) (D.view store.new)) }
    ensures opens { Told (D.view store.old).tells
        (FindsHead (take 64 ((D.view store.old).reads file))
        (length ((D.view store.old).reads file)) (read.Open head.now)
        → OpensAlone file ((D.view store.old).reads file) (head_of head.now) result) }
{
    let snapshot = take_snapshot(alloc, store, file, head)?;
    open_file(alloc, store, file, head, snapshot)
}

// Reads the entries behind a front, and gives out what the file holds.
fn open_file<D: Store>(
    alloc: Global,
    store: &mut D,
    file: u32,
    head: &FileHead,
    snapshot: Items<u8>,
) -> Result<Opened, OpenFault>
    requires file { file ≤ 1 }
    requires head { IsFileHead head.now }
    requires snapshot { length snapshot ≡ head.now.size }
    ensures journal { IfOk result (λ opened. GivesJournal opened opened.file) }
    ensures cause { OpenCause (D.view store.old) (D.view store.new) result }
    ensures tells { (D.view store.new).tells ≡ (D.view store.old).tells }
    ensures quiet { Told (D.view store.old).tells (Quiet (D.view store.old) (D.view store.new)) }
    ensures opens { Told (D.view store.old).tells
        (HasFront ((D.view store.old).reads file) (head_of head.now) snapshot
        → head.now.end ≡ length ((D.view store.old).reads file)
        → OpensFile file ((D.view store.old).reads file) (head_of head.now) snapshot result) }
{
    let mut pieces = Pieces::new(alloc, file, FRONT_SIZE + head.size, head.end)?;
    let list = read_entries(alloc, store, &mut pieces, head)?;
    if !list.closed {
        return Err(OpenFault::Damaged {
            file,
            place: list.gate,
        });
    }
    Ok(give_out(alloc, file, head, snapshot, list))
}

// What a file holds, and a journal that stands behind it.
fn give_out(
    alloc: Global,
    file: u32,
    head: &FileHead,
    snapshot: Items<u8>,
    list: EntryList,
) -> Opened
    requires file { file ≤ 1 }
    requires head { IsFileHead head.now }
    requires gate { list.gate + 1 < 2 ^ 64 }
    requires counted { IsCounted head.now.form head.now.number list }
    ensures exact { result ≡ record {
      journal = record {
        current = Some (record {
          file = file;
          form = head.now.form;
          generation = head.now.generation;
          gate = list.gate;
        });
        last = list.last;
        spare = 0;
      };
      file = Some file;
      number = head.now.number;
      snapshot = snapshot;
      entries = list.entries;
    } }
    ensures journal { GivesJournal result (Some file) }
{
    let current = CurrentFile {
        file,
        form: head.form,
        generation: head.generation,
        gate: list.gate,
    };
    Opened {
        journal: Journal::at(alloc, Some(current), list.last),
        file: Some(file),
        number: head.number,
        snapshot,
        entries: list.entries,
    }
}

// Where no file is open.
fn nothing_open(alloc: Global) -> Opened
    ensures { GivesNothing result × (result.file ≡ None) }
{
    Opened {
        journal: Journal::at(alloc, None, 0),
        file: None,
        number: 0,
        snapshot: Items::of(Vec::new(alloc)),
        entries: Items::of(Vec::new(alloc)),
    }
}

fn bad_front(file: u32) -> OpenFault
    ensures { result ≡ faults.Damaged file 0 }
{
    OpenFault::Damaged { file, place: 0 }
}

// The snapshot of a file, whose front has to be right.
fn take_snapshot<D: Store>(
    alloc: Global,
    store: &mut D,
    file: u32,
    head: &FileHead,
) -> Result<Items<u8>, OpenFault>
    requires file { file ≤ 1 }
    requires head { IsFileHead head.now }
    ensures size { IfOk result (λ snapshot. length snapshot ≡ head.now.size) }
    ensures cause { OpenCause (D.view store.old) (D.view store.new) result }
    ensures tells { (D.view store.new).tells ≡ (D.view store.old).tells }
    ensures quiet { Told (D.view store.old).tells (Quiet (D.view store.old) (D.view store.new)) }
    ensures found { Told (D.view store.old).tells
        (FindsHead (take 64 ((D.view store.old).reads file))
        (length ((D.view store.old).reads file)) (read.Open head.now)
        → FindsFront file ((D.view store.old).reads file) head.now result) }
{
    match read_snapshot(alloc, store, file, head)? {
        Some(snapshot) => Ok(snapshot),
        None => Err(bad_front(file)),
    }
}

// The front of the file that isn't the current one has to be right too.
fn check_front<D: Store>(
    alloc: Global,
    store: &mut D,
    file: u32,
    head: &FileHead,
) -> Result<(), OpenFault>
    requires file { file ≤ 1 }
    requires head { IsFileHead head.now }
    ensures cause { OpenCause (D.view store.old) (D.view store.new) result }
    ensures tells { (D.view store.new).tells ≡ (D.view store.old).tells }
    ensures quiet { Told (D.view store.old).tells (Quiet (D.view store.old) (D.view store.new)) }
    ensures found { Told (D.view store.old).tells
        (FindsHead (take 64 ((D.view store.old).reads file))
        (length ((D.view store.old).reads file)) (read.Open head.now)
        → ChecksFront file ((D.view store.old).reads file) head.now result) }
{
    if check_snapshot(alloc, store, file, head)? {
        Ok(())
    } else {
        Err(bad_front(file))
    }
}
