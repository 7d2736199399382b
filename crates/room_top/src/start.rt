ghost use Rattle.std.specs.Prelude.{◌≡◌, ◌≤◌, ◌↔◌, ◌∷◌, [], ℕ, List, IsTrue, map, string_bytes};
ghost use Rattle.room_base.specs.Outside.{Told};
ghost use Rattle.room_run.specs.Numbers.{exit_number};
ghost use Rattle.room_run.specs.Report.{Reports};
ghost use Rattle.room_run.specs.Words.{ReadsWords};
ghost use Rattle.room_top.specs.Start.{AsksFor, IsFolderOf, PrintsText, RunsOverSystem, Starts};
ghost use Rattle.room_top.specs.Start.{IsLockFor, RunsLocked};
ghost use Rattle.room_run.specs.declared.status.Status.{Status};

use room_base::{Name, NameFault, RealClock, Sink, StdSource, write_all};
use room_disk::{FolderLock, FolderStore};
use room_run::{Command, Status, misfit, read_words, report, report_unlocked, run};
use std::alloc::Global;
use std::env;
use std::fs::File;
use std::rt::{Clock, Env, Files};

/// The longest folder word, in bytes.
const MAX_FOLDER: u32 = 4096;

const HELP: &[u8] = b"usage: room FOLDER COMMAND ..

room keeps files on cartridges, which are files of a folder that stand for tapes.

commands:
  put CART        the input becomes the next file of a blank or raw cartridge, 1 to 256
  get CART FILE   a file of a raw cartridge is written, counted from 1
  desk            the requests of the input are answered, one after the other

The exit status is 0 where all was done; else a line on standard error says why not.
";

const VERSION: &[u8] = b"room 0.1.0\n";

/// Reads the program's arguments, of which the first names the folder, does what the others ask,
/// over the system's own objects, and answers the program's exit status. A command runs on a disk
/// that keeps the lock on the folder: for it alone where it writes, else for all that read. The
/// arguments aren't told, so the contract says that there are some.
pub fn start<W: Sink, E: Sink>(rt: &HostRuntime, out: &mut W, err: &mut E) -> u8
    ensures out_later { (W.view out.old).faults ≤ (W.view out.new).faults }
    ensures err_later { (E.view err.old).faults ≤ (E.view err.new).faults }
    ensures started { (words : List (List ℕ)) × ((answer : Status)
        × (result ≡ exit_number answer)
        × Starts HELP.now VERSION.now words (W.view out.old) (W.view out.new)
        (E.view err.old) (E.view err.new) answer) }
{
    serve(rt, out, err).number()
}

// Does what the arguments ask for.
fn serve<W: Sink, E: Sink>(rt: &HostRuntime, out: &mut W, err: &mut E) -> Status
    ensures out_later { (W.view out.old).faults ≤ (W.view out.new).faults }
    ensures err_later { (E.view err.old).faults ≤ (E.view err.new).faults }
    ensures started { (words : List (List ℕ)) × Starts HELP.now VERSION.now words
        (W.view out.old) (W.view out.new) (E.view err.old) (E.view err.new) result }
{
    let alloc = rt.alloc();
    match read_arguments(rt) {
        Ok(Request::Help) => write_text(out, err, HELP),
        Ok(Request::Version) => write_text(out, err, VERSION),
        Ok(Request::Run { folder, words }) => match read_words(alloc, words.as_slice()) {
            Ok(command) => run_locked(rt, folder, command, words.as_slice(), out, err),
            Err(status) => {
                report(err, &status);
                status
            }
        },
        Err(status) => {
            report(err, &status);
            status
        }
    }
}

// Locks the folder for the command, which the words are, and does it.
fn run_locked<W: Sink, E: Sink>(
    rt: &HostRuntime,
    folder: Name,
    command: Command,
    words: &[String],
    out: &mut W,
    err: &mut E,
) -> Status
    requires { ReadsWords (map string_bytes words.now) (Ok command) }
    ensures out_later { (W.view out.old).faults ≤ (W.view out.new).faults }
    ensures err_later { (E.view err.old).faults ≤ (E.view err.new).faults }
    ensures ran { RunsLocked folder (map string_bytes words.now) (W.view out.old) (W.view out.new)
        (E.view err.old) (E.view err.new) result }
{
    match FolderLock::take(rt, folder, command.access()) {
        Ok(lock) => run_in(rt, lock, words, out, err),
        Err(unlocked) => {
            report_unlocked(err, &unlocked);
            Status::DiskFault
        }
    }
}

// Does what the words ask in the folder, which is locked for that.
fn run_in<W: Sink, E: Sink>(
    rt: &HostRuntime,
    lock: FolderLock,
    words: &[String],
    out: &mut W,
    err: &mut E,
) -> Status
    requires { IsLockFor (map string_bytes words.now) lock }
    ensures out_later { (W.view out.old).faults ≤ (W.view out.new).faults }
    ensures err_later { (E.view err.old).faults ≤ (E.view err.new).faults }
    ensures ran { RunsOverSystem lock (map string_bytes words.now) (W.view out.old)
        (W.view out.new) result }
    ensures reported { Told (E.view err.old).tells
        (Reports result (E.view err.old) (E.view err.new)) }
{
    let alloc = rt.alloc();
    let mut input = StdSource::new(rt.reader());
    let mut disk = FolderStore::new(rt, alloc, lock);
    let mut clock = RealClock::new(rt);
    run(alloc, words, &mut input, out, err, &mut disk, &mut clock)
}

/// What the arguments ask for.
#[derive(Drop)]
enum Request {
    Help,
    Version,
    Run { folder: Name, words: Vec<String> },
}

// Reads the arguments behind the program's own name. Arguments that aren't all text are none.
fn read_arguments<R: Env + AllocGlobal>(rt: &R) -> Result<Request, Status>
    ensures { (words : List (List ℕ)) × AsksFor words result }
{
    let alloc = rt.alloc();
    let mut words = Vec::new(alloc);
    let Ok(arguments) = env::args(rt) else {
        return Err(misfit(alloc, ""));
    };
    for word in arguments.skip(1) {
        if words.push(word).is_err() {
            return Err(Status::Memory);
        }
    }
    request_of(alloc, words)
}

// What the words ask for.
fn request_of(alloc: Global, mut words: Vec<String>) -> Result<Request, Status>
    ensures { AsksFor (map string_bytes words.items) result }
{
    if is_alone(&words, "--help") {
        return Ok(Request::Help);
    }
    if is_alone(&words, "--version") {
        return Ok(Request::Version);
    }
    let Some(first) = words.first() else {
        return Err(misfit(alloc, ""));
    };
    let folder = folder_of(alloc, first.as_str())?;
    words.remove(0);
    Ok(Request::Run { folder, words })
}

// Whether this is the only word.
fn is_alone(words: &[String], word: &str) -> bool
    ensures { IsTrue result ↔ (map string_bytes words.now ≡ word.now ∷ []) }
{
    match words {
        [only] => only.as_str() == word,
        _ => false,
    }
}

fn folder_of(alloc: Global, word: &str) -> Result<Name, Status>
    ensures { IsFolderOf word.now result }
{
    match Name::read(alloc, word.as_bytes(), MAX_FOLDER) {
        Ok(folder) => Ok(folder),
        Err(NameFault::Memory) => Err(Status::Memory),
        Err(_) => Err(misfit(alloc, word)),
    }
}

// Writes a text that was asked for.
fn write_text<W: Sink, E: Sink>(out: &mut W, err: &mut E, text: &[u8]) -> Status
    ensures out_later { (W.view out.old).faults ≤ (W.view out.new).faults }
    ensures err_later { (E.view err.old).faults ≤ (E.view err.new).faults }
    ensures written { PrintsText text.now (W.view out.old) (W.view out.new) result }
    ensures reported { Told (E.view err.old).tells
        (Reports result (E.view err.old) (E.view err.new)) }
{
    if write_all(out, text).is_ok() {
        return Status::Done;
    }
    report(err, &Status::WriteFault);
    Status::WriteFault
}
