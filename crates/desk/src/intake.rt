//! Requests, read one after the other from an input of which no more than a limit is taken.

ghost use Rattle.std.specs.Prelude.{◌≡◌, ◌≤◌, ◌-◌, [], Err, IfErr, length};
ghost use Rattle.room_base.specs.Faults.{Rose};
ghost use Rattle.room_base.specs.Outside.{Told};
ghost use Rattle.desk_request.specs.declared.fault.RequestFault.TheVariants as faults;
ghost use Rattle.desk.specs.Limits.{input_limit};
ghost use Rattle.desk.specs.Next.{IsReadingEnd, ReadsNext, ReadsWithin, ended};
ghost use Rattle.desk.specs.declared.end.DeskEnd.TheVariants as ends;

use crate::DeskEnd;
use crate::limited::Limited;
use desk_request::{Request, RequestFault, read_request};
use room_base::Source;
use std::alloc::Global;

/// The most bytes that are taken of an input.
pub(crate) const INPUT_LIMIT: u64 = 1 << 40;

/// What is known of an input: the bytes that were taken and aren't read yet, and how many more may
/// be taken.
#[derive(Drop)]
pub(crate) struct Intake {
    bytes: Vec<u8>,
    allowed: u64,
}

impl Intake {
    /// Nothing was taken. Takes no memory.
    pub(crate) fn new(alloc: Global) -> Intake
        ensures bytes { result.bytes.items ≡ [] }
        ensures allowed { result.allowed ≡ input_limit }
    {
        Intake {
            bytes: Vec::new(alloc),
            allowed: INPUT_LIMIT,
        }
    }

    // How many bytes were read: those that were taken and aren't here.
    fn read(&self) -> u64
        ensures { result ≡ (input_limit - self.now.allowed) - length self.now.bytes.items }
    {
        INPUT_LIMIT
            .saturating_sub(self.allowed)
            .saturating_sub(self.bytes.len() as u64)
    }
}

#[tactic(auto, using(crate::proofs::Reading::next))]
/// Reads the next request. An end of the input, or bytes that begin no request, are the end of the
/// desk, and that is `InputLimit` where no more may be taken.
pub(crate) fn read_next<S: Source>(
    alloc: Global,
    input: &mut S,
    intake: &mut Intake,
) -> Result<Request, DeskEnd>
    ensures later { (S.view input.old).faults ≤ (S.view input.new).faults }
    ensures cause { result ≡ Err ends.ReadFault
        → Rose (S.view input.old).faults (S.view input.new).faults }
    ensures tells { (S.view input.new).tells ≡ (S.view input.old).tells }
    ensures end { IfErr result IsReadingEnd }
    ensures read { Told (S.view input.old).tells (ReadsNext (S.view input.old) (S.view input.new)
        intake.old.bytes.items intake.new.bytes.items intake.old.allowed intake.new.allowed
        result) }
{
    let read = intake.read();
    let answer = read_within(alloc, input, intake);
    ended(answer, intake.allowed == 0, read)
}

// What an answer is to the desk.
fn ended(
    answer: Result<Option<Request>, RequestFault>,
    is_limit: bool,
    read: u64,
) -> Result<Request, DeskEnd>
    ensures { result ≡ ended answer is_limit read }
{
    match answer {
        Ok(Some(request)) => Ok(request),
        Ok(None) if is_limit => Err(DeskEnd::InputLimit),
        Ok(None) => Err(DeskEnd::Done),
        Err(RequestFault::Bad) if is_limit => Err(DeskEnd::InputLimit),
        Err(RequestFault::Bad) => Err(DeskEnd::BadInput { offset: read }),
        Err(RequestFault::ReadFault) => Err(DeskEnd::ReadFault),
        Err(RequestFault::Memory) => Err(DeskEnd::Memory),
    }
}

// Reads a request, from no more bytes than may be taken.
fn read_within<S: Source>(
    alloc: Global,
    input: &mut S,
    intake: &mut Intake,
) -> Result<Option<Request>, RequestFault>
    ensures later { (S.view input.old).faults ≤ (S.view input.new).faults }
    ensures cause { result ≡ Err faults.ReadFault
        → Rose (S.view input.old).faults (S.view input.new).faults }
    ensures tells { (S.view input.new).tells ≡ (S.view input.old).tells }
    ensures read { Told (S.view input.old).tells (ReadsWithin (S.view input.old) (S.view input.new)
        intake.old.bytes.items intake.new.bytes.items intake.old.allowed intake.new.allowed
        result) }
{
    let mut source = Limited {
        source: input,
        allowed: intake.allowed,
    };
    let answer = read_request(alloc, &mut source, &mut intake.bytes);
    intake.allowed = source.allowed;
    answer
}
