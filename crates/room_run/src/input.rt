ghost use Rattle.std.specs.Prelude.{◌≡◌, ◌≤◌, ◌<◌, [], length, take, Err, IfOk, MatchResult};
ghost use Rattle.std.specs.Prelude.{vec_len};
ghost use Rattle.room_base.specs.Faults.{HasCause, Rose};
ghost use Rattle.room_base.specs.Outside.{Told};
ghost use Rattle.room_run.specs.Put.{HasSize};
ghost use Rattle.room_run.specs.Stages.{Fills, JudgesInput};
ghost use Rattle.room_run.specs.declared.input.InputFault.TheVariants as input_faults;

use crate::raw::MAX_FILE_SIZE;
use room_base::{Failed, Source};
use std::alloc::{AllocError, Global};

/// Why the input isn't taken as a file.
#[derive(Clone, Copy)]
pub enum InputFault {
    Memory,
    /// The input failed.
    Failed,
    /// It has no byte.
    Empty,
    /// It has more than 257,024 bytes.
    TooLong,
}

/// Takes the whole input, which is to have 1 to 257,024 bytes. No more than one byte past that is
/// taken.
pub fn take_input<S: Source>(alloc: Global, input: &mut S) -> Result<Vec<u8>, InputFault>
    ensures later { (S.view input.old).faults ≤ (S.view input.new).faults }
    ensures cause { result ≡ Err input_faults.Failed
        → Rose (S.view input.old).faults (S.view input.new).faults }
    ensures tells { (S.view input.new).tells ≡ (S.view input.old).tells }
    ensures size { IfOk result (λ bytes. HasSize bytes.items) }
    ensures judged { Told (S.view input.old).tells (MatchResult result
        (λ bytes. (bytes.items ≡ (S.view input.old).left) × ((S.view input.new).left ≡ []))
        (JudgesInput (S.view input.old).left (S.view input.new).left)) }
{
    let Ok(mut buffer) = input_buffer(alloc) else {
        return Err(InputFault::Memory);
    };
    let Ok(taken) = take_up_to(input, &mut buffer) else {
        return Err(InputFault::Failed);
    };
    if taken == 0 {
        return Err(InputFault::Empty);
    }
    if taken > MAX_FILE_SIZE {
        return Err(InputFault::TooLong);
    }
    buffer.truncate(taken);
    Ok(buffer)
}

// Room for one byte more than the input may have.
fn input_buffer(alloc: Global) -> Result<Vec<u8>, AllocError>
    ensures { IfOk result (λ buffer. vec_len buffer ≡ 257025) }
{
    vec![in alloc; 0; MAX_FILE_SIZE + 1]
}

// Takes bytes until the buffer is full or the input has ended, and answers how many.
fn take_up_to<S: Source>(input: &mut S, buffer: &mut [u8]) -> Result<usize, Failed>
    ensures within { IfOk result (λ taken. taken ≤ length buffer.new) }
    ensures cause { HasCause (S.view input.old).faults (S.view input.new).faults result }
    ensures tells { (S.view input.new).tells ≡ (S.view input.old).tells }
    ensures filled { Told (S.view input.old).tells (IfOk result (λ taken.
        Fills (S.view input.old).left (S.view input.new).left buffer.new taken)) }
    ensures ended { Told (S.view input.old).tells (IfOk result (λ taken.
        taken < length buffer.new → (S.view input.new).left ≡ [])) }
{
    let mut taken = 0;
    while taken < buffer.len() {
        let (_, space) = buffer.split_at_mut(taken);
        let count = input.take(space)? as usize;
        if count == 0 {
            return Ok(taken);
        }
        taken += count;
    }
    Ok(taken)
}
