//! Refusals whose names take memory.

ghost use Rattle.std.specs.Prelude.{◌≡◌, ◌⊎◌, IfOk, decimal};
ghost use Rattle.room_base.specs.declared.refusal.Refusal.TheVariants.{Exists, InUse, Malformed};
ghost use Rattle.room_base.specs.declared.refusal.Refusal.TheVariants.{NoMemory, NoSuch};

use room_base::{Memory, Name, Refusal};
use std::alloc::{AllocError, Global};

/// A field has the wrong form, or is out of range.
pub fn malformed(alloc: Global, field: &str) -> Refusal
    ensures { (result ≡ Malformed field.now) ⊎ (result ≡ NoMemory) }
{
    match Name::from_text(alloc, field) {
        Ok(field) => Refusal::Malformed { field },
        Err(Memory) => Refusal::NoMemory,
    }
}

/// Something of this kind and number is there.
pub fn exists(alloc: Global, kind: &str, number: u64) -> Refusal
    ensures { (result ≡ Exists kind.now (decimal number)) ⊎ (result ≡ NoMemory) }
{
    match named(alloc, kind, number) {
        Ok((kind, name)) => Refusal::Exists { kind, name },
        Err(Memory) => Refusal::NoMemory,
    }
}

/// What is of this kind and number needs it.
pub fn in_use(alloc: Global, kind: &str, number: u64) -> Refusal
    ensures { (result ≡ InUse kind.now (decimal number)) ⊎ (result ≡ NoMemory) }
{
    match named(alloc, kind, number) {
        Ok((kind, name)) => Refusal::InUse { kind, name },
        Err(Memory) => Refusal::NoMemory,
    }
}

/// Nothing of this kind and number is there.
pub fn no_such(alloc: Global, kind: &str, number: u64) -> Refusal
    ensures { (result ≡ NoSuch kind.now (decimal number)) ⊎ (result ≡ NoMemory) }
{
    match named(alloc, kind, number) {
        Ok((kind, name)) => Refusal::NoSuch { kind, name },
        Err(Memory) => Refusal::NoMemory,
    }
}

/// Nothing of this kind and name is there.
pub fn no_such_name(alloc: Global, kind: &str, name: Name) -> Refusal
    ensures { (result ≡ NoSuch kind.now name) ⊎ (result ≡ NoMemory) }
{
    match Name::from_text(alloc, kind) {
        Ok(kind) => Refusal::NoSuch { kind, name },
        Err(Memory) => Refusal::NoMemory,
    }
}

// A kind of thing, and the name of the one with a number.
fn named(alloc: Global, kind: &str, number: u64) -> Result<(Name, Name), Memory>
    ensures { IfOk result (λ pair. (pair.0 ≡ kind.now) × (pair.1 ≡ decimal number)) }
{
    let kind = Name::from_text(alloc, kind)?;
    match format!(in alloc; "{number}") {
        Ok(text) => Ok((kind, Name::from_text(alloc, text.as_str())?)),
        Err(AllocError) => Err(Memory),
    }
}
