ghost use Rattle.std.specs.Prelude.{◌≡◌, ◌≢◌, ◌<◌, ◌^◌, ℕ, decimal, map, string_bytes, MatchOption};
ghost use Rattle.room_run.specs.Words.{IsCartWord, IsNoCartWord, IsFileWord, IsNoFileWord};
ghost use Rattle.room_run.specs.Words.{IsMisfit, ReadsPut, ReadsGet, ReadsFile, ReadsWords};
ghost use Rattle.room_run.specs.Words.{access_of, ReadsDesk};

use crate::Status;
use itoa::Buffer;
use room_base::{Cart, Items};
use room_disk::Access;
use std::alloc::Global;
use volume_block::MAX_CART;

/// What the program is asked to do.
#[derive(Clone, Copy)]
pub enum Command {
    /// The input becomes the next file of the cartridge.
    Put { cart: Cart },
    /// The file of the cartridge with this number, counted from 1, is written.
    Get { cart: Cart, number: u64 },
    /// The requests of the input are answered.
    Desk,
}

impl Command {
    /// What the command does with the files of the folder.
    pub fn access(self) -> Access
        ensures { result ≡ access_of self }
    {
        match self {
            Command::Put { .. } => Access::Writes,
            Command::Get { .. } => Access::Reads,
            Command::Desk => Access::Writes,
        }
    }
}

/// Reads the words behind the folder. An `Err` is `Usage` or `Memory`.
pub fn read_words(alloc: Global, words: &[String]) -> Result<Command, Status>
    ensures { ReadsWords (map string_bytes words.now) result }
{
    let Some((command, rest)) = words.split_first() else {
        return Err(misfit(alloc, ""));
    };
    if command.as_str() == "put" {
        return read_put(alloc, rest);
    }
    if command.as_str() == "get" {
        return read_get(alloc, rest);
    }
    if command.as_str() == "desk" {
        return read_desk(alloc, rest);
    }
    Err(misfit(alloc, command.as_str()))
}

fn read_put(alloc: Global, words: &[String]) -> Result<Command, Status>
    ensures { ReadsPut (map string_bytes words.now) result }
{
    let Some((word, rest)) = words.split_first() else {
        return Err(misfit(alloc, ""));
    };
    let Some(cart) = cart_of(word.as_str()) else {
        return Err(misfit(alloc, word.as_str()));
    };
    if let Some(more) = rest.first() {
        return Err(misfit(alloc, more.as_str()));
    }
    Ok(Command::Put { cart })
}

fn read_get(alloc: Global, words: &[String]) -> Result<Command, Status>
    ensures { ReadsGet (map string_bytes words.now) result }
{
    let Some((word, rest)) = words.split_first() else {
        return Err(misfit(alloc, ""));
    };
    let Some(cart) = cart_of(word.as_str()) else {
        return Err(misfit(alloc, word.as_str()));
    };
    read_file_of(alloc, cart, rest)
}

fn read_file_of(alloc: Global, cart: Cart, words: &[String]) -> Result<Command, Status>
    ensures { ReadsFile cart.0 (map string_bytes words.now) result }
{
    let Some((word, rest)) = words.split_first() else {
        return Err(misfit(alloc, ""));
    };
    let Some(number) = file_number_of(word.as_str()) else {
        return Err(misfit(alloc, word.as_str()));
    };
    if let Some(more) = rest.first() {
        return Err(misfit(alloc, more.as_str()));
    }
    Ok(Command::Get { cart, number })
}

fn read_desk(alloc: Global, words: &[String]) -> Result<Command, Status>
    ensures { ReadsDesk (map string_bytes words.now) result }
{
    if let Some(more) = words.first() {
        return Err(misfit(alloc, more.as_str()));
    }
    Ok(Command::Desk)
}

// The cartridge that the word names.
#[tactic(auto, using(crate::proofs::Numbers::other_cart))]
fn cart_of(word: &str) -> Option<Cart>
    ensures { MatchOption result (IsNoCartWord word.now) (λ cart. IsCartWord word.now cart.0) }
{
    let number = plain_number(word)?;
    if 1 <= number && number <= u64::from(MAX_CART) {
        Some(Cart(number as u32))
    } else {
        None
    }
}

// The number of a file that the word names.
#[tactic(auto, using(crate::proofs::Numbers::other_file))]
fn file_number_of(word: &str) -> Option<u64>
    ensures { MatchOption result (IsNoFileWord word.now) (IsFileWord word.now) }
{
    let number = plain_number(word)?;
    if number == 0 { None } else { Some(number) }
}

// The number that the word is, in digits without a leading zero.
fn plain_number(word: &str) -> Option<u64>
    ensures { MatchOption result ((number : ℕ) → number < 2 ^ 64 → word.now ≢ decimal number)
        (λ number. word.now ≡ decimal number) }
{
    let number = word.parse::<u64>().ok()?;
    if Buffer::new().format(number) == word {
        Some(number)
    } else {
        None
    }
}

/// The status for a word that doesn't fit.
pub fn misfit(alloc: Global, word: &str) -> Status
    ensures { IsMisfit word.now result }
{
    match Vec::from_slice(alloc, word.as_bytes()) {
        Ok(word) => Status::Usage {
            word: Items::of(word),
        },
        Err(_) => Status::Memory,
    }
}
