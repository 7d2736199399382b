//! The words of the program.

use room_base::Name;
use std::env;
use std::rt::Env;

/// The word at a place, counted from 1 behind the program's own name.
pub fn word_at<R: Env + AllocGlobal>(rt: &R, place: usize) -> Option<String> {
    env::args(rt).ok()?.skip(place).next()
}

pub fn number_at<R: Env + AllocGlobal>(rt: &R, place: usize) -> Option<u32> {
    word_at(rt, place)?.as_str().parse::<u32>().ok()
}

/// The folder, which is the second word.
pub fn folder_of<R: Env + AllocGlobal>(rt: &R) -> Option<Name> {
    Name::read(rt.alloc(), word_at(rt, 2)?.as_bytes(), 4096).ok()
}
