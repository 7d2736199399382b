//! What every crate of the backup server shares: numbers with a meaning, texts and lists that
//! contracts see as values, the refusals of the room, and the objects of the outside (a source of
//! bytes, a sink for bytes, a clock) with their counts of faults.
//! docs/definitions.md says what the words of the contracts mean.
#![tactic(auto)]

mod calls;
mod clock;
mod fault;
mod items;
mod mem_sink;
mod mem_source;
mod name;
mod numbers;
mod ordered;
mod real_clock;
mod refusal;
mod refusal_fields;
mod refusal_text;
mod set_clock;
mod sink;
mod source;
mod std_sink;
mod std_source;
mod text;

pub use calls::{CallCount, risen_count};
pub use clock::Clock;
pub use fault::{Failed, Memory};
pub use items::Items;
pub use mem_sink::MemSink;
pub use mem_source::MemSource;
pub use name::{Name, NameFault};
pub use numbers::{Cart, CopyNo, MAX_MOMENT, Moment, Ssid, Volid};
pub use ordered::{
    change_is_found, found_is_in_the_list, insert_in_room, put_is_found, removed_is_not_found,
    same_found_is_same_list,
};
pub use real_clock::RealClock;
pub use refusal::Refusal;
pub use refusal_fields::{Field, FieldValue, Fields};
pub use refusal_text::write_refusal;
pub use set_clock::SetClock;
pub use sink::{Sink, write_all, write_parts};
pub use source::Source;
pub use std_sink::StdSink;
pub use std_source::StdSource;
pub use text::{MAX_PATH, name_text, path_text};
