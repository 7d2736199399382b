//! What a room can be asked for, and what it answers: commands, answers and replies, as plain
//! values. docs/definitions.md says what each refusal means.
#![tactic(auto)]

mod answer;
mod command;
mod reply;

pub use answer::{Answer, SlotLine};
pub use catalog_change::ResourceKind;
pub use command::Command;
pub use reply::Reply;
pub use room_rules::{Action, Planned};
