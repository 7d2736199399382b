//! The state of a room, the effects that a command is made of, what each needs, and what it makes
//! of the state and of the files; and what a command is to do, as a plan: a refusal, or effects and an
//! answer. Definitions, and laws of them. docs/definitions.md reads the definitions aloud.
#![tactic(auto)]

mod crashes;
mod deeds;
mod rooms;
mod runs;

pub use crashes::{
    files_reopen_as_one_catalogue, files_reopen_as_the_catalogue, images_reopen_as_the_catalogue,
};
pub use deeds::{
    a_commit_is_an_effect, a_label_is_an_effect, a_read_is_an_effect, a_turn_over_is_an_effect,
    an_entry_is_an_effect, an_entry_of_a_part_is_an_effect, effects_in_memory,
};
pub use rooms::{an_opened_room_is_ready, catalogues_stay, rooms_stay, rooms_stay_behind_a_fault};
pub use runs::effects_join;
