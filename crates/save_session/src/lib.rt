//! The sessions in which save sets are sent: of each what was sent, and where it lies. The bytes
//! themselves aren't kept; contracts see them as a list.
//! docs/definitions.md says what the words of the contracts mean.
#![tactic(auto)]

mod checked;
mod laws;
mod sent_text;
mod session;
mod sessions;

pub use checked::Checked;
pub use laws::{
    checks_are_exact, ended_sessions_are_whole, found_after_a_change, found_after_a_close,
    found_after_a_drive_was_left, found_after_a_start, found_is_a_session, pieces_join,
    readers_have_the_head, sections_are_the_longest_runs, sessions_stay,
};
pub use sessions::Sessions;
