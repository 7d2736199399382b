//! The words of levels, actions and states.

ghost use Rattle.std.specs.Prelude.{◌≡◌};
ghost use Rattle.desk_reply.specs.Words.{level_word, action_word};
ghost use Rattle.desk_reply.specs.Words.{record_state_word, copy_state_word};

use media_db::{CopyState, RecordState};
use room_rules::Action;
use save_stream::Level;

pub(crate) fn level_word(level: Level) -> &'static str
    ensures { result.now ≡ level_word level }
{
    match level.rank() {
        0 => "full",
        1 => "1",
        2 => "2",
        3 => "3",
        4 => "4",
        5 => "5",
        6 => "6",
        7 => "7",
        8 => "8",
        9 => "9",
        _ => "incr",
    }
}

pub(crate) fn action_word(action: Action) -> &'static str
    ensures { result.now ≡ action_word action }
{
    match Level::of(action.byte()) {
        Some(level) => level_word(level),
        None => "skip",
    }
}

pub(crate) fn record_state_word(state: RecordState) -> &'static str
    ensures { result.now ≡ record_state_word state }
{
    match state {
        RecordState::Begun => "begun",
        RecordState::Complete => "complete",
        RecordState::Aborted => "aborted",
    }
}

pub(crate) fn copy_state_word(state: CopyState) -> &'static str
    ensures { result.now ≡ copy_state_word state }
{
    match state {
        CopyState::Begun => "begun",
        CopyState::Done => "done",
    }
}
