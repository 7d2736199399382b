use crate::Answer;
use room_base::Refusal;

/// What a command comes to.
#[derive(Drop)]
pub enum Reply {
    /// It was done.
    Done(Answer),
    /// It was refused, and nothing was done but what the refusal says.
    Refused(Refusal),
}
