//! The text of a reply: a status line, headers and a body of JSON, as one list of bytes.
//! docs/http.md says which reply has which text.
#![tactic(auto)]

mod answer;
mod laws;
mod member;
mod record;
mod refused;
mod reply;
mod shown;
mod word;

pub use laws::{
    bodies_have_their_length, keys_ascend_in_replies, one_text_one_value,
    refusals_have_their_fields,
};
pub use reply::reply_text;
