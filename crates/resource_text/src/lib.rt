//! Resources as an operator writes them, in TOML: policies, pools, clients, schedules and groups.
//! docs/formats.md has the form of the text, and which fault is answered first.
#![tactic(auto)]

mod clients;
mod days;
mod document;
mod fault;
mod groups;
mod lists;
mod policies;
mod pools;
mod schedules;
mod table;
mod words;

pub use document::read_resources;
pub use fault::TextFault;
