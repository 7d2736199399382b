//! What the files of a room's journal replay to, and where they are damaged: definitions, and laws of
//! them. docs/definitions.md reads the definitions aloud.
#![tactic(auto)]
