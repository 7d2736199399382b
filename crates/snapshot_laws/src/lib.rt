//! Laws of snapshots as bytes, of the definitions of `catalog_spelling` alone: what is read is spelled
//! so, what is spelled is read, and what is read is a catalogue. docs/formats.md has the bytes.
#![tactic(auto)]
