//! Writes changes of the catalogue as bytes, each in its one spelling, and reads them back with the
//! first field that isn't allowed. What single fields and lists are read and written by serves
//! snapshots too. The definitions are those of `catalog_spelling`; docs/formats.md has the bytes.
#![tactic(auto)]

mod change_reading;
mod change_sizes;
mod change_writing;
mod decode;
mod encode;
mod entry;
mod field;
mod head;
mod laws;
mod list;
mod names;
mod put;
mod resource;
mod resource_items;
mod resource_reading;
mod resource_writing;
mod section;
mod ssids;
mod text;

pub use catalog_spelling::{DecodeFault, FieldFault};
pub use change_sizes::change_length;
pub use decode::decode_change;
pub use encode::{encode_change, encode_change_into};
pub use entry::Entries;
pub use field::{
    allow, expect_u64, known, read_bytes, read_digest, read_flag, read_moment, read_u8,
    read_u8_within, read_u16, read_u16_within, read_u32, read_u32_within, read_u64, read_u64_above,
    read_u64_from, read_u64_if, read_u64_within,
};
pub use head::{put_head, read_head};
pub use laws::{bytes_are_a_change_or_bad, encoded_changes_are_decoded, one_spelling};
pub use list::{
    Format, items_length, put_items, put_list_u8, put_list_u16, put_list_u32, read_items,
    read_list_u8, read_list_u16, read_list_u32,
};
pub use names::{SetNames, ShortNames, text_length};
pub use put::{put_bytes, put_flag, put_long_text, put_text, put_u8, put_u16, put_u32, put_u64};
pub use resource::{Resources, resource_length};
pub use resource_items::{Actions, Levels, Members, Overrides, read_level};
pub use resource_reading::{read_resource, read_resource_kind};
pub use resource_writing::{put_resource, resource_byte};
pub use section::Sections;
pub use ssids::Ssids;
pub use text::{read_name, read_path, read_text};
