//! Writes what is known of a save set.

ghost use Rattle.json.specs.Json.{Json};
ghost use Rattle.json.specs.Tree.{json_tokens};
ghost use Rattle.desk_reply.specs.Records.{section_json, copy_json, record_json};
ghost use Rattle.desk_reply.specs.Records.{first_members, last_members};
ghost use Rattle.desk_reply.specs.Writing.{Adds, list_tokens};

use crate::member::Value::{Digest, Flag, Number, Text};
use crate::member::{Member, put_members};
use crate::shown::{Shown, put_list};
use crate::word::{copy_state_word, level_word, record_state_word};
use json::Writer;
use media_db::{Record, Section, SetCopy};
use std::alloc::AllocError;

impl Shown for Section {
    ghost json = { section_json };

    fn write(&self, out: &mut Writer) -> Result<(), AllocError> {
        out.begin_array()?;
        out.u64(self.volid.0)?;
        out.u64(self.mark)?;
        out.u64(self.first)?;
        out.u64(self.last)?;
        out.u64(self.from)?;
        out.u64(self.to)?;
        out.end_array()
    }
}

impl Shown for SetCopy {
    ghost json = { copy_json };

    fn write(&self, out: &mut Writer) -> Result<(), AllocError> {
        out.begin_object()?;
        put_members(out, &[Member("no", Number(u64::from(self.no.0)))])?;
        put_list(out, "sections", self.sections.as_slice())?;
        put_members(out, &[Member("state", Text(copy_state_word(self.state)))])?;
        out.end_object()
    }
}

pub(crate) fn write_record(out: &mut Writer, row: &Record) -> Result<(), AllocError>
    ensures { Adds result out.old out.new (json_tokens (record_json row.now)) }
{
    out.begin_object()?;
    put_first(out, row)?;
    put_list(out, "copies", row.copies.as_slice())?;
    put_last(out, row)?;
    out.end_object()
}

fn put_first(out: &mut Writer, row: &Record) -> Result<(), AllocError>
    ensures { Adds result out.old out.new (list_tokens (first_members row.now)) }
{
    put_members(
        out,
        &[
            Member("base", Number(row.base.0)),
            Member("browse", Number(row.browse.0)),
            Member("bytes", Number(row.bytes)),
            Member("changed", Number(row.changed)),
            Member("client", Text(row.client.as_str())),
        ],
    )
}

fn put_last(out: &mut Writer, row: &Record) -> Result<(), AllocError>
    ensures { Adds result out.old out.new (list_tokens (last_members row.now)) }
{
    put_members(
        out,
        &[
            Member("digest", Digest(&row.digest)),
            Member("files", Number(u64::from(row.files))),
            Member("group", Text(row.group.as_str())),
            Member("hold", Flag(row.hold)),
            Member("level", Text(level_word(row.level))),
            Member("next_copy", Number(u64::from(row.next_copy))),
            Member("pool", Text(row.pool.as_str())),
            Member("purged", Flag(row.purged)),
            Member("retain", Number(row.retain.0)),
            Member("saved", Number(row.saved.0)),
            Member("set", Text(row.set.as_str())),
            Member("ssid", Number(row.ssid.0)),
            Member("state", Text(record_state_word(row.state))),
        ],
    )
}
