//! Writes what a command answers that was done.

ghost use Rattle.std.specs.Prelude.{[], ◌∷◌};
ghost use Rattle.json.specs.Json.{Json};
ghost use Rattle.json.specs.Tree.{json_tokens};
ghost use Rattle.room_command.specs.declared.answer.Answer.TheVariants as answers;
ghost use Rattle.desk_reply.specs.Answers.{slot_json, planned_json, answer_json};
ghost use Rattle.desk_reply.specs.Values.{whole, json_list, json_object};
ghost use Rattle.desk_reply.specs.Writing.{Adds};

use crate::member::Value::{Number, Text};
use crate::member::{Member, write_object};
use crate::record::write_record;
use crate::shown::{Shown, put_list};
use crate::word::{action_word, level_word};
use json::Writer;
use room_command::{Answer, Planned, SlotLine};
use std::alloc::AllocError;

impl Shown for SlotLine {
    ghost json = { slot_json };

    fn write(&self, out: &mut Writer) -> Result<(), AllocError> {
        write_object(
            out,
            &[
                Member("cart", Number(u64::from(self.cart.0))),
                Member("drive", Number(u64::from(self.drive))),
                Member("slot", Number(u64::from(self.slot))),
                Member("volid", Number(self.volid.0)),
            ],
        )
    }
}

impl Shown for Planned {
    ghost json = { planned_json };

    fn write(&self, out: &mut Writer) -> Result<(), AllocError> {
        write_object(
            out,
            &[
                Member("action", Text(action_word(self.action))),
                Member("base", Number(self.base.0)),
                Member("client", Text(self.client.as_str())),
                Member("set", Text(self.set.as_str())),
            ],
        )
    }
}

pub(crate) fn write_answer(out: &mut Writer, answer: &Answer) -> Result<(), AllocError>
    ensures { Adds result out.old out.new (json_tokens (answer_json answer.now)) }
{
    match answer {
        Answer::Defined { count } => {
            write_object(out, &[Member("defined", Number(u64::from(*count)))])
        }
        Answer::Empty => write_object(out, &[]),
        Answer::Labelled { cart, volid } => write_object(
            out,
            &[
                Member("cart", Number(u64::from(cart.0))),
                Member("volid", Number(volid.0)),
            ],
        ),
        Answer::Mounted { drive, volid } => write_object(
            out,
            &[
                Member("drive", Number(u64::from(*drive))),
                Member("volid", Number(volid.0)),
            ],
        ),
        Answer::Slots(lines) => write_items(out, "slots", lines.as_slice()),
        Answer::Plan(plan) => write_items(out, "plan", plan.as_slice()),
        Answer::Begun {
            base,
            level,
            next,
            pool,
            saved,
            ssid,
        } => write_object(
            out,
            &[
                Member("base", Number(base.0)),
                Member("level", Text(level_word(*level))),
                Member("next", Number(*next)),
                Member("pool", Text(pool.as_str())),
                Member("saved", Number(saved.0)),
                Member("ssid", Number(ssid.0)),
            ],
        ),
        Answer::Next { next } => write_object(out, &[Member("next", Number(*next))]),
        Answer::Finished { bytes, files, ssid } => write_object(
            out,
            &[
                Member("bytes", Number(*bytes)),
                Member("files", Number(u64::from(*files))),
                Member("ssid", Number(ssid.0)),
            ],
        ),
        Answer::Purged(ssids) => write_items(out, "purged", ssids.as_slice()),
        Answer::Shown(row) => write_record(out, row),
    }
}

// The object of one list.
fn write_items<T: Shown>(out: &mut Writer, key: &str, list: &[T]) -> Result<(), AllocError>
    ensures { Adds result out.old out.new
        (json_tokens (json_object ((key.now, json_list T.json list.now) ∷ []))) }
{
    out.begin_object()?;
    put_list(out, key, list)?;
    out.end_object()
}
