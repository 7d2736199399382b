//! Lists of what has a value of JSON.

ghost use Rattle.json.specs.Json.{Json};
ghost use Rattle.json.specs.Tree.{json_tokens};
ghost use Rattle.desk_reply.specs.Answers.{ssid_json};
ghost use Rattle.desk_reply.specs.Values.{json_list};
ghost use Rattle.desk_reply.specs.Writing.{Adds, member_tokens};

use json::Writer;
use room_base::Ssid;
use std::alloc::AllocError;

/// What has a value of JSON.
pub(crate) trait Shown {
    ghost json: { Self → Json };

    fn write(&self, out: &mut Writer) -> Result<(), AllocError>
        ensures { Adds result out.old out.new (json_tokens (json self.now)) };
}

pub(crate) fn put_list<T: Shown>(out: &mut Writer, key: &str, list: &[T]) -> Result<(), AllocError>
    ensures { Adds result out.old out.new (member_tokens (key.now, json_list T.json list.now)) }
{
    out.key(key)?;
    write_list(out, list)
}

pub(crate) fn write_list<T: Shown>(out: &mut Writer, list: &[T]) -> Result<(), AllocError>
    ensures { Adds result out.old out.new (json_tokens (json_list T.json list.now)) }
{
    out.begin_array()?;
    for one in list {
        one.write(out)?;
    }
    out.end_array()
}

impl Shown for Ssid {
    ghost json = { ssid_json };

    fn write(&self, out: &mut Writer) -> Result<(), AllocError> {
        out.u64(self.0)
    }
}
