//! Laws of replies: each function has an empty body, and its contract is the law.

ghost use Rattle.std.specs.Prelude.{◌≡◌, ◌≢◌, length, codes, IsTrue, Some};
ghost use Rattle.std.specs.List.{AllByRecursion};
ghost use Rattle.json.specs.Find.{get};
ghost use Rattle.json.specs.Json.{string};
ghost use Rattle.room_base.specs.Refusals.{refusal_number, refusal_name, refusal_fields};
ghost use Rattle.room_base.specs.declared.refusal.Refusal.{Refusal as RoomRefusal};
ghost use Rattle.room_command.specs.declared.answer.Answer.{Answer as RoomAnswer};
ghost use Rattle.room_command.specs.declared.reply.Reply.{Reply as RoomReply};
ghost use Rattle.room_command.specs.declared.reply.Reply.TheVariants.{Done, Refused};
ghost use Rattle.desk_reply.specs.Reading.{body_of, said_length, keys_ascend};
ghost use Rattle.desk_reply.specs.Refused.{field_json, refusal_json};
ghost use Rattle.desk_reply.specs.Replies.{IsReadable, body_bytes, reply_bytes, reply_json};
ghost use Rattle.desk_reply.specs.Replies.{reply_status};
ghost use Rattle.desk_reply.specs.Values.{whole};

/// Replies with one text have one status and one value; so they are done or refused alike, and
/// refused with one number.
pub fn one_text_one_value()
    ensures value { (one other : RoomReply) → IsReadable one → IsReadable other
        → reply_bytes one ≡ reply_bytes other
        → (reply_status one ≡ reply_status other) × (reply_json one ≡ reply_json other) }
    ensures done { (answer : RoomAnswer) (refusal : RoomRefusal)
        → reply_bytes (Done answer) ≢ reply_bytes (Refused refusal) }
    ensures number { (one other : RoomRefusal) → IsReadable (Refused one)
        → IsReadable (Refused other) → reply_bytes (Refused one) ≡ reply_bytes (Refused other)
        → refusal_number one ≡ refusal_number other }
{}

/// The body stands behind the first empty line, and has as many bytes as the head says.
pub fn bodies_have_their_length()
    ensures body { (reply : RoomReply) → IsReadable reply
        → body_of (reply_bytes reply) ≡ body_bytes reply }
    ensures length { (reply : RoomReply) → IsReadable reply
        → said_length (reply_bytes reply) ≡ length (body_of (reply_bytes reply)) }
{}

/// The keys of each object of a reply ascend by their bytes.
pub fn keys_ascend_in_replies()
    ensures { (reply : RoomReply) → IsTrue (keys_ascend (reply_json reply)) }
{}

/// A refusal's number, its name and each of its fields are found by their keys.
pub fn refusals_have_their_fields()
    ensures number { (refusal : RoomRefusal)
        → get (codes "no") (refusal_json refusal) ≡ Some (whole (refusal_number refusal)) }
    ensures name { (refusal : RoomRefusal)
        → get (codes "refusal") (refusal_json refusal) ≡ Some (string (refusal_name refusal)) }
    ensures fields { (refusal : RoomRefusal)
        → AllByRecursion (λ field. get field.name (refusal_json refusal)
        ≡ Some (field_json field.value)) (refusal_fields refusal) }
{}
