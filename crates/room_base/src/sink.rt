ghost use Rattle.std.specs.Prelude.{◌≡◌, ◌≤◌, ◌<◌, length, IfOk};
ghost use Rattle.std.specs.List.{flat_map};
ghost use Rattle.room_base.specs.Faults.{HasCause};
ghost use Rattle.room_base.specs.Outside.{SinkView, Told, Puts, Writes, WritesText};

use crate::Failed;

/// Where bytes go, as standard output or a connection.
pub trait Sink {
    /// What is told of the sink, and its count of faults.
    ghost view: { Self → SinkView };

    /// What a call of `put` may leave of whatever else the object is: an object that is a source
    /// too says here that its bytes taken stay.
    ghost puts_alone: { Self → Self → Type 0 };

    /// Writes the first bytes of the piece and answers how many: at least one of a piece that isn't
    /// empty. After `Failed` none or some first bytes of it may have been written.
    fn put(&mut self, bytes: &[u8]) -> Result<u64, Failed>
        ensures within { IfOk result (λ count. count ≤ length bytes.now) }
        ensures some { 0 < length bytes.now → IfOk result (λ count. 0 < count) }
        ensures cause { HasCause (view self.old).faults (view self.new).faults result }
        ensures tells { (view self.new).tells ≡ (view self.old).tells }
        ensures added { Told (view self.old).tells
            (Puts (view self.old).written (view self.new).written bytes.now result) }
        ensures alone { puts_alone self.old self.new };

    /// Where nothing was put the rest of the object stays.
    ghost puts_none: { (sink : Self) → puts_alone sink sink };

    /// One call behind another leaves no more than one call.
    ghost puts_then: { (before between now : Self) → puts_alone before between
        → puts_alone between now → puts_alone before now };
}

#[tactic(auto, using(crate::proofs::Writing::more_written, crate::proofs::Writing::front_added))]
/// Writes the whole piece. After `Failed` a front of it has been written. Takes no memory.
pub fn write_all<W: Sink>(sink: &mut W, bytes: &[u8]) -> Result<(), Failed>
    ensures cause { HasCause (W.view sink.old).faults (W.view sink.new).faults result }
    ensures tells { (W.view sink.new).tells ≡ (W.view sink.old).tells }
    ensures written { Told (W.view sink.old).tells
        (Writes (W.view sink.old).written (W.view sink.new).written bytes.now result) }
    ensures alone { W.puts_alone sink.old sink.new }
{
    let mut done = 0;
    while done < bytes.len() {
        let (_, rest) = bytes.split_at(done);
        done += sink.put(rest)? as usize;
    }
    Ok(())
}

/// Writes the parts, one behind the other. After `Failed` a front of them has been written. Takes
/// no memory.
pub fn write_parts<W: Sink>(sink: &mut W, parts: &[&[u8]]) -> Result<(), Failed>
    ensures written { WritesText (flat_map (λ part. part.now) parts.now)
        (W.view sink.old) (W.view sink.new) result }
    ensures alone { W.puts_alone sink.old sink.new }
{
    for part in parts {
        write_all(sink, part)?;
    }
    Ok(())
}
