//! What a session has sent, for proofs alone: it takes no memory, and its calls do nothing when
//! they run.

ghost use Rattle.std.specs.Prelude.{◌≡◌, ℕ, List, [], ◌++◌};
ghost use Rattle.std.specs.Borrow.{ftrue};
ghost use Rattle.save_stream.specs.declared.head.SetHead.{SetHead};

use save_stream::SetHead;
use std::fmt;
use std::marker::Model;

/// The head of a save set, and the bytes that were sent behind it. Clauses read both; the program
/// has neither.
#[derive(Drop)]
pub struct SentText {
    pub ghost head: { SetHead },
    pub ghost bytes: { List ℕ },
}

impl Model for SentText {
    ghost also_owns = { λ _. ftrue };
}

// It owns nothing.
unsafe impl Send for SentText {}

unsafe impl Sync for SentText {}

impl fmt::Debug for SentText {
    fn fmt<W: fmt::Write>(&self, f: &mut fmt::Formatter<W>) -> fmt::Result {
        f.write_str("SentText")
    }
}

/// Bytes of a save set that came together.
#[derive(Clone, Copy)]
pub struct Piece<'a> {
    pub bytes: &'a [u8],
}

impl SentText {
    pub(crate) fn behind(_head: &SetHead) -> SentText
        ensures { result ≡ record { head = _head.now; bytes = [] } }
    {
        SentText {}
    }

    pub(crate) fn with(_before: &SentText, _piece: &Piece<'_>) -> SentText
        ensures { result ≡ record {
          head = _before.now.head;
          bytes = _before.now.bytes ++ _piece.now.bytes.now;
        } }
    {
        SentText {}
    }
}
