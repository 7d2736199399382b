ghost use Rattle.std.specs.Prelude.{◌≡◌, [], IfOk};
ghost use Rattle.std.specs.Str.{IsUtf8};
ghost use Rattle.room_base.specs.Text.{ReadsText, IsName, HasLength, IsPathText};

use crate::Memory;
use crate::text::{MAX_PATH, name_text, path_text};
use std::alloc::{AllocError, Global};
use std::marker::Model;
use thiserror::Error;

/// Why bytes are no name or no path.
#[derive(Clone, Copy, Debug, PartialEq, Eq, Error)]
pub enum NameFault {
    /// There are no bytes, or too many.
    #[error("a text of this kind has at least one byte and no more than its limit")]
    Length,
    /// The bytes aren't UTF-8, or hold a character that this kind of text doesn't allow.
    #[error("the text isn't UTF-8, or has a character that isn't allowed in it")]
    NotText,
    #[error("out of memory")]
    Memory,
}

impl From<AllocError> for NameFault {
    ghost use Rattle.std.specs.Prelude.{◌≡◌};
    ghost use Rattle.room_base.specs.declared.name.NameFault.TheVariants.{Memory};

    ghost from_gives = { λ _ fault. fault ≡ Memory };

    fn from(_: AllocError) -> NameFault {
        NameFault::Memory
    }
}

/// A text that contracts see as its bytes. It is UTF-8.
#[derive(Drop)]
pub struct Name {
    text: String,
}

impl Model for Name {
    ghost use Rattle.std.specs.Prelude.{List, ℕ, string_bytes};

    ghost Value = { List ℕ };

    ghost view = { λ name. string_bytes name.text };
}

impl Name {
    /// Reads a name: a text without control characters, of 1 to `most` bytes.
    pub fn read(alloc: Global, bytes: &[u8], most: u32) -> Result<Name, NameFault>
        ensures { ReadsText (HasLength most) IsName bytes.now result }
    {
        if bytes.is_empty() || bytes.len() > most as usize {
            return Err(NameFault::Length);
        }
        match name_text(bytes) {
            Some(text) => Ok(Name {
                text: String::from_str(alloc, text)?,
            }),
            None => Err(NameFault::NotText),
        }
    }

    /// Reads a path: a text of 1 to 1,024 bytes that begins with `/`.
    pub fn path(alloc: Global, bytes: &[u8]) -> Result<Name, NameFault>
        ensures { ReadsText (HasLength 1024) IsPathText bytes.now result }
    {
        if bytes.is_empty() || bytes.len() > MAX_PATH {
            return Err(NameFault::Length);
        }
        match path_text(bytes) {
            Some(text) => Ok(Name {
                text: String::from_str(alloc, text)?,
            }),
            None => Err(NameFault::NotText),
        }
    }

    /// A name of this text, whatever it is.
    pub fn from_text(alloc: Global, text: &str) -> Result<Name, Memory>
        ensures { IfOk result (λ name. name ≡ text.now) }
    {
        Ok(Name {
            text: String::from_str(alloc, text)?,
        })
    }

    /// The text without bytes, as of a group that isn't given. Takes no memory.
    pub fn empty(alloc: Global) -> Name
        ensures { result ≡ [] }
    {
        Name {
            text: String::new(alloc),
        }
    }

    pub fn copy(&self) -> Result<Name, Memory>
        ensures { IfOk result (λ copy. copy ≡ self.now) }
    {
        Ok(Name {
            text: self.text.clone()?,
        })
    }

    pub fn as_bytes(&self) -> &[u8]
        ensures value { result.now ≡ self.now }
        ensures text { IsUtf8 self.now }
    {
        self.text.as_str().as_bytes()
    }

    pub fn as_str(&self) -> &str
        ensures { result.now ≡ self.now }
    {
        self.text.as_str()
    }
}

impl PartialEq for Name {
    ghost use Rattle.std.specs.Prelude.{nat_eq};
    ghost use Rattle.std.specs.Cmp.{partial_equiv_from_equiv};
    ghost use Rattle.std.specs.Cmp.Lexicographic.{pointwise, nat_list_eq_equiv};

    ghost eq = { λ one other. pointwise nat_eq one other };

    ghost laws = { partial_equiv_from_equiv nat_list_eq_equiv };

    fn eq(&self, other: &Name) -> bool {
        self.as_str() == other.as_str()
    }
}
