ghost use Rattle.std.specs.Prelude.{◌≡◌, IfOk};

use room_base::{CopyNo, Items, Memory, Volid};
use std::alloc::Global;

/// A run of a save set's stream in one file of a volume.
#[derive(Clone, Copy)]
pub struct Section {
    pub volid: Volid,
    /// The block of the file's mark.
    pub mark: u64,
    /// The least and the greatest data block that hold bytes of the run.
    pub first: u64,
    pub last: u64,
    /// The offsets in the stream of the run's first byte and of the one behind its last.
    pub from: u64,
    pub to: u64,
}

#[derive(Clone, Copy)]
pub enum CopyState {
    /// Its bytes are being written, or were not all written.
    Begun,
    /// It is whole.
    Done,
}

/// A copy of a save set, with the sections that it lies in once it is done.
#[derive(Drop)]
pub struct SetCopy {
    pub no: CopyNo,
    pub state: CopyState,
    pub sections: Items<Section>,
}

impl SetCopy {
    pub fn copy(&self) -> Result<SetCopy, Memory>
        ensures { IfOk result (λ copy. copy ≡ self.now) }
    {
        let sections = Vec::from_slice(self.sections.allocator(), self.sections.as_slice())?;
        Ok(SetCopy {
            no: self.no,
            state: self.state,
            sections: Items::of(sections),
        })
    }
}

// A copy of each, in their order.
pub(crate) fn copies_of(alloc: Global, list: &[SetCopy]) -> Result<Vec<SetCopy>, Memory>
    ensures { IfOk result (λ copies. copies.items ≡ list.now) }
{
    let mut copies = Vec::with_capacity(alloc, list.len())?;
    for one in list {
        copies.push(one.copy()?)?;
    }
    Ok(copies)
}
