ghost use Rattle.std.specs.Prelude.{◌≡◌, ◌<◌, IfSome, IsTrue, length, slice_index_or};

use crate::folder::Folder;

/// A file of a folder that is open.
#[derive(Drop)]
pub struct Opened<F: Folder> {
    pub file: u32,
    pub handle: F::File,
    /// Whether it was opened for writing too.
    pub writes: bool,
    ghost numbered: { IsTrue F.tells → F.number handle ≡ file },
}

/// The index of the open file with this number.
pub fn position<F: Folder>(opened: &[Opened<F>], file: u32) -> Option<usize>
    ensures { IfSome result (λ index. (index < length opened.now)
        × ((other : _) → (slice_index_or opened.now index other).file ≡ file)) }
{
    for (index, one) in opened.iter().enumerate() {
        if one.file == file {
            return Some(index);
        }
    }
    None
}
