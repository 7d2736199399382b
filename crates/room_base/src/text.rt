//! What bytes are the text of a name or of a path.

ghost use Rattle.std.specs.Prelude.{◌≡◌, ◌↔◌, All, IsTrue, MatchOption};
ghost use Rattle.room_base.specs.Text.{IsName, IsPathText, IsPrintable};

/// The longest path, in bytes.
pub const MAX_PATH: usize = 1024;

/// The bytes as the text of a name, where they are UTF-8 without control characters. Their number
/// is not judged.
pub fn name_text(bytes: &[u8]) -> Option<&str>
    ensures { MatchOption result (¬ IsName bytes.now)
        (λ text. (text.now ≡ bytes.now) × IsName bytes.now) }
{
    match str::from_utf8(bytes) {
        Ok(text) if is_free_of_control(bytes) => Some(text),
        _ => None,
    }
}

/// The bytes as the text of a path, where they are UTF-8 and begin with `/`. Their number is not
/// judged.
pub fn path_text(bytes: &[u8]) -> Option<&str>
    ensures { MatchOption result (¬ IsPathText bytes.now)
        (λ text. (text.now ≡ bytes.now) × IsPathText bytes.now) }
{
    let Ok(text) = str::from_utf8(bytes) else {
        return None;
    };
    match bytes {
        [b'/', ..] => Some(text),
        _ => None,
    }
}

// No byte is a control character of ASCII.
fn is_free_of_control(bytes: &[u8]) -> bool
    ensures { IsTrue result ↔ All IsPrintable bytes.now }
{
    bytes.iter().all(|byte| *byte >= 0x20 && *byte != 0x7F)
}
