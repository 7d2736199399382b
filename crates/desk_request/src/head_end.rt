//! Where a head may end: at an empty line behind a line that isn't empty. So a head that comes in
//! small pieces is parsed once, and not at each of them.

ghost use Rattle.std.specs.Prelude.{◌≡◌, ◌≤◌, ◌<◌, length, IsFalse, IsTrue};
ghost use Rattle.desk_request.specs.HeadEnds.{before_return, is_head_end, EndsBy};

#[tactic(auto, unfolding(crate::specs::HeadEnds::before_return))]
// The end without a carriage return before it.
fn before_return(bytes: &[u8], end: usize) -> usize
    requires { end ≤ length bytes.now }
    ensures value { result ≡ before_return bytes.now end }
    ensures within { result ≤ end }
{
    if end > 0 && bytes[end - 1] == b'\r' {
        end - 1
    } else {
        end
    }
}

// The byte there ends an empty line, and the line before that isn't empty.
fn is_head_end(bytes: &[u8], at: usize) -> bool
    requires { at < length bytes.now }
    ensures { result ≡ is_head_end bytes.now at }
{
    if bytes[at] != b'\n' {
        return false;
    }
    let empty = before_return(bytes, at);
    if empty == 0 || bytes[empty - 1] != b'\n' {
        return false;
    }
    let line = before_return(bytes, empty - 1);
    line > 0 && bytes[line - 1] != b'\n' && bytes[line - 1] != b'\r'
}

/// Whether a head at the front of the bytes may end behind the first `from` of them.
pub fn may_end(bytes: &[u8], from: usize) -> bool
    ensures none { IsFalse result → EndsBy from bytes.now }
    ensures some { IsTrue result → from < length bytes.now }
{
    for at in from..bytes.len() {
        if is_head_end(bytes, at) {
            return true;
        }
    }
    false
}
