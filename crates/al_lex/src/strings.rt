// Strings.
ghost use Rattle.std.specs.Prelude.{◌≡◌, ◌≤◌, IfSome, length};
ghost use Rattle.al_lex.specs.Strings.{body_len};

use crate::bytes::is_printable;

/// The length of a string after its opening quote, with the closing one.
pub(crate) fn body_len(bytes: &[u8]) -> Option<usize>
    ensures exact { result ≡ body_len bytes.now }
    ensures within { IfSome result (λ n. n ≤ length bytes.now) }
{
    let mut i = 0;
    while i < bytes.len() {
        let b = bytes[i];
        if b == b'"' {
            if i + 1 < bytes.len() && bytes[i + 1] == b'"' {
                i += 2;
            } else {
                return Some(i + 1);
            }
        } else if is_printable(b) {
            i += 1;
        } else {
            return None;
        }
    }
    None
}
