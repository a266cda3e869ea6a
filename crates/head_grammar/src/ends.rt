//! Where a request head ends.
ghost use Rattle.std.specs.Prelude.{◌≡◌, ◌<◌, ◌≤◌, length, take, None, Some, IfSome};
ghost use Rattle.head_grammar.specs.Ends.{head_end};

use memchr::memmem;

/// The length of the first head of `bytes`, with the empty line that ends it (RFC 9112,
/// section 2.1). The search begins at `from`, where it stopped before.
pub fn head_end(bytes: &[u8], from: usize) -> Option<usize>
    requires within { from ≤ length bytes.now }
    requires none { head_end (take from bytes.now) ≡ None }
    ensures value { result ≡ head_end bytes.now }
    ensures behind { IfSome result (λ n. from < n) }
    ensures within { IfSome result (λ n. n ≤ length bytes.now) }
    ensures cut { IfSome result (λ n. head_end (take n bytes.now) ≡ Some n) }
{
    let start = from.saturating_sub(3);
    let at = memmem::find(&bytes[start..], b"\r\n\r\n")?;
    Some(start + at + 4)
}
