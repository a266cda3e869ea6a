//! Where a byte stands first, and what stands on each side of it.
ghost use Rattle.std.specs.Prelude.{◌≡◌, ◌≤◌, ◌<◌, ◌==◌, length, position, IfSome};
ghost use Rattle.head_grammar.specs.Targets as spec;

/// The place of the first of these bytes.
pub(crate) fn place_of(bytes: &[u8], sought: u8) -> Option<usize>
    ensures first { result ≡ position (λ b. b == sought) bytes.now }
    ensures within { IfSome result (λ at. at < length bytes.now) }
{
    bytes.iter().position(|byte| *byte == sought)
}

/// The same, or the end of the bytes where none stands there.
pub(crate) fn place_or_end(bytes: &[u8], sought: u8) -> usize
    ensures place { result ≡ spec.place_or_end sought bytes.now }
    ensures within { result ≤ length bytes.now }
{
    place_of(bytes, sought).unwrap_or(bytes.len())
}

/// What stands before the first of these bytes, and what behind it.
pub(crate) fn cut_at(bytes: &[u8], sought: u8) -> (&[u8], &[u8])
    ensures before { result.0.now ≡ spec.before sought bytes.now }
    ensures behind { result.1.now ≡ spec.behind sought bytes.now }
{
    let at = place_or_end(bytes, sought);
    let (before, rest) = bytes.split_at(at);
    match rest.split_first() {
        Some((_, behind)) => (before, behind),
        None => (before, &[]),
    }
}
