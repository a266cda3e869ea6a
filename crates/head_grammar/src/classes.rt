//! White space, and what texts are made of.
ghost use Rattle.std.specs.Prelude.{◌≡◌, ◌≤◌, IfSome, length, not, position};
ghost use Rattle.std.specs.List.{list_all};
ghost use Rattle.byte_tables.specs.Classes.{is_field, is_token, is_white_space};
ghost use Rattle.head_grammar.specs.Classes.{trimmed, without_space_behind, without_space_in_front};

use byte_tables::is_white_space;

fn place_of_other(bytes: &[u8]) -> Option<usize>
    ensures place { result ≡ position (λ b. not (is_white_space b)) bytes.now }
    ensures within { IfSome result (λ at. at ≤ length bytes.now) }
{
    bytes.iter().position(|byte| !is_white_space(*byte))
}

/// The bytes without the white space in front.
pub(crate) fn trim_front(bytes: &[u8]) -> &[u8]
    ensures { result.now ≡ without_space_in_front bytes.now }
{
    let count = place_of_other(bytes).unwrap_or(bytes.len());
    &bytes[count..]
}

fn trim_behind(bytes: &[u8]) -> &[u8]
    ensures { result.now ≡ without_space_behind bytes.now }
{
    let mut end = bytes.len();
    while end > 0 && is_white_space(bytes[end - 1]) {
        end -= 1;
    }
    &bytes[..end]
}

/// The bytes without the white space at both ends.
pub fn trim(bytes: &[u8]) -> &[u8]
    ensures value { result.now ≡ trimmed bytes.now }
{
    trim_behind(trim_front(bytes))
}

pub(crate) fn are_token_bytes(bytes: &[u8]) -> bool
    ensures { result ≡ list_all is_token bytes.now }
{
    bytes.iter().all(|byte| byte_tables::is_token(*byte))
}

/// Whether a value or a reason can have all these bytes (RFC 9110, section 5.5).
pub fn are_field_bytes(bytes: &[u8]) -> bool
    ensures bytes { result ≡ list_all is_field bytes.now }
{
    bytes.iter().all(|byte| byte_tables::is_field(*byte))
}
