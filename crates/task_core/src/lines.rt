//! Status lines, field lines and their names (RFC 9112, sections 4 and 5).
ghost use Rattle.std.specs.Prelude.{◌≡◌, ◌++◌, OnOk};
ghost use Rattle.task_core.specs.ResponseHead as head;
ghost use Rattle.task_core.specs.Errors as spec;

use head_grammar::Version;
use itoa::Buffer;
use std::alloc::AllocError;

pub(crate) fn version_text(version: Version) -> &'static [u8]
    ensures { result.now ≡ head.version_text version }
{
    match version {
        Version::Old => b"HTTP/1.0",
        Version::New => b"HTTP/1.1",
    }
}

/// Writes the status line of a status, which is a code, SP and a reason.
pub(crate) fn push_status_line(
    text: &mut Vec<u8>,
    version: Version,
    status: &[u8],
) -> Result<(), AllocError>
    ensures { OnOk result (text.new.items ≡ text.old.items ++ head.status_line version status.now) }
{
    text.extend_from_slice(version_text(version))?;
    text.extend_from_slice(b" ")?;
    text.extend_from_slice(status)?;
    text.extend_from_slice(b"\r\n")
}

/// Writes a field line.
pub(crate) fn push_field(text: &mut Vec<u8>, name: &[u8], value: &[u8]) -> Result<(), AllocError>
    ensures { OnOk result (text.new.items ≡ text.old.items
        ++ head.field_line (record { name = name.now; value = value.now })) }
{
    text.extend_from_slice(name)?;
    text.extend_from_slice(b": ")?;
    text.extend_from_slice(value)?;
    text.extend_from_slice(b"\r\n")
}

/// Writes the field that tells the length of the body.
pub(crate) fn push_length(text: &mut Vec<u8>, length: usize) -> Result<(), AllocError>
    ensures { OnOk result (text.new.items ≡ text.old.items ++ head.field_line
        (spec.length_field length)) }
{
    push_field(
        text,
        b"Content-Length",
        Buffer::new().format(length).as_bytes(),
    )
}

/// Raises the first byte of each part between hyphens, where it is a letter, and lowers the others.
pub(crate) fn recase(name: &mut [u8])
    ensures { name.new ≡ head.recased name.old }
{
    let mut first = true;
    for byte in name.iter_mut() {
        *byte = if first {
            byte.to_ascii_uppercase()
        } else {
            byte.to_ascii_lowercase()
        };
        first = *byte == b'-';
    }
}
