//! How a response tells where its body ends.
ghost use Rattle.std.specs.Fmt.{digit_glyph, digits};
ghost use Rattle.std.specs.Prelude.{◌≡◌, ◌++◌, ◌-◌, ◌<◌, ◌||◌, [], OnOk, IfOk, length, take, true};
ghost use Rattle.task_core.specs.Answer as spec;
ghost use Rattle.task_core.specs.Sending as sending;

use crate::task::Request;
use head_grammar::Version;
use std::alloc::AllocError;

/// How a response tells where its body ends (RFC 9112, section 6.3).
#[derive(Clone, Copy, Debug)]
pub(crate) enum Layout {
    /// Status 204.
    NoContent,
    /// Status 304, and the length that it declares.
    NotModified(Option<u64>),
    /// The response to HEAD, and the length where it is known.
    HeadOnly(Option<u64>),
    /// By its length. While the body is sent: by how much of it is left.
    Known(u64),
    Chunked,
    /// By the end of the connection.
    UntilClose,
}

impl Layout {
    /// The layout of a response, by the length that its Start declares and the one that is told
    /// otherwise.
    pub(crate) fn new(
        request: &Request,
        status: &[u8],
        declared: Option<u64>,
        told: Option<u64>,
    ) -> Layout
        ensures { result ≡ spec.layout_by request.now status.now declared told }
    {
        let known = declared.or(told);
        if status.starts_with(b"204") {
            Layout::NoContent
        } else if status.starts_with(b"304") {
            Layout::NotModified(declared)
        } else if request.is_head {
            Layout::HeadOnly(known)
        } else {
            match (known, request.version) {
                (Some(size), _) => Layout::Known(size),
                (None, Version::New) => Layout::Chunked,
                (None, Version::Old) => Layout::UntilClose,
            }
        }
    }

    /// Frames the bytes of a piece: what stands before them goes to the end of the head. The answer
    /// is the layout of what follows.
    pub(crate) fn pass(self, head: &mut Vec<u8>, bytes: &mut Vec<u8>) -> Result<Layout, AllocError>
        ensures sent { OnOk result (head.new.items ++ bytes.new.items ≡ head.old.items ++
            sending.passed self bytes.old.items) }
        ensures left { IfOk result (λ layout. layout ≡ sending.left_behind self bytes.old.items) }
    {
        match self {
            Layout::NoContent => bytes.clear(),
            Layout::NotModified(_) => bytes.clear(),
            Layout::HeadOnly(_) => bytes.clear(),
            Layout::Known(left) => return Ok(pass_known(left, bytes)),
            Layout::Chunked => pass_chunk(head, bytes)?,
            Layout::UntilClose => {}
        }
        Ok(self)
    }

    /// What stands behind the last piece.
    pub(crate) fn ending(self) -> &'static [u8]
        ensures { result.now ≡ sending.ending self }
    {
        match self {
            Layout::Chunked => b"0\r\n\r\n",
            _ => b"",
        }
    }

    /// Whether the length of the body isn't known before its end.
    pub(crate) fn is_unknown(self) -> bool
        ensures { result ≡ spec.is_unknown self }
    {
        matches!(self, Layout::Chunked | Layout::UntilClose)
    }

    /// Whether the connection closes behind a body that ends here.
    pub(crate) fn closes(self, request: &Request) -> bool
        ensures { result ≡ (request.now.closes || spec.layout_closes self []) }
    {
        request.closes || self.is_unfinished()
    }

    fn is_unfinished(self) -> bool
        ensures { result ≡ spec.layout_closes self [] }
    {
        match self {
            Layout::Known(left) => left > 0,
            Layout::Chunked | Layout::UntilClose => true,
            _ => false,
        }
    }
}

// The first bytes, as many as are left.
fn pass_known(left: u64, bytes: &mut Vec<u8>) -> Layout
    ensures sent { bytes.new.items ≡ take left bytes.old.items }
    ensures left { result ≡ Layout.Known (left - length bytes.old.items) }
{
    let size = bytes.len() as u64;
    if left < size {
        bytes.truncate(left as usize);
    }
    Layout::Known(left.saturating_sub(size))
}

fn glyph(digit: u8) -> u8
    requires { digit < 16 }
    ensures { result ≡ digit_glyph true digit }
{
    if digit < 10 {
        b'0' + digit
    } else {
        b'A' + (digit - 10)
    }
}

// A number in upper-case hexadecimal digits, without zeros in front.
fn push_hex(text: &mut Vec<u8>, number: usize) -> Result<(), AllocError>
    ensures { OnOk result (text.new.items ≡ text.old.items ++ digits 16 true number) }
{
    if number >= 16 {
        push_hex(text, number / 16)?;
    }
    text.push(glyph((number % 16) as u8))?;
    Ok(())
}

// A chunk, where there are bytes: the last chunk alone has none.
fn pass_chunk(head: &mut Vec<u8>, bytes: &mut Vec<u8>) -> Result<(), AllocError>
    ensures { OnOk result (head.new.items ++ bytes.new.items ≡ head.old.items ++ sending.passed
        Layout.Chunked bytes.old.items) }
{
    if bytes.is_empty() {
        return Ok(());
    }
    push_hex(head, bytes.len())?;
    head.extend_from_slice(b"\r\n")?;
    bytes.extend_from_slice(b"\r\n")
}
