//! Lines with what continues them.
ghost use Rattle.std.specs.Prelude.{◌≡◌, ◌∷◌, ◌≤◌, length, IfOk};
ghost use Rattle.head_grammar.specs.FieldLines as spec;
ghost use Rattle.head_grammar.specs.WholeLines.{bytes_of};

use crate::classes::trim_front;
use crate::lines::Lines;
use std::alloc::{AllocError, Global};

/// A line as it was sent, or joined with those that continue it.
#[derive(Drop)]
pub(crate) enum WholeLine<'a> {
    Sent(&'a [u8]),
    Joined(Vec<u8>),
}

impl<'a> WholeLine<'a> {
    pub(crate) fn as_slice(&self) -> &[u8]
        ensures { result.now ≡ bytes_of self.now }
    {
        match self {
            WholeLine::Sent(line) => line,
            WholeLine::Joined(line) => line.as_slice(),
        }
    }
}

// The line with those that continue it, each behind one SP.
fn joined(alloc: Global, line: &[u8], lines: &mut Lines<'_>) -> Result<Vec<u8>, AllocError>
    ensures whole { IfOk result (λ whole. spec.onto_lines (spec.first_continues lines.old) line.now
        (spec.unfolded lines.old) ≡ whole.items ∷ spec.unfolded lines.new) }
    ensures shorter { length lines.new ≤ length lines.old }
{
    let mut whole = Vec::from_slice(alloc, line)?;
    while let Some(next) = lines.next_continued() {
        whole.push(b' ')?;
        whole.extend_from_slice(trim_front(next))?;
    }
    Ok(whole)
}

/// The line with those that continue it, which are taken off.
pub(crate) fn whole_line<'a>(
    alloc: Global,
    line: &'a [u8],
    lines: &mut Lines<'a>,
) -> Result<WholeLine<'a>, AllocError>
    ensures said { IfOk result (λ whole. spec.field_lines (spec.unfolded (line.now ∷ lines.old))
        ≡ spec.onto_fields (spec.field_line (bytes_of whole))
        (spec.field_lines (spec.unfolded lines.new))) }
    ensures shorter { length lines.new ≤ length lines.old }
{
    if lines.next_continues() {
        return Ok(WholeLine::Joined(joined(alloc, line, lines)?));
    }
    Ok(WholeLine::Sent(line))
}
