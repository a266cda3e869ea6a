//! The text that tells the sums.
ghost use Rattle.std.specs.Prelude.{◌≡◌, ◌++◌, IfOk, OnOk};
ghost use Rattle.rehearsal.specs.Sums as counted;
ghost use Rattle.rehearsal.specs.Summary as spec;

use crate::sums::sums_of;
use itoa::Buffer;
use outside::{Bytes, MemLink, Retired};
use std::alloc::{AllocError, Global};

fn push_line(text: &mut Vec<u8>, label: &[u8], number: u64) -> Result<(), AllocError>
    ensures { OnOk result (text.new.items ≡ text.old.items ++ spec.line_of label.now number) }
{
    let mut digits = Buffer::new();
    text.extend_from_slice(label)?;
    text.extend_from_slice(digits.format(number).as_bytes())?;
    text.extend_from_slice(b"\n")
}

/// What is told of connections that were retired, a line for each sum.
#[tactic(auto, unfolding(crate::specs::Summary::summary_text))]
pub fn summary(alloc: Global, entries: &[Retired<MemLink>]) -> Result<Bytes, AllocError>
    ensures { IfOk result (λ text.
        text ≡ spec.summary_text (counted.sums_of entries.now)) }
{
    let sums = sums_of(entries);
    let mut text = Vec::new(alloc);
    push_line(&mut text, b"connections ", sums.connections)?;
    push_line(&mut text, b"requests ", sums.requests)?;
    push_line(&mut text, b"bytes in ", sums.bytes_in)?;
    push_line(&mut text, b"bytes out ", sums.bytes_out)?;
    push_line(&mut text, b"sum ", sums.sent_sum)?;
    push_line(&mut text, b"done ", sums.done)?;
    Ok(Bytes::from_vec(text))
}
