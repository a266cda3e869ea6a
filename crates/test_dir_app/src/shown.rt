// What a response gives, as text.
use dir_app::DirRun;
use outside::{MemSpill, TreeEntry};
use std::alloc::{AllocError, Global};
use wsgi::{AppRun, RunFault, Step};

fn add_number(alloc: Global, text: &mut Vec<u8>, number: usize) -> Result<(), AllocError> {
    text.extend_from_slice(format!(in alloc; "{number}")?.as_bytes())
}

// A short piece is shown with its bytes, and another one with their number.
fn add_step(alloc: Global, text: &mut Vec<u8>, step: &Step) -> Result<(), AllocError> {
    match step {
        Step::Start { status, fields, .. } => {
            text.extend_from_slice(status.as_slice())?;
            for field in fields.as_slice() {
                text.push(b'|')?;
                text.extend_from_slice(field.name.as_slice())?;
                text.extend_from_slice(b": ")?;
                text.extend_from_slice(field.value.as_slice())?;
            }
        }
        Step::Piece(bytes) => {
            text.extend_from_slice(b"|piece ")?;
            if bytes.len() < 64 {
                text.extend_from_slice(bytes.as_slice())?;
            } else {
                add_number(alloc, text, bytes.len())?;
            }
        }
        Step::Whole(bytes) => {
            text.extend_from_slice(b"|whole ")?;
            text.extend_from_slice(bytes.as_slice())?;
        }
        Step::Fail => text.extend_from_slice(b"|fail")?,
    }
    Ok(())
}

// What is said of a call isn't asked for here.
pub(crate) fn next<E: TreeEntry + Drop>(
    alloc: Global,
    run: &mut DirRun<E, MemSpill>,
) -> Result<Option<Step>, RunFault> {
    run.next(alloc)
}

// Adds the next steps, of which there are at most five here, up to the end or a fault.
pub(crate) fn add_steps<E: TreeEntry + Drop>(
    alloc: Global,
    text: &mut Vec<u8>,
    run: &mut DirRun<E, MemSpill>,
) -> Result<(), AllocError> {
    for _ in 0..6 {
        match next(alloc, run) {
            Ok(Some(step)) => add_step(alloc, text, &step)?,
            Ok(None) => return Ok(()),
            Err(RunFault::Outside) => return text.extend_from_slice(b"|outside"),
            Err(_) => return Err(AllocError),
        }
    }
    text.extend_from_slice(b"|more")
}
