// What a table answers, as text.
use apps::{TableApp, TableRun};
use outside::{Bytes, MemSpill, MemSpills, Spills};
use spill_buffer::OverflowBuffer;
use std::alloc::{AllocError, Global};
use wsgi::{App, AppRun, Environ, Step};

fn add_step(text: &mut Vec<u8>, step: &Step) -> Result<(), AllocError> {
    match step {
        Step::Start { status, fields, .. } => {
            text.extend_from_slice(status.as_slice())?;
            for field in fields.as_slice() {
                text.push(b'|')?;
                text.extend_from_slice(field.name.as_slice())?;
                text.extend_from_slice(b": ")?;
                text.extend_from_slice(field.value.as_slice())?;
            }
        }
        Step::Piece(bytes) => {
            text.extend_from_slice(b"|piece ")?;
            text.extend_from_slice(bytes.as_slice())?;
        }
        Step::Whole(bytes) => {
            text.extend_from_slice(b"|whole ")?;
            text.extend_from_slice(bytes.as_slice())?;
        }
        Step::Fail => text.extend_from_slice(b"|fail")?,
    }
    Ok(())
}

fn next(alloc: Global, run: &mut TableRun<MemSpill>) -> Result<Option<Step>, AllocError> {
    run.next(alloc).map_err(|_| AllocError)
}

// The steps, of which there are at most five here.
fn add_steps(
    alloc: Global,
    text: &mut Vec<u8>,
    run: &mut TableRun<MemSpill>,
) -> Result<(), AllocError> {
    for _ in 0..6 {
        match next(alloc, run)? {
            Some(step) => add_step(text, &step)?,
            None => return Ok(()),
        }
    }
    text.extend_from_slice(b"|more")
}

fn environ(alloc: Global, method: &str, path: &str) -> Result<Environ, AllocError> {
    let mut pairs = Vec::new(alloc);
    for (name, value) in [("REQUEST_METHOD", method), ("PATH_INFO", path)] {
        let name = Bytes::from_slice(alloc, name.as_bytes())?;
        pairs.push((name, Bytes::from_slice(alloc, value.as_bytes())?))?;
    }
    Environ::of(alloc, pairs.as_slice())
}

fn open(
    alloc: Global,
    table: &TableApp,
    method: &str,
    path: &str,
) -> Result<TableRun<MemSpill>, AllocError> {
    let spill = MemSpills::new(alloc, Vec::new(alloc)).make();
    let body = OverflowBuffer::new(alloc, spill, 1);
    let environ = environ(alloc, method, path)?;
    table.open(alloc, environ, body).map_err(|_| AllocError)
}

// What the table of a file answers.
pub(crate) fn answer(
    alloc: Global,
    file: &[u8],
    method: &str,
    path: &str,
) -> Result<Vec<u8>, AllocError> {
    let mut text = Vec::new(alloc);
    match TableApp::read(alloc, file) {
        Ok(table) => add_steps(alloc, &mut text, &mut open(alloc, &table, method, path)?)?,
        Err(_) => text.extend_from_slice(b"no table")?,
    }
    Ok(text)
}
