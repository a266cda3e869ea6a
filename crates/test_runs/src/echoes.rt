//! With ample memory the echo application answers all its steps.
use apps::{Echo, EchoRun};
use itoa::Buffer;
use outside::{MemSpill, MemSpills, Spills};
use spill_buffer::OverflowBuffer;
use std::alloc::{AllocError, Global};
use std::test::Fail;
use wsgi::{App, AppRun, Environ, Step};

// The fields of a start, or how many bytes a piece has.
fn shown(alloc: Global, step: &Step) -> Result<Vec<u8>, AllocError> {
    let mut text = Vec::new(alloc);
    match step {
        Step::Start { fields, .. } => {
            for field in fields.as_slice() {
                text.extend_from_slice(field.name.as_slice())?;
                text.push(b'=')?;
                text.extend_from_slice(field.value.as_slice())?;
                text.push(b'|')?;
            }
        }
        Step::Piece(piece) => {
            text.extend_from_slice(Buffer::new().format(piece.len()).as_bytes())?;
        }
        _ => text.extend_from_slice(b"another")?,
    }
    Ok(text)
}

// How many steps were left, and the next one.
fn next(alloc: Global, run: &mut EchoRun<MemSpill>) -> Result<(u64, Option<Step>), AllocError> {
    let left = run.left();
    match run.next(alloc) {
        Ok(step) => Ok((left, step)),
        Err(_) => Err(AllocError),
    }
}

#[test]
fn a_body_comes_back_in_pieces(rt: HostRuntime) -> Result<(), Fail> {
    let alloc = rt.alloc();
    let mut spills = MemSpills::new(alloc, Vec::new(alloc));
    let mut body = OverflowBuffer::new(alloc, spills.make(), 524_288);
    assert!(rt; body.append(&[b'a'; 40_000]).is_ok());
    let Ok(mut run) = Echo.open(alloc, Environ::of(alloc, &[])?, body) else {
        return Err(Fail::from("no memory"));
    };
    let rows = [
        (
            3,
            b"Content-Type=application/octet-stream|Content-Length=40000|".as_slice(),
        ),
        (2, b"32768"),
        (1, b"7232"),
    ];
    for (left, want) in rows {
        let (count, step) = next(alloc, &mut run)?;
        assert_eq!(rt; count, left);
        let Some(step) = step else {
            return Err(Fail::from("no step"));
        };
        assert_eq!(rt; shown(alloc, &step)?.as_slice(), want);
    }
    assert!(rt; matches!(next(alloc, &mut run)?, (0, None)));
    Ok(())
}
