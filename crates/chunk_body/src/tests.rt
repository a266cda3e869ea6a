//! Bodies that are whole and bodies that are refused, cut at each place.
use crate::{Chunks, Fed};
use byte_tables::Refusal;
use std::alloc::Global;
use std::rt::HostRuntime;

// The last answer to two pieces, how many bytes belong to the body, and its data.
fn fed(
    alloc: Global,
    pieces: (&[u8], &[u8]),
    max_body: u64,
    max_trailer: u64,
) -> (Fed, usize, Vec<u8>) {
    let (first, second) = pieces;
    let mut chunks = Chunks::new(max_body.max(1), max_trailer.max(1));
    let mut room = Vec::new(alloc);
    match chunks.feed(first, &mut room) {
        Fed::More => {}
        Fed::Done(taken) => return (Fed::Done(taken), taken, room),
        other => return (other, 0, room),
    }
    let last = chunks.feed(second, &mut room);
    let taken = match last {
        Fed::Done(taken) => taken.saturating_add(first.len()),
        _ => 0,
    };
    (last, taken, room)
}

// The front, so many letters, and the back.
fn wire_of(alloc: Global, row: (&[u8], usize, &[u8])) -> Option<Vec<u8>> {
    let (front, letters, back) = row;
    let mut wire = Vec::new(alloc);
    wire.extend_from_slice(front).ok()?;
    for _ in 0..letters {
        wire.push(b'a').ok()?;
    }
    wire.extend_from_slice(back).ok()?;
    Some(wire)
}

#[test]
fn whole_bodies_are_read(rt: HostRuntime) {
    let alloc = rt.alloc();
    for (wire, size, data) in [
        (&b"0\r\n\r\n"[..], 5, &b""[..]),
        (b"3\r\nabc\r\n0\r\n\r\n", 13, b"abc"),
        (
            b"A \t;x=\"y\"\r\n0123456789\r\n2;\r\n\r\n\r\n00\r\nT: u\r\n\r\nGET",
            43,
            b"0123456789\r\n",
        ),
        (
            b"1f\r\nabcdefghijklmnopqrstuvwxyz01234\r\n0\r\n\r\n",
            42,
            b"abcdefghijklmnopqrstuvwxyz01234",
        ),
        (b"0000000000000001\r\nz\r\n0\r\n\r\n", 26, b"z"),
        (b"0 ;\x80\t\r\n\r\n", 9, b""),
        (b"0\r\nA\r\n\rB\r\n\r\nmore", 12, b""),
        (b"0\r\n\r\r\n\r\n0\r\n\r\n", 8, b""),
        (b"0\r\n\n\r\n\r\n\r\n", 8, b""),
    ] {
        for at in 0..=wire.len() {
            let (last, taken, room) = fed(alloc, wire.split_at(at), 2000, 1000);
            assert!(rt; matches!(last, Fed::Done(_)), "{at}");
            assert_eq!(rt; taken, size, "{at}");
            assert_eq!(rt; room.as_slice(), data, "{at}");
            if at < size {
                let (last, _, _) = fed(alloc, (b"", &wire[..at]), 2000, 1000);
                assert_eq!(rt; last, Fed::More, "{at}");
            }
        }
    }
}

#[test]
fn last_bytes_are_refused(rt: HostRuntime) {
    let alloc = rt.alloc();
    let digits = b"FFFFFFFFFFFFFFFF\r\n";
    for (row, max_body, max_trailer, refusal) in [
        // first of a line
        ((&b" "[..], 0, &b""[..]), 2000, 1000, Refusal::ChunkSize),
        ((b"-", 0, b""), 2000, 1000, Refusal::ChunkSize),
        ((b";", 0, b""), 2000, 1000, Refusal::ChunkSize),
        ((b"1\r\na\r\ng", 0, b""), 2000, 1000, Refusal::ChunkSize),
        // behind digits
        (
            (b"FFFFFFFFFFFFFFFFF", 0, b""),
            2000,
            1000,
            Refusal::ChunkSize,
        ),
        ((b"0x", 0, b""), 2000, 1000, Refusal::ChunkSize),
        ((b"5\n", 0, b""), 2000, 1000, Refusal::ChunkSize),
        // behind white space
        ((b"1 \r", 0, b""), 2000, 1000, Refusal::ChunkSize),
        ((b"1\t5", 0, b""), 2000, 1000, Refusal::ChunkSize),
        // behind `;`
        ((b"5;a\n", 0, b""), 2000, 1000, Refusal::ChunkExtension),
        ((b"1 ;a\x7F", 0, b""), 2000, 1000, Refusal::ChunkExtension),
        // behind the CR of a line
        ((b"5\rX", 0, b""), 2000, 1000, Refusal::ChunkLineEnd),
        ((b"1;a\r\r", 0, b""), 2000, 1000, Refusal::ChunkLineEnd),
        // the 1,024th byte of a line
        ((b"1;", 1022, b""), 2000, 1000, Refusal::ChunkLineLong),
        ((b"1;", 1021, b"\r"), 2000, 1000, Refusal::ChunkLineLong),
        ((b"1;", 1020, b"\rX"), 2000, 1000, Refusal::ChunkLineEnd),
        ((b"1;", 1021, b"\0"), 2000, 1000, Refusal::ChunkExtension),
        ((b"1;", 1020, b"\r\naX"), 2000, 1000, Refusal::ChunkEnd),
        // behind data
        ((b"3\r\nabcd", 0, b""), 2000, 1000, Refusal::ChunkEnd),
        ((b"1\r\na\n", 0, b""), 2000, 1000, Refusal::ChunkEnd),
        ((b"1\r\na\r\r", 0, b""), 2000, 1000, Refusal::ChunkEnd),
        // the limit of the trailer section
        ((b"0\r\n\r", 0, b""), 2000, 1, Refusal::TrailerTooLarge(1)),
        ((b"0\r\n\r\n", 0, b""), 2000, 2, Refusal::TrailerTooLarge(2)),
        (
            (b"0\r\n", 4, b"\r\n\r\n"),
            2000,
            8,
            Refusal::TrailerTooLarge(8),
        ),
        // the limit of the body, before all else
        ((digits, 82, b""), 100, 1000, Refusal::BodyTooLarge(100)),
        ((b"1;", 1022, b""), 1024, 1000, Refusal::BodyTooLarge(1024)),
        (
            (b"3\r\nabc\r\n0\r\n\r\n", 0, b""),
            13,
            1000,
            Refusal::BodyTooLarge(13),
        ),
        ((b"1\r\na\r\r", 0, b""), 6, 1000, Refusal::BodyTooLarge(6)),
        ((b"0\r\n\r\n", 0, b""), 5, 2, Refusal::BodyTooLarge(5)),
        ((b"x", 0, b""), 1, 1, Refusal::BodyTooLarge(1)),
    ] {
        let wire = wire_of(alloc, row);
        assert!(rt; wire.is_some());
        if let Some(wire) = &wire {
            let wire = wire.as_slice();
            for at in 0..wire.len() {
                let (last, _, _) = fed(alloc, wire.split_at(at), max_body, max_trailer);
                assert_eq!(rt; last, Fed::Bad(refusal), "{at}");
                let (last, _, _) = fed(alloc, (b"", &wire[..at]), max_body, max_trailer);
                assert_eq!(rt; last, Fed::More, "{at}");
            }
        }
    }
}
