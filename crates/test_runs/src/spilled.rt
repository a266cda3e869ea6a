// What stands in spills is sent, unless one of them fails.
use crate::case::{Case, SERVED, check};
use crate::disk::File;
use crate::texts::{EIGHTEEN, FIVE};
use outside::End;
use std::test::Fail;

// The spill of the answers is made when the connection comes, and that of a body behind it.
const ANSWERS: usize = 0;

const BODY: usize = 1;

// A body of five bytes of which less than four may stand in memory.
const POSTED: Case<'static> = Case {
    words: "--threads=0|--inbuf-overflow=4|echo",
    input: Some(b"POST / HTTP/1.1\r\nHost: a\r\nContent-Length: 5\r\n\r\nhello"),
    sent: FIVE,
    ..SERVED
};

// The head has 135 bytes. With the first piece as many stand in memory as may, with the second one
// all stand in the spill, and the third one has to wait until bytes were taken.
const STREAMED: Case<'static> = Case {
    words: "--threads=0|--outbuf-high-watermark=141|--outbuf-overflow=142|table|t.toml",
    input: Some(b"GET / HTTP/1.1\r\nHost: a\r\n\r\n"),
    files: &[File {
        name: b"t.toml",
        content: b"[[row]]\npath = \"/\"\nlength = 18\n\
            pieces = [\"abcdef\", \"ghijkl\", \"mnopqr\"]\n",
        fails: None,
    }],
    takes: 0,
    sent: EIGHTEEN,
    ..SERVED
};

#[test]
fn spilled_bytes_are_sent(rt: HostRuntime) -> Result<(), Fail> {
    check(&rt, &POSTED)?;
    check(&rt, &STREAMED)
}

#[test]
fn a_failed_spill_ends_its_connection(rt: HostRuntime) -> Result<(), Fail> {
    let rows = [(POSTED, BODY), (STREAMED, ANSWERS)];
    for (served, spill) in &rows {
        let row = Case {
            broken_spill: Some(*spill),
            spill_faults: 1,
            end: End::SpillFault,
            sent: b"",
            ..*served
        };
        check(&rt, &row)?;
    }
    Ok(())
}
