// What is given of files, and where that fails.
use crate::asking::{asked, open, request, tree_of};
use crate::shown::next;
use std::alloc::{AllocError, Global};
use std::test::Fail;
use wsgi::{AppRun, Step};

// A file of so many letters, in which the piece at another place is another one.
fn file(alloc: Global, size: usize) -> Result<String, AllocError> {
    let mut text = String::from_str(alloc, "site/big=")?;
    let mut letters = 'a'..='z';
    for _ in 0..size {
        let letter = match letters.next() {
            Some(letter) => letter,
            None => {
                letters = 'b'..='z';
                'a'
            }
        };
        text.push(letter)?;
    }
    Ok(text)
}

// The method, the target, the number of the call that fails, and the answer. The call 0 looks at
// the size, and the others read: a file that became shorter fails there.
static ROWS: &str = "\
    GET > /big > - > 200 OK|Content-Type: application/octet-stream|Content-Length: 70000|piece 32768|piece 32768|piece 4464|faults 0\n\
    GET > /big > 0 > |outside|faults 1\n\
    GET > /big > 1 > 200 OK|Content-Type: application/octet-stream|Content-Length: 70000|outside|faults 1\n\
    GET > /big > 2 > 200 OK|Content-Type: application/octet-stream|Content-Length: 70000|piece 32768|outside|faults 1\n\
    GET > /big > 3 > 200 OK|Content-Type: application/octet-stream|Content-Length: 70000|piece 32768|piece 32768|outside|faults 1\n\
    HEAD > /big > - > 200 OK|Content-Type: application/octet-stream|Content-Length: 70000|faults 0\n\
    HEAD > /big > 0 > |outside|faults 1\n\
    HEAD > /big > 1 > 200 OK|Content-Type: application/octet-stream|Content-Length: 70000|faults 0\n\
    HEAD > /x > - > 404 Not Found|Content-Type: text/plain; charset=utf-8|Content-Length: 9|whole Not Found|faults 0\n\
    HEAD > /../big > - > 404 Not Found|Content-Type: text/plain; charset=utf-8|Content-Length: 9|whole Not Found|no entry\n\
    POST > /big > 0 > 405 Method Not Allowed|Allow: GET, HEAD|Content-Type: text/plain; charset=utf-8|Content-Length: 18|whole Method Not Allowed|no entry\n\
    DELETE > /../big > - > 405 Method Not Allowed|Allow: GET, HEAD|Content-Type: text/plain; charset=utf-8|Content-Length: 18|whole Method Not Allowed|no entry\n\
    OPTIONS > * > - > 405 Method Not Allowed|Allow: GET, HEAD|Content-Type: text/plain; charset=utf-8|Content-Length: 18|whole Method Not Allowed|no entry\n\
    ";

// The sizes of the pieces, and whether they are those of the content and the spill came back.
fn sizes(alloc: Global, size: usize) -> Result<Vec<u8>, AllocError> {
    let file = file(alloc, size)?;
    let tree = tree_of(alloc, file.as_str(), None)?;
    let mut run = open(alloc, &tree, request(alloc, "GET", "/big")?)?;
    let mut got = Vec::from_slice(alloc, b"site/big=")?;
    let mut text = Vec::new(alloc);
    for _ in 0..6 {
        if let Ok(Some(Step::Piece(piece))) = next(alloc, &mut run) {
            got.extend_from_slice(piece.as_slice())?;
            text.extend_from_slice(format!(in alloc; "{} ", piece.len())?.as_bytes())?;
        }
    }
    if got.as_slice() == file.as_bytes() && run.into_spill().content().is_empty() {
        text.extend_from_slice(b"whole")?;
    }
    Ok(text)
}

#[test]
fn pieces_of_files(rt: HostRuntime) -> Result<(), Fail> {
    let alloc = rt.alloc();
    for (size, want) in [
        (0, "whole"),
        (1, "1 whole"),
        (32_767, "32767 whole"),
        (32_768, "32768 whole"),
        (32_769, "32768 1 whole"),
        (65_536, "32768 32768 whole"),
        (70_000, "32768 32768 4464 whole"),
    ] {
        let text = sizes(alloc, size)?;
        assert_eq!(rt; text.as_slice(), want.as_bytes());
    }
    Ok(())
}

fn row_answer(alloc: Global, file: &str, row: &str) -> Result<bool, AllocError> {
    let (method, rest) = row.split_once(" > ").ok_or(AllocError)?;
    let (target, rest) = rest.split_once(" > ").ok_or(AllocError)?;
    let (fails, want) = rest.split_once(" > ").ok_or(AllocError)?;
    let tree = tree_of(alloc, file, fails.parse::<u64>().ok())?;
    let text = asked(alloc, &tree, method, target)?;
    Ok(text.as_slice() == want.as_bytes())
}

#[test]
fn faults_of_files(rt: HostRuntime) -> Result<(), Fail> {
    let alloc = rt.alloc();
    let file = file(alloc, 70_000)?;
    for row in ROWS.lines() {
        assert!(rt; row_answer(alloc, file.as_str(), row)?, "{row}");
    }
    Ok(())
}
