// What the rows of a table answer, and what is reported of a file that is none.
use crate::case::{ALONE, Case, SERVED, check};
use crate::disk::File;
use crate::texts::{ABC, ABC_TWICE, BROKEN, FAILED, HELLO_HEAD, HELLO_TWICE, MISSING, SHORT};
use outside::End;
use std::alloc::{AllocError, Global};
use std::process::Abort;
use std::sync::Wait;
use std::test::Fail;
use std::thread::Threads;

// The file of a table.
const FILE: File<'static> = File {
    name: b"t.toml",
    content: b"",
    fails: None,
};

const GET: &[u8] = b"GET / HTTP/1.1\r\nHost: a\r\n\r\n";

const GET_TWICE: &[u8] = b"GET / HTTP/1.1\r\nHost: a\r\n\r\nGET / HTTP/1.1\r\nHost: a\r\n\r\n";

const HEAD: &[u8] = b"HEAD /h HTTP/1.1\r\nHost: a\r\n\r\n";

// One connection is served by a table.
const TABLE: Case<'static> = Case {
    words: "--threads=0|table|t.toml",
    input: Some(GET),
    ..SERVED
};

// What stands in the file, what is asked, and what is answered.
const ROWS: [(&[u8], &[u8], &[u8]); 9] = [
    // It is cut at its length, and the next request is answered too.
    (
        b"[[row]]\npath = \"/\"\npieces = [\"abcd\"]\nlength = 3\n",
        GET_TWICE,
        ABC_TWICE,
    ),
    // It is shorter than its length, and nothing is answered behind it.
    (
        b"[[row]]\npath = \"/\"\npieces = [\"abc\"]\nlength = 5\n",
        GET_TWICE,
        SHORT,
    ),
    // It fails before its head is written, and behind that.
    (b"[[row]]\npath = \"/\"\nfail = true\n", GET_TWICE, FAILED),
    (
        b"[[row]]\npath = \"/\"\npieces = [\"abc\"]\nfail = true\n",
        GET_TWICE,
        BROKEN,
    ),
    // HEAD has the head of GET.
    (
        b"[[row]]\npath = \"/h\"\npieces = [\"hello\"]\nwhole = true\n",
        HEAD,
        HELLO_HEAD,
    ),
    (
        b"[[row]]\npath = \"/h\"\npieces = [\"hello\"]\nwhole = true\n",
        b"HEAD /h HTTP/1.1\r\nHost: a\r\n\r\nGET /h HTTP/1.1\r\nHost: a\r\n\r\n",
        HELLO_TWICE,
    ),
    // A table without rows answers nothing else.
    (b"", GET, MISSING),
    (
        b"# nothing\r\n",
        b"POST /t.toml HTTP/1.1\r\nHost: a\r\nContent-Length: 3\r\n\r\nabc",
        MISSING,
    ),
    // A status that no answer has fails when it is served.
    (
        b"[[row]]\npath = \"/\"\nstatus = \"100 Continue\"\npieces = [\"abc\"]\n",
        GET,
        FAILED,
    ),
];

fn check_row<R: Threads + Wait + Abort + AllocGlobal + Sync>(
    rt: &R,
    content: &[u8],
    case: &Case<'_>,
) -> Result<(), Fail> {
    let files = [File { content, ..FILE }];
    check(
        rt,
        &Case {
            files: &files,
            ..*case
        },
    )
}

#[test]
fn rows_are_answered(rt: HostRuntime) -> Result<(), Fail> {
    for (content, input, sent) in ROWS {
        let row = Case {
            input: Some(input),
            sent,
            ..TABLE
        };
        check_row(&rt, content, &row)?;
    }
    Ok(())
}

// The other end doesn't close.
const OPEN: [(&[u8], &[u8], End, &[u8]); 3] = [
    (
        b"[[row]]\npath = \"/h\"\npieces = [\"hello\"]\nwhole = true\n",
        HEAD,
        End::ShutDown,
        HELLO_HEAD,
    ),
    (
        b"[[row]]\npath = \"/\"\npieces = [\"abcd\"]\nlength = 3\n",
        GET,
        End::ShutDown,
        ABC,
    ),
    (
        b"[[row]]\npath = \"/\"\npieces = [\"abc\"]\nlength = 5\n",
        GET,
        End::Done,
        SHORT,
    ),
];

#[test]
fn an_answer_closes_or_not(rt: HostRuntime) -> Result<(), Fail> {
    for (content, input, end, sent) in OPEN {
        let row = Case {
            input: Some(input),
            ends: false,
            stop_at: Some(40),
            end,
            sent,
            ..TABLE
        };
        check_row(&rt, content, &row)?;
    }
    Ok(())
}

// What stands in the file, which call on it fails, how often it then failed, and the reason.
const FAULTS: [(&[u8], Option<u64>, u64, &str); 9] = [
    (
        b"[[row]]\npath = \"/\"\n",
        Some(0),
        1,
        "the file could not be read",
    ),
    (
        b"[[row]]\npath = \"/\"\n",
        Some(1),
        1,
        "the file could not be read",
    ),
    (b"[[row]\npath = \"/\"\n", None, 0, "the file is not TOML"),
    (b"\xFF", None, 0, "the file is not TOML"),
    (
        b"[[rows]]\npath = \"/\"\n",
        None,
        0,
        "the file is not a table",
    ),
    (b"[[row]]\npth = \"/\"\n", None, 0, "row 1 is bad"),
    (
        b"[[row]]\npath = \"/\"\nwhole = true\npieces = [\"a\", \"b\"]\n",
        None,
        0,
        "row 1 is bad",
    ),
    (
        b"[[row]]\npath = \"/\"\nlength = -1\n",
        None,
        0,
        "row 1 is bad",
    ),
    (
        b"[[row]]\npath = \"/\"\n[[row]]\npath = \"a\"\n[[row]]\n",
        None,
        0,
        "row 2 is bad",
    ),
];

// The application can't be made: nothing is bound, printed or served, and the reason is reported.
fn check_fault<R: Threads + Wait + Abort + AllocGlobal + Sync>(
    rt: &R,
    file: File<'_>,
    tree_faults: u64,
    reason: &str,
) -> Result<(), Fail> {
    let alloc = rt.alloc();
    let err = format!(in alloc; "waitress-serve: the application could not be made: {reason}\n")?;
    let files = [file];
    let refused = Case {
        words: "--threads=0|table|t.toml",
        files: &files,
        tree_faults,
        bind_fails: true,
        out_fails: true,
        input: Some(GET),
        status: 2,
        out: b"",
        err: err.as_bytes(),
        ..ALONE
    };
    check(rt, &refused)?;
    check(
        rt,
        &Case {
            err_fails: true,
            status: 6,
            err: b"",
            ..refused
        },
    )
}

#[test]
fn faults_of_tables_are_reported(rt: HostRuntime) -> Result<(), Fail> {
    for (content, fails, tree_faults, reason) in FAULTS {
        let file = File {
            content,
            fails,
            ..FILE
        };
        check_fault(&rt, file, tree_faults, reason)?;
    }
    Ok(())
}

fn rows_of(alloc: Global, count: usize) -> Result<Vec<u8>, AllocError> {
    let mut text = Vec::new(alloc);
    for _ in 0..count {
        text.extend_from_slice(b"[[row]]\npath = \"/a\"\n")?;
    }
    Ok(text)
}

#[test]
fn rows_are_counted(rt: HostRuntime) -> Result<(), Fail> {
    let alloc = rt.alloc();
    let most = rows_of(alloc, 1000)?;
    check_row(
        &rt,
        &most,
        &Case {
            sent: MISSING,
            ..TABLE
        },
    )?;
    let more = rows_of(alloc, 1001)?;
    let file = File {
        content: &more,
        ..FILE
    };
    check_fault(&rt, file, 0, "too many rows")
}

#[test]
fn bytes_are_counted(rt: HostRuntime) -> Result<(), Fail> {
    let alloc = rt.alloc();
    let longest = vec![in alloc; b'\n'; 1_048_576]?;
    check_row(
        &rt,
        &longest,
        &Case {
            sent: MISSING,
            ..TABLE
        },
    )?;
    // A file that is too large isn't read, so its read doesn't fail.
    let longer = vec![in alloc; b'\n'; 1_048_577]?;
    let file = File {
        content: &longer,
        fails: Some(1),
        ..FILE
    };
    check_fault(&rt, file, 0, "the file is too large")
}
