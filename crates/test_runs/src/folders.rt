// What the files below a folder answer, and whom their faults end.
use crate::case::{Case, SERVED, SUNDAY, check};
use crate::crowd::{Crowd, Guest, ONE, TWO, check_crowd};
use crate::disk::File;
use crate::texts::{BAD_TARGET, LONG_PAGE_HEAD, MISSING, NOT_ALLOWED, PAGE, PAGE_HEAD};
use outside::End;
use std::alloc::{AllocError, Global};
use std::test::Fail;

// One connection is served by a folder.
const FOLDER: Case<'static> = Case {
    words: "--threads=0|dir|site",
    ..SERVED
};

// Two are.
const FOLDERS: Crowd<'static> = Crowd {
    words: "--threads=0|dir|site",
    ..TWO
};

// A name that no request may reach has a file, too.
const SECRET: File<'static> = File {
    name: b"x",
    content: b"secret",
    fails: None,
};

const FILES: [File<'static>; 4] = [
    SECRET,
    File {
        name: b"site/../x",
        ..SECRET
    },
    File {
        name: b"site/a/index.html",
        content: b"hello",
        fails: None,
    },
    File {
        name: b"site/\xFF",
        ..SECRET
    },
];

// What is asked, and what is answered.
const ROWS: [(&[u8], &[u8]); 9] = [
    (b"GET /%2e%2e/x HTTP/1.1\r\nHost: a\r\n\r\n", MISSING),
    (b"GET /../x HTTP/1.1\r\nHost: a\r\n\r\n", MISSING),
    (b"GET /a/ HTTP/1.1\r\nHost: a\r\n\r\n", PAGE),
    (b"HEAD /a/ HTTP/1.1\r\nHost: a\r\n\r\n", PAGE_HEAD),
    // A folder is no file.
    (b"GET /a HTTP/1.1\r\nHost: a\r\n\r\n", MISSING),
    (b"GET /b/ HTTP/1.1\r\nHost: a\r\n\r\n", MISSING),
    (
        b"POST /a/ HTTP/1.1\r\nHost: a\r\nContent-Length: 0\r\n\r\n",
        NOT_ALLOWED,
    ),
    (b"GET /%FF HTTP/1.1\r\nHost: a\r\n\r\n", MISSING),
    (b"GET /\xFF HTTP/1.1\r\nHost: a\r\n\r\n", BAD_TARGET),
];

#[test]
fn requests_on_folders_are_answered(rt: HostRuntime) -> Result<(), Fail> {
    for (input, sent) in ROWS {
        let row = Case {
            files: &FILES,
            input: Some(input),
            sent,
            ..FOLDER
        };
        check(&rt, &row)?;
    }
    Ok(())
}

const BROWSER: &[u8] = b"GET / HTTP/1.1\r\n\
    Host: localhost:8080\r\n\
    User-Agent: Mozilla/5.0\r\n\
    Accept: text/html\r\n\
    Accept-Language: en\r\n\
    Accept-Encoding: gzip, deflate, br\r\n\
    Connection: keep-alive\r\n\
    Cookie: a=1; b=2\r\n\
    Cache-Control: max-age=0\r\n\
    Upgrade-Insecure-Requests: 1\r\n\
    Sec-Fetch-Mode: navigate\r\n\
    X_Trace: 7\r\n\
    DNT: 1\r\n\r\n";

// A page that isn't the same at another place.
fn long_page(alloc: Global) -> Result<Vec<u8>, AllocError> {
    let mut page = Vec::new(alloc);
    for number in 0..10_000 {
        page.extend_from_slice(format!(in alloc; "{number:>7}")?.as_bytes())?;
    }
    Ok(page)
}

// A text and the front of another, so many bytes of it.
fn with_front(
    alloc: Global,
    text: &[u8],
    other: &[u8],
    count: usize,
) -> Result<Vec<u8>, AllocError> {
    let mut whole = Vec::from_slice(alloc, text)?;
    if let Some(front) = other.get(..count) {
        whole.extend_from_slice(front)?;
    }
    Ok(whole)
}

// A browser asks for a page, and stays.
const BROWSED: Case<'static> = Case {
    late: 121,
    input: Some(BROWSER),
    ends: false,
    end: End::TimedOut {
        touched: SUNDAY,
        now: SUNDAY + 121,
    },
    ..FOLDER
};

// The second piece of a page can't be read: its head and its first piece are sent.
const CUT: Case<'static> = Case {
    tree_faults: 1,
    input: Some(BROWSER),
    takes: 65_536,
    end: End::AppFault,
    ..FOLDER
};

#[test]
fn a_browser_gets_a_page(rt: HostRuntime) -> Result<(), Fail> {
    let page = long_page(rt.alloc())?;
    for (case, fails, count) in [(BROWSED, None, 70_000), (CUT, Some(2), 32_768)] {
        let sent = with_front(rt.alloc(), LONG_PAGE_HEAD, &page, count)?;
        let files = [File {
            name: b"site/index.html",
            content: &page,
            fails,
        }];
        check(
            &rt,
            &Case {
                files: &files,
                sent: &sent,
                ..case
            },
        )?;
    }
    Ok(())
}

const GET_A: &[u8] = b"GET /a HTTP/1.1\r\nHost: a\r\n\r\n";

const GET_B: &[u8] = b"GET /b.html HTTP/1.1\r\nHost: a\r\n\r\n";

const B: File<'static> = File {
    name: b"site/b.html",
    content: b"hello",
    fails: None,
};

// Each call that looks at it or reads it is the first that fails.
const NO_SIZE: File<'static> = File {
    name: b"site/a",
    content: b"abc",
    fails: Some(0),
};

const SHORTER: File<'static> = File {
    fails: Some(1),
    ..NO_SIZE
};

const IN_A: File<'static> = File {
    name: b"site/a/index.html",
    content: b"abc",
    fails: None,
};

// Its file fails, and nothing of it is sent.
const FAULTY: Guest<'static> = Guest {
    input: &[GET_A],
    end: End::AppFault,
    sent: &[],
    ..ONE
};

const SERVED_B: Guest<'static> = Guest {
    input: &[GET_B, GET_B],
    gives: &[33, 0, 0],
    sent: &[PAGE, PAGE],
    ..ONE
};

const NO_FILE: Guest<'static> = Guest {
    input: &[GET_A],
    sent: &[MISSING],
    ..ONE
};

const FAILING: [Crowd<'static>; 5] = [
    // It can't be looked at, or became shorter.
    Crowd {
        files: &[NO_SIZE, B],
        tree_faults: 1,
        guests: &[FAULTY, SERVED_B],
        ..FOLDERS
    },
    Crowd {
        files: &[SHORTER, B],
        tree_faults: 1,
        guests: &[SERVED_B, FAULTY],
        ..FOLDERS
    },
    Crowd {
        words: "--threads=4|dir|site",
        files: &[SHORTER, B],
        tree_faults: 2,
        guests: &[FAULTY, SERVED_B, FAULTY, SERVED_B],
        ..FOLDERS
    },
    // One connection comes behind the fault of another.
    Crowd {
        words: "--threads=0|--connection-limit=1|dir|site",
        files: &[SHORTER, B],
        tree_faults: 1,
        guests: &[FAULTY, SERVED_B],
        in_order: true,
        ..FOLDERS
    },
    // What was answered before is sent, and what is asked behind it isn't answered.
    Crowd {
        files: &[SHORTER, B],
        tree_faults: 1,
        guests: &[
            Guest {
                input: &[GET_B, GET_A, GET_B],
                gives: &[33, 0, 0],
                sent: &[PAGE],
                ..FAULTY
            },
            SERVED_B,
        ],
        ..FOLDERS
    },
];

const FAULTLESS: [Crowd<'static>; 3] = [
    // HEAD reads nothing, so it meets no fault.
    Crowd {
        files: &[
            File {
                name: b"site/a/index.html",
                content: b"hello",
                ..SHORTER
            },
            B,
        ],
        guests: &[
            Guest {
                input: &[b"HEAD /a/ HTTP/1.1\r\nHost: a\r\n\r\n"],
                sent: &[PAGE_HEAD],
                ..ONE
            },
            SERVED_B,
        ],
        ..FOLDERS
    },
    // There is no file, or a folder.
    Crowd {
        files: &[B],
        guests: &[NO_FILE, SERVED_B],
        ..FOLDERS
    },
    Crowd {
        files: &[IN_A, B],
        guests: &[NO_FILE, SERVED_B],
        ..FOLDERS
    },
];

#[test]
fn one_fault_of_a_file_is_its_own(rt: HostRuntime) -> Result<(), Fail> {
    for crowd in FAILING {
        check_crowd(&rt, &crowd)?;
    }
    for crowd in FAULTLESS {
        check_crowd(&rt, &crowd)?;
    }
    Ok(())
}
