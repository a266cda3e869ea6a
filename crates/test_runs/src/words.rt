// What the words of a command line ask for.
use crate::case::{ALONE, Case, SERVED, check};
use crate::texts::{
    ANSWER, BAD_CHUNK, BAD_SCHEME, HELP, KEPT, LONG_BODY, LONG_HEAD, NAMED, OPTIONS,
};
use outside::End;
use std::test::Fail;

#[test]
fn a_run_ends_with_its_status(rt: HostRuntime) -> Result<(), Fail> {
    let rows = [
        ALONE,
        Case {
            bind_fails: true,
            status: 3,
            out: b"",
            err: b"waitress-serve: bind failed\n",
            ..ALONE
        },
        Case {
            bind_fails: true,
            err_fails: true,
            status: 6,
            out: b"",
            ..ALONE
        },
        Case {
            poll_fails: Some(0),
            status: 4,
            err: b"waitress-serve: poll failed\n",
            ..ALONE
        },
        Case {
            poll_fails: Some(0),
            err_fails: true,
            status: 6,
            ..ALONE
        },
        // Nothing is served behind a poll or an accept that fails.
        Case {
            poll_fails: Some(0),
            status: 4,
            retired: 0,
            sent: b"",
            err: b"waitress-serve: poll failed\n",
            ..SERVED
        },
        Case {
            accept_fails: Some(0),
            status: 4,
            retired: 0,
            sent: b"",
            err: b"waitress-serve: poll failed\n",
            ..SERVED
        },
        // What is open is shut down.
        Case {
            poll_fails: Some(1),
            status: 4,
            end: End::ShutDown,
            sent: b"",
            err: b"waitress-serve: poll failed\n",
            ..SERVED
        },
        // Nothing is served where the line can't be printed.
        Case {
            out_fails: true,
            status: 6,
            retired: 0,
            sent: b"",
            out: b"",
            ..SERVED
        },
    ];
    for row in &rows {
        check(&rt, row)?;
    }
    Ok(())
}

// Neither served nor printed: the words, the status and what is reported.
const REFUSED: [(&str, u8, &[u8]); 10] = [
    ("ecco", 1, b"waitress-serve: unknown application\n"),
    ("", 1, b"waitress-serve: unknown application\n"),
    ("echo|x", 1, b"waitress-serve: wrong number of operands\n"),
    (
        "--ports=1|echo",
        1,
        b"waitress-serve: the words could not be read\n",
    ),
    (
        "--port=70000|echo",
        1,
        b"waitress-serve: --port must be from 1 to 65535\n",
    ),
    (
        "--listen=a:81|--port=82|echo",
        1,
        b"waitress-serve: --listen is given both ways\n",
    ),
    // The port stands before the threads.
    (
        "--threads=65|--port=x|echo",
        1,
        b"waitress-serve: --port needs a whole number\n",
    ),
    (
        "--trusted-proxy-count=2|echo",
        1,
        b"waitress-serve: --trusted-proxy-count needs --trusted-proxy\n",
    ),
    (
        "table|t.toml",
        2,
        b"waitress-serve: the application could not be made: no such file\n",
    ),
    (
        "--rehearse=1",
        2,
        b"waitress-serve: the application could not be made: not built\n",
    ),
];

#[test]
fn words_are_refused(rt: HostRuntime) -> Result<(), Fail> {
    for (words, status, err) in REFUSED {
        let refused = Case {
            words,
            status,
            out: b"",
            err,
            ..ALONE
        };
        check(&rt, &refused)?;
        check(
            &rt,
            &Case {
                err_fails: true,
                status: 6,
                err: b"",
                ..refused
            },
        )?;
    }
    Ok(())
}

#[test]
fn words_are_printed(rt: HostRuntime) -> Result<(), Fail> {
    let rows: [(&str, &[u8]); 6] = [
        ("--check|--listen=a:81|--trusted-proxy=*", OPTIONS),
        ("--help", HELP),
        ("--check|--port=x|--help", HELP),
        (
            "--listen=[::1]:81 b:82|echo",
            b"Serving on http://[::1]:81\nServing on http://b:82\n",
        ),
        ("--host=*|--port=81|echo", b"Serving on http://0.0.0.0:81\n"),
        ("--host|[::1]|echo", b"Serving on http://[::1]:8080\n"),
    ];
    for (words, out) in rows {
        check(
            &rt,
            &Case {
                words,
                out,
                ..ALONE
            },
        )?;
        check(
            &rt,
            &Case {
                words,
                out_fails: true,
                status: 6,
                out: b"",
                ..ALONE
            },
        )?;
    }
    Ok(())
}

#[test]
fn a_head_has_its_limit(rt: HostRuntime) -> Result<(), Fail> {
    let rows: [(&[u8], &[u8]); 2] = [
        (
            b"GET / HTTP/1.0\r\nX: aaaaaaaaaaaaaaaaaaaaaaaaaaaaaaaaaaaaaaaa\r\n\r\n",
            ANSWER,
        ),
        (
            b"GET / HTTP/1.0\r\nX: aaaaaaaaaaaaaaaaaaaaaaaaaaaaaaaaaaaaaaaaa\r\n\r\n",
            LONG_HEAD,
        ),
    ];
    for (input, sent) in rows {
        for cut in 1..=input.len() as u32 {
            check(
                &rt,
                &Case {
                    words: "--max-request-header-size=64|echo",
                    input: Some(input),
                    cut,
                    sent,
                    ..SERVED
                },
            )?;
        }
    }
    Ok(())
}

#[test]
fn options_have_their_effect(rt: HostRuntime) -> Result<(), Fail> {
    let rows = [
        // The seventeenth digit of a chunk's size is refused.
        Case {
            input: Some(
                b"POST / HTTP/1.1\r\nHost: a\r\nTransfer-Encoding: chunked\r\n\r\nFFFFFFFFFFFFFFFFF",
            ),
            sent: BAD_CHUNK,
            ..SERVED
        },
        // Sixteen are not, and the body's hundredth byte is.
        Case {
            words: "--max-request-body-size=100|echo",
            input: Some(
                b"POST / HTTP/1.1\r\nHost: a\r\nTransfer-Encoding: chunked\r\n\r\nFFFFFFFFFFFFFFFF\r\n\
                aaaaaaaaaaaaaaaaaaaaaaaaaaaaaaaaaaaaaaaaaaaaaaaaaaaaaaaaaaaaaaaaaaaaaaaaaaaaaaaaaa",
            ),
            sent: LONG_BODY,
            ..SERVED
        },
        Case {
            words: "--max-request-body-size=100|echo",
            input: Some(
                b"POST / HTTP/1.1\r\nHost: a\r\nTransfer-Encoding: chunked\r\n\r\nFFFFFFFFFFFFFFFF\r\n\
                aaaaaaaaaaaaaaaaaaaaaaaaaaaaaaaaaaaaaaaaaaaaaaaaaaaaaaaaaaaaaaaaaaaaaaaaaaaaaaaaa",
            ),
            sent: b"",
            ..SERVED
        },
        // A trusted proxy's header is malformed, and nobody else's.
        Case {
            words: "--trusted-proxy=127.0.0.1|--trusted-proxy-headers=x-forwarded-for,x-forwarded-proto|echo",
            from: b"127.0.0.1",
            input: Some(b"GET / HTTP/1.1\r\nHost: a\r\nX-Forwarded-Proto: ftp\r\n\r\n"),
            sent: BAD_SCHEME,
            ..SERVED
        },
        Case {
            words: "--trusted-proxy=127.0.0.1|--trusted-proxy-headers=x-forwarded-for,x-forwarded-proto|echo",
            input: Some(b"GET / HTTP/1.1\r\nHost: a\r\nX-Forwarded-Proto: ftp\r\n\r\n"),
            sent: KEPT,
            ..SERVED
        },
        Case {
            words: "--ident=a server|echo",
            input: Some(b"GET / HTTP/1.1\r\nHost: a\r\n\r\n"),
            sent: NAMED,
            ..SERVED
        },
    ];
    for row in &rows {
        check(&rt, row)?;
    }
    Ok(())
}
