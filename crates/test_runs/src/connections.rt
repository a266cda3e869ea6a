// What one connection is answered.
use crate::case::{Case, SERVED, check};
use crate::texts::{
    ALIVE_TWICE, BAD_LENGTH, BAD_LINE, CLOSED, CONTINUE, CONTINUED, KEPT, KEPT_TWICE, SEVEN,
    TWO_REQUESTS, UNDATED,
};
use outside::End;
use std::test::Fail;

const YEAR_10000: u64 = 253_402_300_800;

#[test]
fn a_connection_is_served(rt: HostRuntime) -> Result<(), Fail> {
    let rows = [
        SERVED,
        // The moment is that of the read, and not that of the turn before.
        Case {
            begins_earlier: true,
            ..SERVED
        },
        Case {
            moment: YEAR_10000,
            sent: UNDATED,
            ..SERVED
        },
        Case {
            input: Some(b"HEAD / HTTP/1.0\r\n\r\n"),
            ..SERVED
        },
        // It ends before its head does.
        Case {
            input: Some(b"GET / HTTP/1.0\r\n"),
            sent: b"",
            ..SERVED
        },
        // Its head comes byte by byte.
        Case {
            cuts: 26,
            cut: 1,
            ..SERVED
        },
        // Its second send fails.
        Case {
            takes: 7,
            second_send_fails: true,
            end: End::LinkFault,
            sent: b"HTTP/1.",
            ..SERVED
        },
        // It stays open, and is closed behind its answer.
        Case {
            ends: false,
            stop_at: Some(40),
            ..SERVED
        },
        // It stays open behind an answer that doesn't close, until the net stops.
        Case {
            input: Some(b"GET / HTTP/1.1\r\nHost: a\r\n\r\n"),
            ends: false,
            stop_at: Some(40),
            end: End::ShutDown,
            sent: KEPT,
            ..SERVED
        },
        // It waits for 100 Continue before it sends its body.
        Case {
            input: Some(
                b"POST / HTTP/1.1\r\nHost: a\r\nExpect: 100-continue\r\nContent-Length: 5\r\n\r\n",
            ),
            ends: false,
            stop_at: Some(40),
            end: End::ShutDown,
            sent: CONTINUE,
            ..SERVED
        },
        // It says nothing, and the net stops.
        Case {
            input: Some(b""),
            ends: false,
            stop_at: Some(3),
            end: End::ShutDown,
            sent: b"",
            ..SERVED
        },
    ];
    for row in &rows {
        check(&rt, row)?;
    }
    Ok(())
}

#[test]
fn requests_are_answered_in_order(rt: HostRuntime) -> Result<(), Fail> {
    let rows: [(&[u8], &[u8]); 11] = [
        (TWO_REQUESTS, KEPT_TWICE),
        // A bare LF ends no line.
        (b"GET / HTTP/1.1\nHost: a\n\n", b""),
        // Nothing is answered behind a refusal.
        (
            b"POST / HTTP/1.1\r\nHost: a\r\nContent-Length: 5, 5\r\n\r\nhello\
            GET / HTTP/1.1\r\nHost: a\r\n\r\n",
            BAD_LENGTH,
        ),
        (b"GET / HTTP/1.0\r\nHost : a\r\n\r\n", BAD_LINE),
        (
            b"POST / HTTP/1.1\r\nHost: a\r\nExpect: 100-continue\r\nTransfer-Encoding: chunked\r\n\r\n\
            5\r\nhello\r\n0\r\n\r\n",
            CONTINUED,
        ),
        // Both framing fields close, and the GET behind them is not answered.
        (
            b"POST / HTTP/1.1\r\nHost: a\r\nContent-Length: 3\r\nTransfer-Encoding: chunked\r\n\r\n\
            5\r\nhello\r\n0\r\n\r\nGET / HTTP/1.1\r\nHost: a\r\n\r\n",
            CLOSED,
        ),
        (
            b"GET / HTTP/1.0\r\nConnection: Keep-Alive\r\n\r\n\
            GET / HTTP/1.0\r\nConnection: Keep-Alive\r\n\r\n",
            ALIVE_TWICE,
        ),
        // Blank lines in front are no request.
        (b"\r\n\r\nGET / HTTP/1.1\r\nHost: a\r\n\r\n", KEPT),
        (
            b"POST / HTTP/1.1\r\nHost: a\r\nContent-Length: 007\r\n\r\nabcdefg",
            SEVEN,
        ),
        // It ends within its body.
        (
            b"POST / HTTP/1.1\r\nHost: a\r\nExpect: 100-continue\r\nContent-Length: 7\r\n\r\nabc",
            CONTINUE,
        ),
        (b"HEAD / HTTP/1.1\r\nHost: a\r\n\r\n", KEPT),
    ];
    for (input, sent) in rows {
        check(
            &rt,
            &Case {
                input: Some(input),
                sent,
                ..SERVED
            },
        )?;
    }
    Ok(())
}

#[test]
fn requests_are_cut_anywhere(rt: HostRuntime) -> Result<(), Fail> {
    for cut in 1..TWO_REQUESTS.len() as u32 {
        check(
            &rt,
            &Case {
                input: Some(TWO_REQUESTS),
                cut,
                sent: KEPT_TWICE,
                ..SERVED
            },
        )?;
    }
    Ok(())
}
