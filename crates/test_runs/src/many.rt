// What many connections are answered.
use crate::case::SUNDAY;
use crate::crowd::{Crowd, Guest, ONE, TWO, check_crowd};
use crate::texts::{
    ALIVE_TWICE, ANSWER, BAD_CHUNK, BAD_LENGTH, BAD_LINE, CLOSED, CONTINUE, FIVE, KEPT, KEPT_LATE,
    LATE, REQUEST, SEVEN,
};
use outside::End;
use std::test::Fail;

const GET: &[u8] = b"GET /a HTTP/1.1\r\nHost: a\r\n\r\n";

const POST: &[u8] = b"POST / HTTP/1.1\r\nHost: a\r\nContent-Length: 5\r\n\r\nhello";

const ASKING: &[u8] =
    b"POST / HTTP/1.1\r\nHost: a\r\nExpect: 100-continue\r\nContent-Length: 5\r\n\r\n";

const TWO_LENGTHS: &[u8] = b"POST / HTTP/1.1\r\nHost: a\r\nContent-Length: 5, 5\r\n\r\nhello";

const TWO_FRAMINGS: &[u8] =
    b"POST / HTTP/1.1\r\nHost: a\r\nContent-Length: 3\r\nTransfer-Encoding: chunked\r\n\r\n\
    5\r\nhello\r\n0\r\n\r\n";

const LONG_SIZE: &[u8] =
    b"POST / HTTP/1.1\r\nHost: a\r\nTransfer-Encoding: chunked\r\n\r\nFFFFFFFFFFFFFFFFF";

const ALIVE: &[u8] = b"GET / HTTP/1.0\r\nConnection: Keep-Alive\r\n\r\n";

// Three requests come in one piece.
const THREE: Guest<'static> = Guest {
    input: &[GET, GET, GET],
    sent: &[KEPT, KEPT, KEPT],
    ..ONE
};

// It takes a byte at a time, and none in between.
const SLOW: Guest<'static> = Guest {
    takes: &[0, 1],
    times: 399,
    ..THREE
};

// It comes, says nothing and stays.
const SILENT: Guest<'static> = Guest {
    input: &[],
    ends: false,
    end: End::TimedOut {
        touched: SUNDAY,
        now: SUNDAY + 16,
    },
    sent: &[],
    ..ONE
};

// Its second send fails.
const FAULTY: Guest<'static> = Guest {
    takes: &[7],
    send_fails: Some(1),
    end: End::LinkFault,
    sent: &[b"HTTP/1."],
    ..ONE
};

const TWENTY: [Guest<'static>; 20] = [
    ONE,
    THREE,
    SLOW,
    // It gives a byte at a time.
    Guest {
        input: &[GET, POST],
        gives: &[1],
        times: 81,
        sent: &[KEPT, FIVE],
        ..ONE
    },
    // Nothing is answered behind a refusal.
    Guest {
        input: &[TWO_LENGTHS, GET],
        sent: &[BAD_LENGTH],
        ..ONE
    },
    // It stays open between its requests.
    Guest {
        input: &[GET, GET],
        gives: &[28, 0, 0, 0, 0, 0],
        times: 2,
        sent: &[KEPT, KEPT],
        ..ONE
    },
    Guest {
        turn: 2,
        input: &[ALIVE, ALIVE],
        sent: &[ALIVE_TWICE],
        ..ONE
    },
    Guest {
        turn: 2,
        input: &[b"HEAD / HTTP/1.1\r\nHost: a\r\n\r\n"],
        sent: &[KEPT],
        ..ONE
    },
    Guest {
        turn: 2,
        input: &[ASKING, b"hello", GET],
        sent: &[CONTINUE, FIVE, KEPT],
        ..ONE
    },
    Guest {
        turn: 2,
        input: &[b"GET / HTTP/1.0\r\nHost : a\r\n\r\n"],
        sent: &[BAD_LINE],
        ..ONE
    },
    // It ends within its second head.
    Guest {
        turn: 2,
        input: &[GET, b"GET / HTTP/1.1\r\nHo"],
        sent: &[KEPT],
        ..ONE
    },
    Guest {
        turn: 2,
        input: &[b"\r\n\r\n", GET],
        sent: &[KEPT],
        ..ONE
    },
    // It only ends.
    Guest {
        turn: 2,
        input: &[],
        sent: &[],
        ..ONE
    },
    Guest {
        turn: 5,
        input: &[TWO_FRAMINGS, GET],
        sent: &[CLOSED],
        ..ONE
    },
    // Nothing is answered behind a request that closes.
    Guest {
        turn: 5,
        input: &[GET, REQUEST, GET],
        sent: &[KEPT, ANSWER],
        ..ONE
    },
    Guest {
        turn: 5,
        input: &[GET, TWO_LENGTHS],
        takes: &[50, 0],
        times: 9,
        sent: &[KEPT, BAD_LENGTH],
        ..ONE
    },
    Guest {
        turn: 5,
        input: &[POST, LONG_SIZE],
        sent: &[FIVE, BAD_CHUNK],
        ..ONE
    },
    Guest {
        turn: 5,
        input: &[b"POST / HTTP/1.1\r\nHost: a\r\nContent-Length: 007\r\n\r\nabcdefg"],
        sent: &[SEVEN],
        ..ONE
    },
    // It doesn't end, and is closed behind its answer.
    Guest {
        turn: 5,
        ends: false,
        ..ONE
    },
    // A bare LF ends no line.
    Guest {
        turn: 5,
        input: &[b"GET / HTTP/1.1\nHost: a\n\n"],
        sent: &[],
        ..ONE
    },
];

#[test]
fn twenty_are_sent_what_they_are_owed(rt: HostRuntime) -> Result<(), Fail> {
    let rows = [
        "--threads=0|echo",
        "--threads=4|echo",
        "--threads=0|--connection-limit=3|echo",
        "--threads=0|--serve-limit=20|echo",
        "--threads=0|--recv-bytes=1|echo",
        "--threads=0|--channel-request-lookahead=2|echo",
        "--threads=0|--outbuf-high-watermark=0|echo",
    ];
    for words in rows {
        let twenty = Crowd {
            words,
            guests: &TWENTY,
            ..TWO
        };
        check_crowd(&rt, &twenty)?;
    }
    Ok(())
}

const PIPELINED: [Guest<'static>; 4] = [
    THREE,
    SLOW,
    Guest {
        gives: &[28],
        times: 3,
        ..THREE
    },
    Guest {
        gives: &[1],
        takes: &[0, 1],
        times: 399,
        ..THREE
    },
];

#[test]
fn lookahead_changes_no_bytes(rt: HostRuntime) -> Result<(), Fail> {
    let rows = [
        "--threads=0|--channel-request-lookahead=0|echo",
        "--threads=0|--channel-request-lookahead=1|echo",
        "--threads=0|--channel-request-lookahead=2|echo",
    ];
    for words in rows {
        let pipelined = Crowd {
            words,
            guests: &PIPELINED,
            ..TWO
        };
        check_crowd(&rt, &pipelined)?;
    }
    Ok(())
}

const FAULTS: [Crowd<'static>; 3] = [
    // No further recv is made before all that came is answered and taken. The second one fails.
    Crowd {
        words: "--threads=0|--channel-request-lookahead=0|echo",
        guests: &[
            Guest {
                recv_fails: Some(1),
                end: End::LinkFault,
                ..SLOW
            },
            Guest {
                gives: &[28],
                recv_fails: Some(1),
                end: End::LinkFault,
                sent: &[KEPT],
                ..THREE
            },
        ],
        ..TWO
    },
    // One fails, and the other is served.
    Crowd {
        guests: &[FAULTY, ONE],
        ..TWO
    },
    Crowd {
        guests: &[SLOW, FAULTY],
        ..TWO
    },
];

#[test]
fn one_fault_is_its_own(rt: HostRuntime) -> Result<(), Fail> {
    for crowd in FAULTS {
        check_crowd(&rt, &crowd)?;
    }
    Ok(())
}

const LIMITED: [Crowd<'static>; 7] = [
    // The second comes behind the first, and those behind two once there is room.
    Crowd {
        words: "--threads=0|--connection-limit=1|echo",
        in_order: true,
        ..TWO
    },
    Crowd {
        words: "--threads=0|--connection-limit=1|echo",
        guests: &[SLOW, ONE],
        in_order: true,
        ..TWO
    },
    Crowd {
        words: "--threads=0|--connection-limit=2|echo",
        guests: &[ONE, ONE, ONE, ONE, ONE],
        ..TWO
    },
    // Those who are served come once two have waited too long.
    Crowd {
        words: "--threads=0|--connection-limit=2|--channel-timeout=10|--cleanup-interval=5|echo",
        later: [0, 0, 0, 0, 0, 8, 8],
        guests: &[
            SILENT,
            SILENT,
            Guest {
                sent: &[LATE],
                ..ONE
            },
            Guest {
                sent: &[LATE],
                ..ONE
            },
            Guest {
                sent: &[LATE],
                ..ONE
            },
        ],
        ..TWO
    },
    // Nobody is asked for once so many were accepted.
    Crowd {
        words: "--threads=0|--serve-limit=1|echo",
        absent: 1,
        asked: Some(1),
        ..TWO
    },
    Crowd {
        words: "--threads=0|--serve-limit=2|echo",
        guests: &[ONE, ONE, ONE],
        absent: 1,
        asked: Some(2),
        ..TWO
    },
    Crowd {
        words: "--threads=0|--serve-limit=2|echo",
        guests: &[ONE, Guest { turn: 9, ..ONE }, Guest { turn: 9, ..ONE }],
        absent: 1,
        ..TWO
    },
];

#[test]
fn limits_are_kept(rt: HostRuntime) -> Result<(), Fail> {
    for crowd in LIMITED {
        check_crowd(&rt, &crowd)?;
    }
    Ok(())
}

const CUT_SHORT: [Crowd<'static>; 3] = [
    // It is silent for more than two minutes.
    Crowd {
        later: [120, 31, 0, 0, 0, 0, 0],
        guests: &[Guest {
            end: End::TimedOut {
                touched: SUNDAY,
                now: SUNDAY + 151,
            },
            ..SILENT
        }],
        ..TWO
    },
    // One is silent, one gives and one takes a byte at a time, one sends two requests of which each
    // is answered with the date of its last byte, and one takes no more.
    Crowd {
        words: "--threads=0|--channel-timeout=10|--cleanup-interval=5|echo",
        later: [0, 0, 0, 0, 0, 8, 8],
        guests: &[
            SILENT,
            Guest {
                gives: &[1],
                times: 27,
                sent: &[LATE],
                ..ONE
            },
            Guest {
                takes: &[1],
                times: 152,
                ..ONE
            },
            Guest {
                input: &[GET, GET],
                gives: &[7],
                times: 8,
                sent: &[KEPT, KEPT_LATE],
                ..ONE
            },
            Guest {
                input: &[REQUEST],
                takes: &[7],
                stuck: 100,
                sent: &[b"HTTP/1."],
                ..SILENT
            },
        ],
        ..TWO
    },
    // What is open is shut down, and who comes later isn't accepted.
    Crowd {
        stop_at: Some(40),
        guests: &[
            ONE,
            Guest {
                end: End::ShutDown,
                ..SILENT
            },
            Guest {
                input: &[GET],
                end: End::ShutDown,
                sent: &[KEPT],
                ..SILENT
            },
            Guest {
                input: &[GET, ASKING],
                end: End::ShutDown,
                sent: &[KEPT, CONTINUE],
                ..SILENT
            },
            Guest {
                input: &[REQUEST],
                takes: &[7],
                stuck: 100,
                end: End::ShutDown,
                sent: &[b"HTTP/1."],
                ..SILENT
            },
            Guest { turn: 50, ..ONE },
        ],
        absent: 1,
        ..TWO
    },
];

#[test]
fn waiting_ends(rt: HostRuntime) -> Result<(), Fail> {
    for crowd in CUT_SHORT {
        check_crowd(&rt, &crowd)?;
    }
    Ok(())
}
