//! Field lines and what they say of the body: the rest of a head, and its verdict.
use crate::shown::check;
use std::rt::HostRuntime;

#[test]
fn field_lines(rt: HostRuntime) {
    check(
        &rt,
        rt.alloc(),
        "GET / HTTP/1.1\r\n",
        &[
            ("A:b", "1.1 Empty GET / to /?|a=b"),
            ("A:", "1.1 Empty GET / to /?|a="),
            ("A: \t ", "1.1 Empty GET / to /?|a="),
            ("A:\t b c \t", "1.1 Empty GET / to /?|a=b c"),
            ("A: b:c", "1.1 Empty GET / to /?|a=b:c"),
            ("A: \u{80}", "1.1 Empty GET / to /?|a=\u{80}"),
            (
                "Accept: a\r\nX: c\r\nACCEPT: b",
                "1.1 Empty GET / to /?|accept=a, b|x=c",
            ),
            ("A: 1\r\nA:\r\na: 2", "1.1 Empty GET / to /?|a=1, , 2"),
            ("A: b\r\n  c", "1.1 Empty GET / to /?|a=b c"),
            ("A: b\r\n\tc\r\n \t d", "1.1 Empty GET / to /?|a=b c d"),
            ("A:\r\n b\r\n ", "1.1 Empty GET / to /?|a=b"),
            ("X_Trace: 7", "1.1 Empty GET / to /?"),
            ("A_B: 1\r\n 2\r\nA-B: 3", "1.1 Empty GET / to /?|a-b=3"),
            ("Content_Length: 5", "1.1 Empty GET / to /?"),
            ("Host : a", "FieldLine 1.1"),
            ("A", "FieldLine 1.1"),
            (": b", "FieldLine 1.1"),
            (" A: b", "FieldLine 1.1"),
            ("\tA: b\r\nC: d", "FieldLine 1.1"),
            ("A b: c", "FieldLine 1.1"),
            ("A\r\n : b", "FieldLine 1.1"),
            ("A\u{80}: b", "FieldLine 1.1"),
            ("\"A\": b", "FieldLine 1.1"),
            ("A_B : b", "FieldLine 1.1"),
            ("A: b\r\n\n", "FieldLine 1.1"),
            ("B\r\nA: \0", "FieldLine 1.1"),
            ("A: \0\r\nB", "FieldValue 1.1"),
            ("A_B: \0", "FieldValue 1.1"),
            ("A: \u{7F}", "FieldValue 1.1"),
            ("A: b\nC: d", "FieldValue 1.1"),
            ("A: b\rC: d", "FieldValue 1.1"),
            ("A: b\r\n c\0", "FieldValue 1.1"),
        ],
    );
}

#[test]
fn bodies(rt: HostRuntime) {
    check(
        &rt,
        rt.alloc(),
        "POST / HTTP/1.1\r\n",
        &[
            (
                "Content-Length: 007",
                "1.1 Fixed(7) POST / to /?|content-length=007",
            ),
            (
                "Content-Length: 0",
                "1.1 Empty POST / to /?|content-length=0",
            ),
            (
                "Content-Length: 999",
                "1.1 Fixed(999) POST / to /?|content-length=999",
            ),
            ("Content-Length: 1000", "BodyTooLarge(1000) 1.1"),
            (
                "Content-Length: 18446744073709551616",
                "BodyTooLarge(1000) 1.1",
            ),
            (
                "Content-Length: 99999999999999999999999",
                "BodyTooLarge(1000) 1.1",
            ),
            (
                "Content-Length: 0000000000000000000000005",
                "1.1 Fixed(5) POST / to /?|content-length=0000000000000000000000005",
            ),
            ("Content-Length: 5, 5", "Length 1.1"),
            ("Content-Length: 5\r\nContent-Length: 5", "Length 1.1"),
            ("Content-Length: +5", "Length 1.1"),
            ("Content-Length: -0", "Length 1.1"),
            ("Content-Length: 0x5", "Length 1.1"),
            ("Content-Length: 99999999999999999999999x", "Length 1.1"),
            ("Content-Length:", "Length 1.1"),
            (
                "Transfer-Encoding: CHUNKED",
                "1.1 Chunked POST / to /?|transfer-encoding=CHUNKED",
            ),
            (
                "Content-Length: x\r\nTransfer-Encoding: chunked",
                "1.1 Chunked closes POST / to /?|content-length=x|transfer-encoding=chunked",
            ),
            ("Transfer-Encoding: gzip, chunked", "CodingUnknown 1.1"),
            (
                "Transfer-Encoding: chunked\r\nTransfer-Encoding: chunked",
                "CodingUnknown 1.1",
            ),
            (
                "Transfer-Encoding:\r\nContent-Length: x",
                "CodingUnknown 1.1",
            ),
            (
                "Expect: 100-Continue\r\nContent-Length: 1",
                "1.1 Fixed(1) expects POST / to /?|expect=100-Continue|content-length=1",
            ),
            (
                "Expect: 100-continue\r\nTransfer-Encoding: chunked",
                "1.1 Chunked expects POST / to /?|expect=100-continue|transfer-encoding=chunked",
            ),
            (
                "Expect: 100-continue",
                "1.1 Empty POST / to /?|expect=100-continue",
            ),
            (
                "Expect: 100-continue, x\r\nContent-Length: 1",
                "1.1 Fixed(1) POST / to /?|expect=100-continue, x|content-length=1",
            ),
            (
                "Connection: Close",
                "1.1 Empty closes POST / to /?|connection=Close",
            ),
            (
                "Connection: keep-alive,\tclose",
                "1.1 Empty closes POST / to /?|connection=keep-alive,\tclose",
            ),
            (
                "Connection: closed, close;x",
                "1.1 Empty POST / to /?|connection=closed, close;x",
            ),
        ],
    );
}

#[test]
fn bodies_of_old_requests(rt: HostRuntime) {
    check(
        &rt,
        rt.alloc(),
        "HEAD / HTTP/1.0\r\n",
        &[
            (
                "Content-Length: 5",
                "1.0 Fixed(5) closes HEAD / to /?|content-length=5",
            ),
            ("Content-Length: x", "Length 1.0 bodyless"),
            (
                "Content-Length: x\r\nTransfer-Encoding: chunked",
                "CodingOnOld 1.0 bodyless",
            ),
            (
                "Expect: 100-continue\r\nContent-Length: 1",
                "1.0 Fixed(1) closes HEAD / to /?|expect=100-continue|content-length=1",
            ),
            (
                "Connection: Keep-Alive",
                "1.0 Empty HEAD / to /?|connection=Keep-Alive",
            ),
            (
                "Connection: x,keep-alive",
                "1.0 Empty HEAD / to /?|connection=x,keep-alive",
            ),
            (
                "Connection: keep-alive\r\nConnection: close",
                "1.0 Empty closes HEAD / to /?|connection=keep-alive, close",
            ),
            ("Connection:", "1.0 Empty closes HEAD / to /?|connection="),
        ],
    );
}
