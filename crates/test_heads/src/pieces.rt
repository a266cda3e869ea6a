//! All heads of up to three of some pieces, by the parser and by the plain rules.
use crate::shown::verdicts;
use std::alloc::Global;
use std::process::Abort;
use std::rt::HostRuntime;

// Heads of up to three of these pieces, by the parser and by the plain rules.
fn compare(rt: &impl Abort, alloc: Global, front: &str, pieces: &[&str], end: &str) {
    for first in pieces {
        for second in pieces {
            for third in pieces {
                let texts = verdicts(alloc, &[front, first, second, third, end]);
                assert!(rt; texts.is_ok(), "{first:?} {second:?} {third:?}");
                if let Ok((text, plain)) = texts {
                    assert_eq!(rt;
                        text.as_slice(),
                        plain.as_slice(),
                        "{first:?} {second:?} {third:?}"
                    );
                }
            }
        }
    }
}

#[test]
fn heads_of_pieces(rt: HostRuntime) {
    compare(
        &rt,
        rt.alloc(),
        "",
        &[
            "", "\r\n", "GET", "get", " ", "/", "\t", "HTTP/1.1", "HTTP/1.2", "\n", "A: b",
            "\u{80}",
        ],
        " HTTP/1.0",
    );
    compare(
        &rt,
        rt.alloc(),
        "GET ",
        &[
            "", "/", "a", "#", "?", "%", "4", "%41", "%2f", ":", "://", "\0", "+",
        ],
        " HTTP/1.1",
    );
    compare(
        &rt,
        rt.alloc(),
        "HEAD / HTTP/1.1\r\n",
        &[
            "", "A", "a_", ":", " ", "\t", "\r\n", "\r", "\n", "b, ", "\u{7F}", "\u{FF}",
        ],
        ":x",
    );
    compare(
        &rt,
        rt.alloc(),
        "GET / HTTP/1.1\r\n",
        &[
            "",
            "Content-Length: 5\r\n",
            "content-length: 0999\r\n",
            "Content-Length: 1000\r\n",
            "Content_Length: x\r\n",
            "Transfer-Encoding: Chunked\r\n",
            "Transfer-Encoding: gzip\r\n",
            "Expect: 100-continue\r\n",
            "Connection: close\r\n",
            "Connection: x, CLOSE\r\n",
            " , keep-alive\r\n",
        ],
        "A: b",
    );
}
