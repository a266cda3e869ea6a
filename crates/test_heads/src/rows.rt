//! Request lines and targets: what stands between the front and the end of a head, and its verdict.
use crate::shown::check;
use std::rt::HostRuntime;

#[test]
fn request_lines(rt: HostRuntime) {
    check(
        &rt,
        rt.alloc(),
        "",
        &[
            ("", "blank"),
            ("\r\n", "blank"),
            ("\r\nGET / HTTP/1.0", "1.0 Empty closes GET / to /?"),
            (
                "GET /a%2Fb?x#y HTTP/1.0",
                "1.0 Empty closes GET /a%2Fb?x#y to /a/b?x",
            ),
            (
                "GET //x%zz HTTP/1.0",
                "1.0 Empty closes GET //x%zz to /x%zz?",
            ),
            (
                "GET http://h HTTP/1.0",
                "1.0 Empty closes GET http://h to /?",
            ),
            (
                "GET http://h/p?q?r HTTP/1.0",
                "1.0 Empty closes GET http://h/p?q?r to /p?q?r",
            ),
            ("GET / HTTP/1.2", "1.0 Empty closes GET / to /?"),
            ("GET / HTTP/2.0", "1.0 Empty closes GET / to /?"),
            ("GET / HTTP/0.9", "1.0 Empty closes GET / to /?"),
            ("GET / HTTP/11", "Version 1.0"),
            ("GET / HTTP/1.10", "Version 1.0"),
            ("GET / HTTP/1.", "Version 1.0"),
            ("GET / HTTP/1.a", "Version 1.0"),
            ("GET / HTTP/1,1", "Version 1.0"),
            ("GET / http/1.1", "Version 1.0"),
            ("GET / HTTP/1.1\n", "Version 1.0"),
            ("GET / HTTP/1.1\r", "Version 1.0"),
            ("HEAD / HTTP/11", "Version 1.0"),
            ("GET / HTTP/1.1\nHost: a\n\n", "RequestLine 1.0"),
            ("GET", "RequestLine 1.0"),
            ("GET /", "RequestLine 1.0"),
            ("GET  HTTP/1.1", "RequestLine 1.0"),
            ("GET  / HTTP/1.1", "RequestLine 1.0"),
            (" / HTTP/1.1", "RequestLine 1.0"),
            ("GET / ", "RequestLine 1.0"),
            (" GET / HTTP/1.1", "RequestLine 1.0"),
            ("GET / HTTP/1.1 ", "RequestLine 1.0"),
            ("GET\t/ HTTP/1.1", "RequestLine 1.0"),
            ("get / HTTP/1.1", "Method 1.0"),
            ("GeT / HTTP/1.1", "Method 1.0"),
            ("G@T / HTTP/1.1", "Method 1.0"),
            ("G\0T / HTTP/1.1", "Method 1.0"),
            ("G\u{80}T / HTTP/1.1", "Method 1.0"),
            ("get \0 http/1.1", "Method 1.0"),
            ("GET \0 http/1.1", "Version 1.0"),
            ("G_T-1! / HTTP/1.1", "1.1 Empty G_T-1! / to /?"),
            ("GET /\0 HTTP/1.1", "Target 1.0"),
            ("GET /\t HTTP/1.1", "Target 1.0"),
            ("GET /\r HTTP/1.1", "Target 1.0"),
            ("GET /\u{7F} HTTP/1.1", "Target 1.0"),
            ("GET /\u{80} HTTP/1.1", "Target 1.0"),
            ("HEAD /\u{80} HTTP/1.1", "Target 1.0"),
            ("HEAD / HTTP/1.1\r\nA", "FieldLine 1.1 bodyless"),
            ("HEAD / HTTP/1.0\r\nA: \0", "FieldValue 1.0 bodyless"),
            ("HEADS / HTTP/1.1\r\nA", "FieldLine 1.1"),
        ],
    );
}

#[test]
fn targets(rt: HostRuntime) {
    check(
        &rt,
        rt.alloc(),
        "GET ",
        &[
            ("* HTTP/1.1", "1.1 Empty GET * to /*?"),
            ("a HTTP/1.1", "1.1 Empty GET a to /a?"),
            ("# HTTP/1.1", "1.1 Empty GET # to /?"),
            ("? HTTP/1.1", "1.1 Empty GET ? to /?"),
            ("/a#b?c HTTP/1.1", "1.1 Empty GET /a#b?c to /a?"),
            ("/a?b#c?d HTTP/1.1", "1.1 Empty GET /a?b#c?d to /a?b"),
            ("/a?#b HTTP/1.1", "1.1 Empty GET /a?#b to /a?"),
            ("/a?b?c#d#e HTTP/1.1", "1.1 Empty GET /a?b?c#d#e to /a?b?c"),
            ("/??# HTTP/1.1", "1.1 Empty GET /??# to /??"),
            ("/?%41 HTTP/1.1", "1.1 Empty GET /?%41 to /?%41"),
            ("/% HTTP/1.1", "1.1 Empty GET /% to /%?"),
            ("/%4 HTTP/1.1", "1.1 Empty GET /%4 to /%4?"),
            ("/%4g HTTP/1.1", "1.1 Empty GET /%4g to /%4g?"),
            ("/%%41 HTTP/1.1", "1.1 Empty GET /%%41 to /%A?"),
            ("/%4%41 HTTP/1.1", "1.1 Empty GET /%4%41 to /%4A?"),
            ("/%2541 HTTP/1.1", "1.1 Empty GET /%2541 to /%41?"),
            ("/%2e%2E/ HTTP/1.1", "1.1 Empty GET /%2e%2E/ to /../?"),
            ("/%00%0d HTTP/1.1", "1.1 Empty GET /%00%0d to /\0\r?"),
            ("/%3F%23 HTTP/1.1", "1.1 Empty GET /%3F%23 to /?#?"),
            (
                "%2F%2f/a//b HTTP/1.1",
                "1.1 Empty GET %2F%2f/a//b to /a//b?",
            ),
            ("http://h/ HTTP/1.1", "1.1 Empty GET http://h/ to /?"),
            ("http://h?q HTTP/1.1", "1.1 Empty GET http://h?q to /?q"),
            ("http://h#f/p HTTP/1.1", "1.1 Empty GET http://h#f/p to /?"),
            ("http:///a HTTP/1.1", "1.1 Empty GET http:///a to /a?"),
            (
                "A+1.b-c://h//a HTTP/1.1",
                "1.1 Empty GET A+1.b-c://h//a to /a?",
            ),
            ("1a://h/a HTTP/1.1", "1.1 Empty GET 1a://h/a to /1a://h/a?"),
            ("://h/a HTTP/1.1", "1.1 Empty GET ://h/a to /://h/a?"),
            ("/b://h/a HTTP/1.1", "1.1 Empty GET /b://h/a to /b://h/a?"),
            (
                "a:b://h/p HTTP/1.1",
                "1.1 Empty GET a:b://h/p to /a:b://h/p?",
            ),
            ("a:/b HTTP/1.1", "1.1 Empty GET a:/b to /a:/b?"),
            ("a%3A//h/b HTTP/1.1", "1.1 Empty GET a%3A//h/b to /a://h/b?"),
            ("h:80 HTTP/1.1", "1.1 Empty GET h:80 to /h:80?"),
        ],
    );
}
