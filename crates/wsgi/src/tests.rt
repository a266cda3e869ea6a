//! What the environs of requests say, row by row.
use crate::shown::{BARE, EVERY, LOCAL, TWO, holds};
use std::rt::HostRuntime;

const BROWSER: &str = "POST /app/caf%C3%A9?q=1&r=%20 HTTP/1.1\r\n\
    Host: example.org:8080\r\n\
    User-Agent: Mozilla/5.0\r\n\
    Accept: text/html\r\n\
    Content-Type: application/x-www-form-urlencoded\r\n\
    Content-Length: 11\r\n\
    X-Forwarded-For: 9.9.9.9\r\n\
    Accept: */*\r\n\
    Cookie: a=b; c=d\r\n\
    \r\n";

const WHOLE: &str = "REQUEST_METHOD=POST\n\
    SCRIPT_NAME=/app\n\
    PATH_INFO=/caf\u{E9}\n\
    REQUEST_URI=/app/caf%C3%A9?q=1&r=%20\n\
    QUERY_STRING=q=1&r=%20\n\
    CONTENT_TYPE=application/x-www-form-urlencoded\n\
    CONTENT_LENGTH=11\n\
    SERVER_NAME=waitress.invalid\n\
    SERVER_PORT=8080\n\
    SERVER_PROTOCOL=HTTP/1.1\n\
    SERVER_SOFTWARE=waitress\n\
    REMOTE_ADDR=::1\n\
    REMOTE_HOST=::1\n\
    REMOTE_PORT=5000\n\
    wsgi.url_scheme=http\n\
    HTTP_HOST=example.org:8080\n\
    HTTP_USER_AGENT=Mozilla/5.0\n\
    HTTP_ACCEPT=text/html, */*\n\
    HTTP_COOKIE=a=b; c=d\n";

#[test]
fn environs_of_requests(rt: HostRuntime) {
    for (rules, addr, text, names, want) in [
        (
            LOCAL,
            "::1",
            "GET /app/x HTTP/1.1\r\n\r\n",
            "SCRIPT_NAME PATH_INFO",
            "|/app|/x",
        ),
        (
            LOCAL,
            "::1",
            "GET /app HTTP/1.1\r\n\r\n",
            "SCRIPT_NAME PATH_INFO",
            "|/app|",
        ),
        (
            LOCAL,
            "::1",
            "GET /apple HTTP/1.1\r\n\r\n",
            "SCRIPT_NAME PATH_INFO",
            "|/app|/apple",
        ),
        (
            LOCAL,
            "::1",
            "GET /app/ HTTP/1.1\r\n\r\n",
            "SCRIPT_NAME PATH_INFO",
            "|/app|/",
        ),
        (
            BARE,
            "10.0.0.9",
            "GET /x HTTP/1.1\r\nX-Forwarded-For: 1.1.1.1\r\n\r\n",
            "SCRIPT_NAME PATH_INFO REMOTE_ADDR HTTP_X_FORWARDED_FOR",
            "||/x|10.0.0.9|1.1.1.1",
        ),
        (
            LOCAL,
            "::1",
            "GET / HTTP/1.0\r\n\r\n",
            "PATH_INFO SERVER_PROTOCOL",
            "|/|HTTP/1.0",
        ),
        (
            LOCAL,
            "127.0.0.1",
            "GET / HTTP/1.1\r\nX-Forwarded-For: 1.1.1.1, 2.2.2.2\r\n\r\n",
            "REMOTE_ADDR REMOTE_HOST HTTP_X_FORWARDED_FOR wsgi.url_scheme",
            "|2.2.2.2|2.2.2.2|2.2.2.2|http",
        ),
        (
            LOCAL,
            "10.0.0.9",
            "GET / HTTP/1.1\r\nX-Forwarded-For: 1.1.1.1, 2.2.2.2\r\n\r\n",
            "REMOTE_ADDR REMOTE_HOST HTTP_X_FORWARDED_FOR",
            "|10.0.0.9|10.0.0.9|-",
        ),
        (
            TWO,
            "127.0.0.1",
            "GET / HTTP/1.1\r\nX-Forwarded-For: 1.1.1.1, 2.2.2.2:70, 3.3.3.3\r\n\r\n",
            "REMOTE_ADDR REMOTE_PORT HTTP_X_FORWARDED_FOR",
            "|2.2.2.2|70|2.2.2.2:70, 3.3.3.3",
        ),
        (
            TWO,
            "127.0.0.1",
            "GET / HTTP/1.1\r\nX-Forwarded-For: 1.1.1.1,,3.3.3.3\r\n\r\n",
            "",
            "malformed for",
        ),
        (
            EVERY,
            "127.0.0.1",
            "GET / HTTP/1.1\r\nX-Forwarded-Host: a.b\r\nX-Forwarded-Proto: HTTPS\r\n\r\n",
            "SERVER_NAME SERVER_PORT wsgi.url_scheme HTTP_HOST",
            "|a.b|443|https|a.b",
        ),
        (
            EVERY,
            "127.0.0.1",
            "GET / HTTP/1.1\r\nHost: c\r\nX-Forwarded-Host: a.b:81\r\nX-Forwarded-Proto: http\r\n\r\n",
            "SERVER_NAME SERVER_PORT HTTP_HOST",
            "|a.b|81|a.b:81",
        ),
        (
            EVERY,
            "127.0.0.1",
            "GET / HTTP/1.1\r\nX-Forwarded-Host: a.b:81\r\nX-Forwarded-Port: 82\r\n\r\n",
            "SERVER_NAME SERVER_PORT HTTP_X_FORWARDED_PORT",
            "|a.b|82|82",
        ),
        (
            LOCAL,
            "::1",
            "POST / HTTP/1.1\r\nTransfer-Encoding: chunked\r\nContent-Length: 5\r\n\r\n",
            "CONTENT_LENGTH HTTP_CONTENT_LENGTH HTTP_TRANSFER_ENCODING CONTENT_TYPE",
            "|11|-|-|-",
        ),
        (
            LOCAL,
            "::1",
            "POST / HTTP/1.1\r\nContent-Length: 007\r\n\r\n",
            "CONTENT_LENGTH",
            "|007",
        ),
        (
            LOCAL,
            "::1",
            "POST / HTTP/1.1\r\n\r\n",
            "CONTENT_LENGTH",
            "|-",
        ),
        (LOCAL, "::1", BROWSER, "", WHOLE),
    ] {
        assert!(rt; holds(rt.alloc(), rules, addr, text, names, want), "{text}");
    }
}
