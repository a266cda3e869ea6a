//! What `clap` refuses, the values of each option, and the texts.
use adjust::{AppName, Command, check_text, fault_text, help_text, push_listen, read};
use outside::{Bytes, Listen};
use std::alloc::Global;
use std::rt::HostRuntime;
use std::test::Fail;

fn as_text(bytes: Bytes) -> Result<String, Fail> {
    Ok(String::from_utf8(bytes.into_vec()).map_err(|_| "a text")?)
}

fn app_text(alloc: Global, app: AppName) -> Result<String, Fail> {
    match app {
        AppName::Echo => Ok(String::from_str(alloc, "serve echo")?),
        AppName::Table(file) => Ok(format!(in alloc; "serve table {}", as_text(file)?)?),
        AppName::Dir(root) => Ok(format!(in alloc; "serve dir {}", as_text(root)?)?),
    }
}

fn command_text(alloc: Global, command: Command) -> Result<String, Fail> {
    match command {
        Command::Help => Ok(String::from_str(alloc, "help")?),
        Command::Rehearse(count) => Ok(format!(in alloc; "rehearse {count}")?),
        Command::Check(adjustments) => as_text(check_text(alloc, &adjustments)?),
        Command::Serve(_adjustments, app) => app_text(alloc, app),
    }
}

// The answer to words between bars, and what `--check` prints.
fn told(alloc: Global, line: &str) -> Result<String, Fail> {
    let mut words = Vec::new(alloc);
    if !line.is_empty() {
        for word in line.split('|') {
            words.push(String::from_str(alloc, word)?)?;
        }
    }
    match read(alloc, words.as_slice()) {
        Ok(command) => command_text(alloc, command),
        Err(fault) => as_text(fault_text(alloc, &fault)?),
    }
}

static ANSWERS: &str = "\
-- -> no application is named
 -> no application is named
- -> unknown application
|echo -> unknown application
echo -> serve echo
--|echo -> serve echo
echo|-- -> serve echo
--version -> the words could not be read
help -> unknown application
--|--help -> unknown application
echo|x -> wrong number of operands
echo| -> wrong number of operands
table -> wrong number of operands
table| -> wrong number of operands
dir -> wrong number of operands
table|rows.toml -> serve table rows.toml
dir|--port=80|- -> serve dir -
dir|root|more -> the words could not be read
--help -> help
--help|--check|echo|x -> help
--port=x|--help -> help
--unknown|--help -> the words could not be read
--help|--help -> the words could not be read
--help=true -> the words could not be read
-h -> the words could not be read
--por=80|echo -> the words could not be read
--port=1|--port=2|echo -> the words could not be read
--port|80|echo -> serve echo
--port|-|echo -> --port needs a whole number
--port|-1|echo -> the words could not be read
--port -> the words could not be read
--ident|--|echo -> the words could not be read
--port=+80|echo -> --port needs a whole number
--port=18446744073709551616|echo -> --port needs a whole number
--port=70000|echo -> --port must be from 1 to 65535
--rehearse=0 -> --rehearse must be from 1 to 20000
--rehearse=1 -> rehearse 1
--rehearse=20000|nothing -> rehearse 20000
--rehearse=20001 -> --rehearse must be from 1 to 20000
--rehearse|| -> --rehearse has a bad value
--host=|echo -> --host has a bad value
--host=a_b|echo -> --host has a bad value
--host=::1|echo -> --host has a bad value
--host=[]|echo -> --host has a bad value
--host=[::1|echo -> --host has a bad value
--host=[::g]|echo -> --host has a bad value
--listen=|echo -> --listen has a bad value
--listen= |echo -> --listen entry 1 is not host:port
--listen=:80|echo -> --listen entry 1 is not host:port
--listen=::1:80|echo -> --listen entry 1 is not host:port
--listen=[::1]|echo -> --listen entry 1 is not host:port
--listen=a:1,b:2|echo -> --listen entry 1 is not host:port
--listen=a:000001|echo -> --listen entry 1 is not host:port
--listen=a:65536|echo -> --listen entry 1 is not host:port
--listen=a:1 b:0|echo -> --listen entry 2 is not host:port
--listen=a:1 a:1 a:1 a:1 a:1 a:1 a:1 a:1 a:1 a:1 a:1 a:1 a:1 a:1 a:1 a:1|echo -> serve echo
--listen=a:1 a:1 a:1 a:1 a:1 a:1 a:1 a:1 a:1 a:1 a:1 a:1 a:1 a:1 a:1 a:1 a:1|echo -> --listen entry 17 is not host:port
--listen=a:1 a:1 a a:1 a:1 a:1 a:1 a:1 a:1 a:1 a:1 a:1 a:1 a:1 a:1 a:1 a:1|echo -> --listen entry 3 is not host:port
--trusted-proxy=|echo -> --trusted-proxy has a bad value
--trusted-proxy=**|echo -> --trusted-proxy has a bad value
--trusted-proxy=a-b|echo -> --trusted-proxy has a bad value
--trusted-proxy-headers=|echo -> --trusted-proxy-headers has a bad value
--trusted-proxy-headers= ,|echo -> --trusted-proxy-headers has a bad value
--trusted-proxy-headers=forwarded|echo -> --trusted-proxy-headers has a bad value
--url-scheme=|echo -> --url-scheme has a bad value
--url-scheme=1a|echo -> --url-scheme has a bad value
--url-prefix=|echo -> --url-prefix has a bad value
--url-prefix=/a b|echo -> --url-prefix has a bad value
--server-name=|echo -> --server-name has a bad value
--server-name=é|echo -> --server-name has a bad value
--ident=|echo -> --ident has a bad value
--ident= a|echo -> --ident has a bad value
--ident=a\t|echo -> --ident has a bad value
--ident=a\x7f|echo -> --ident has a bad value
--threads=65|--port=x|echo -> --port needs a whole number
--listen=a:81|--port=82|echo -> --listen is given both ways
--listen=a:81|--host=b|--threads=65 -> --threads must be from 0 to 64
--listen=a:81|--host=b|--clear-untrusted-proxy-headers|--no-clear-untrusted-proxy-headers -> --listen is given both ways
--clear-untrusted-proxy-headers|--no-clear-untrusted-proxy-headers|--trusted-proxy-count=2 -> --clear-untrusted-proxy-headers is given both ways
--trusted-proxy-count=2|echo -> --trusted-proxy-count needs --trusted-proxy
--trusted-proxy-headers=X-Forwarded-For|echo -> --trusted-proxy-headers needs --trusted-proxy
--trusted-proxy-headers=x-forwarded-for|--trusted-proxy-count=1|echo -> --trusted-proxy-count needs --trusted-proxy";

// Words, and lines that are among those that they have printed.
static CHECKED: &str = "\
--check|nothing|--rehearse=5 -> port = 8080
--check|--listen=a:81|--trusted-proxy=* -> host = 0.0.0.0|listen = a:81|trusted-proxy-headers = x-forwarded-proto|serve-limit = none
--check|--host=* -> host = 0.0.0.0
--check|--host|A-b.9 -> host = A-b.9
--check|--host=[::1] -> host = [::1]
--check|--host=[a] -> host = a
--check|--listen=*:65535  [::1]:00082  -> listen = 0.0.0.0:65535 [::1]:82
--check|--trusted-proxy=::1|--trusted-proxy-count=9 -> trusted-proxy = ::1|trusted-proxy-count = 9
--check|--trusted-proxy=a|--trusted-proxy-headers=X-Forwarded-BY,, x-forwarded-for x-forwarded-for -> trusted-proxy-headers = x-forwarded-for,x-forwarded-by
--check|--no-clear-untrusted-proxy-headers -> clear-untrusted-proxy-headers = off
--check|--url-scheme=A1+-. -> url-scheme = A1+-.
--check|--url-prefix=a -> url-prefix = /a
--check|--url-prefix=//a//b// -> url-prefix = /a//b
--check|--url-prefix=// -> url-prefix = |server-name = waitress.invalid
--check|--server-name=~! -> server-name = ~!
--check|--ident=a \té -> ident = a \té
--check|--port=0080 -> port = 80";

static RANGES: [(&str, u64, u64); 15] = [
    ("port", 1, 65535),
    ("threads", 0, 64),
    ("trusted-proxy-count", 1, 100),
    ("backlog", 1, 65535),
    ("recv-bytes", 1, 1048576),
    ("inbuf-overflow", 1, 1073741824),
    ("outbuf-overflow", 1, 1073741824),
    ("outbuf-high-watermark", 0, 1073741824),
    ("connection-limit", 1, 1000),
    ("cleanup-interval", 1, 86400),
    ("channel-timeout", 1, 86400),
    ("max-request-header-size", 16, 16777216),
    ("max-request-body-size", 1, 1099511627776),
    ("channel-request-lookahead", 0, 1000),
    ("serve-limit", 1, 1000000000),
];

static DEFAULTS: &str = "\
    host = 0.0.0.0\nport = 8080\nlisten = none\nthreads = 4\ntrusted-proxy = none\n\
    trusted-proxy-count = 1\ntrusted-proxy-headers = none\nclear-untrusted-proxy-headers = on\n\
    url-scheme = http\nurl-prefix = \nserver-name = waitress.invalid\nident = waitress\n\
    backlog = 1024\nrecv-bytes = 8192\ninbuf-overflow = 524288\noutbuf-overflow = 1048576\n\
    outbuf-high-watermark = 16777216\nconnection-limit = 100\ncleanup-interval = 30\n\
    channel-timeout = 120\nmax-request-header-size = 262144\nmax-request-body-size = 1073741824\n\
    channel-request-lookahead = 0\nserve-limit = none\n";

static HELP: &str = "usage: waitress-serve [options] echo | table FILE | dir ROOT\n\
    \x20 --host=VALUE\n  --port=VALUE\n  --listen=VALUE\n  --threads=VALUE\n\
    \x20 --trusted-proxy=VALUE\n  --trusted-proxy-count=VALUE\n  --trusted-proxy-headers=VALUE\n\
    \x20 --clear-untrusted-proxy-headers\n  --no-clear-untrusted-proxy-headers\n\
    \x20 --url-scheme=VALUE\n  --url-prefix=VALUE\n  --server-name=VALUE\n  --ident=VALUE\n\
    \x20 --backlog=VALUE\n  --recv-bytes=VALUE\n  --inbuf-overflow=VALUE\n\
    \x20 --outbuf-overflow=VALUE\n  --outbuf-high-watermark=VALUE\n  --connection-limit=VALUE\n\
    \x20 --cleanup-interval=VALUE\n  --channel-timeout=VALUE\n  --max-request-header-size=VALUE\n\
    \x20 --max-request-body-size=VALUE\n  --channel-request-lookahead=VALUE\n\
    \x20 --serve-limit=VALUE\n  --rehearse=VALUE\n  --check\n  --help\n";

// Whether a line is among those of a text.
fn has_line(text: &str, wanted: &str) -> bool {
    text.lines().any(|line| line == wanted)
}

#[test]
fn words_are_answered(rt: HostRuntime) -> Result<(), Fail> {
    for row in ANSWERS.lines() {
        let (words, answer) = row.split_once(" -> ").ok_or("a row")?;
        assert_eq!(rt; told(rt.alloc(), words)?.as_str(), answer, "{row}");
    }
    Ok(())
}

#[test]
fn values_are_printed(rt: HostRuntime) -> Result<(), Fail> {
    for row in CHECKED.lines() {
        let (words, lines) = row.split_once(" -> ").ok_or("a row")?;
        let text = told(rt.alloc(), words)?;
        for line in lines.split('|') {
            assert!(rt; has_line(text.as_str(), line), "{line}");
        }
    }
    Ok(())
}

// The answers to an option at both ends of its range, beside them and at what is no number.
fn is_ranged(alloc: Global, name: &str, low: u64, high: u64) -> Result<bool, Fail> {
    let set = format!(in alloc; "--trusted-proxy=*|--check|--{name}=")?;
    let range = format!(in alloc; "--{name} must be from {low} to {high}")?;
    for value in [low, high] {
        let line = format!(in alloc; "{name} = {value}")?;
        let text = told(alloc, format!(in alloc; "{set}{value}")?.as_str())?;
        if !has_line(text.as_str(), line.as_str()) {
            return Ok(false);
        }
    }
    for value in [low.wrapping_sub(1), high.wrapping_add(1)] {
        let text = told(alloc, format!(in alloc; "{set}{value}")?.as_str())?;
        if text != range {
            return Ok(false);
        }
    }
    let text = told(alloc, format!(in alloc; "{set}1x")?.as_str())?;
    Ok(text == format!(in alloc; "--{name} needs a whole number")?)
}

#[test]
fn numbers_have_ranges(rt: HostRuntime) -> Result<(), Fail> {
    for (name, low, high) in RANGES {
        assert!(rt; is_ranged(rt.alloc(), name, low, high)?, "{name}");
    }
    Ok(())
}

#[test]
fn texts_are_whole(rt: HostRuntime) -> Result<(), Fail> {
    let alloc = rt.alloc();
    let defaults = told(alloc, "--check")?;
    assert_eq!(rt; defaults.as_str(), DEFAULTS);
    assert_eq!(rt; as_text(help_text(alloc)?)?.as_str(), HELP);
    let mut text = Vec::from_slice(alloc, b"http://")?;
    let host = Bytes::from_slice(alloc, b"::1")?;
    push_listen(&mut text, &Listen { host, port: 80 })?;
    assert_eq!(rt; text.as_slice(), b"http://[::1]:80".as_slice());
    Ok(())
}
