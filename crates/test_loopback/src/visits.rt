// Two clients at a server that ends behind the second.
use net_real::{DiskTree, FileSpills, MioNet};
use outside::MemSink;
use std::alloc::{AllocError, Global};
use std::io;
use std::io::{Read, Write};
use std::net::{Ipv4Addr, SocketAddr, TcpListener, TcpStream};
use std::sync::Wait;
use std::test::Fail;
use std::thread::{Threads, join, sleep};
use std::time::Duration;
use waitress_serve::run;

// How often a client tries to come while nobody listens yet, with a pause behind each try.
const TRIES: u32 = 500;

const PAUSE_MILLIS: u64 = 20;

// In how many pieces an answer may come.
const PIECES: u32 = 64;

// How the run ended, and what it printed.
#[derive(Drop)]
struct Ended {
    status: u8,
    out: MemSink,
    err: MemSink,
}

// What both clients were answered.
#[derive(Drop)]
struct Answers {
    first: Vec<u8>,
    second: Vec<u8>,
}

// A port that was free a moment ago.
fn free_port(rt: &HostRuntime) -> io::Result<u16> {
    let listener = TcpListener::bind(rt, SocketAddr::from((Ipv4Addr::LOCALHOST, 0)))?;
    Ok(listener.local_addr()?.port())
}

// What stands behind the name of an option, and the port.
fn with_port(alloc: Global, text: &str, port: u16) -> Result<String, AllocError> {
    let mut word = String::from_str(alloc, text)?;
    word.push_str(itoa::Buffer::new().format(port))?;
    Ok(word)
}

fn words(alloc: Global, port: u16) -> Result<Vec<String>, AllocError> {
    let mut words = Vec::new(alloc);
    words.push(with_port(alloc, "--listen=127.0.0.1:", port)?)?;
    words.push(String::from_str(alloc, "--threads=0")?)?;
    words.push(String::from_str(alloc, "--serve-limit=2")?)?;
    words.push(String::from_str(alloc, "echo")?)?;
    Ok(words)
}

// The run has no clauses here, so that no test has to carry them.
fn serve<W: Threads + Wait + Sync>(threads: &W, rt: HostRuntime, port: u16) -> Option<Ended> {
    let alloc = rt.alloc();
    let words = words(alloc, port).ok()?;
    let mut sockets = MioNet::new(alloc, rt).ok()?;
    let trigger = sockets.trigger().ok()?;
    let mut files = DiskTree::new(rt);
    let mut spills = FileSpills::new(alloc, rt, "/tmp");
    let mut out = MemSink::new(alloc, Vec::new(alloc));
    let mut err = MemSink::new(alloc, Vec::new(alloc));
    let status = run(
        threads,
        alloc,
        &words,
        &mut sockets,
        &mut files,
        &mut spills,
        &mut out,
        &mut err,
        &trigger,
    );
    Some(Ended { status, out, err })
}

// A connection to the port, once somebody listens there.
fn come(rt: &HostRuntime, port: u16) -> io::Result<TcpStream> {
    for _ in 0..TRIES {
        if let Ok(stream) = TcpStream::connect(rt, SocketAddr::from((Ipv4Addr::LOCALHOST, port))) {
            stream.set_read_timeout(Some(Duration::from_secs(20)))?;
            return Ok(stream);
        }
        sleep(rt, Duration::from_millis(PAUSE_MILLIS));
    }
    Err(io::Error::from(io::ErrorKind::ConnectionRefused))
}

// All that the server sends until it closes.
fn answer(alloc: Global, stream: &mut TcpStream) -> io::Result<Vec<u8>> {
    let mut answer = Vec::new(alloc);
    let mut piece = [0u8; 512];
    for _ in 0..PIECES {
        let count = stream.read(&mut piece)?;
        if count == 0 {
            return Ok(answer);
        }
        answer.extend_from_slice(&piece[..count])?;
    }
    Err(io::Error::from(io::ErrorKind::InvalidData))
}

// Both are connected before either asks, and the second one asks first.
fn visit(rt: HostRuntime, port: u16) -> io::Result<Answers> {
    let alloc = rt.alloc();
    let mut first = come(&rt, port)?;
    let mut second = come(&rt, port)?;
    second.write_all(b"POST /2 HTTP/1.1\r\nHost: a\r\nConnection: close\r\n")?;
    second.write_all(b"Content-Type: text/plain\r\nContent-Length: 6\r\n\r\nsecond")?;
    let second = answer(alloc, &mut second)?;
    first.write_all(b"POST /1 HTTP/1.0\r\nContent-Length: 5\r\n\r\nfi")?;
    first.write_all(b"rst")?;
    let first = answer(alloc, &mut first)?;
    Ok(Answers { first, second })
}

// Whether an answer is these bytes, but for the moment behind the word Date.
fn is_dated(answer: &[u8], front: &[u8], back: &[u8]) -> bool {
    let Some(dated) = answer.strip_prefix(front) else {
        return false;
    };
    match dated.strip_suffix(back) {
        Some(date) => date.len() == 29,
        None => false,
    }
}

#[test]
fn two_connections_are_served_over_the_loopback(rt: HostRuntime) -> Result<(), Fail> {
    let port = free_port(&rt)?;
    let (ended, answers) = join(&rt, || serve(&rt, rt, port), || visit(rt, port));
    let answers = answers?;
    let Some(ended) = ended else {
        return Err(Fail::new("the server could not begin"));
    };
    assert!(rt;
        is_dated(
            &answers.first,
            b"HTTP/1.0 200 OK\r\nConnection: close\r\nContent-Length: 5\r\n\
            Content-Type: application/octet-stream\r\nDate: ",
            b"\r\nServer: waitress\r\n\r\nfirst",
        )
    );
    assert!(rt;
        is_dated(
            &answers.second,
            b"HTTP/1.1 200 OK\r\nConnection: close\r\nContent-Length: 6\r\n\
            Content-Type: text/plain\r\nDate: ",
            b"\r\nServer: waitress\r\n\r\nsecond",
        )
    );
    assert_eq!(rt; ended.status, 0);
    let line = with_port(rt.alloc(), "Serving on http://127.0.0.1:", port)?;
    assert_eq!(rt;
        ended.out.written().strip_suffix(b"\n"),
        Some(line.as_bytes())
    );
    assert!(rt; ended.err.written().is_empty());
    Ok(())
}
