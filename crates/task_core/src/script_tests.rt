//! Scripts beside the texts that the standards give for them.
ghost use Rattle.std.specs.Prelude.{◌≡◌, ◌++◌, List, IfOk, IsTrue, OnOk};
ghost use Rattle.task_core.specs.Chains.{TakesScript, ended_by, joined};
ghost use Rattle.task_core.specs.Steps.{is_under_way, text_of};
ghost use Rattle.task_core.specs.declared.task.Wrote.{Wrote as AWrote};

use crate::{Task, Wrote};
use head_grammar::{Field, Head, Parsed, head_end, read_head};
use outside::{Bytes, Items};
use std::alloc::{AllocError, Global};
use std::rt::HostRuntime;
use std::test::Fail;
use wsgi::Step;

pub(crate) const NOW: u64 = 784_111_777;

/// From the year 10000 on a response has no date.
pub(crate) const LATE: u64 = 253_402_300_800;

pub(crate) fn bytes_of(alloc: Global, text: &str) -> Result<Bytes, AllocError> {
    Bytes::from_slice(alloc, text.as_bytes())
}

/// A text in which each bar stands for the end of a line.
pub(crate) fn lines_of(alloc: Global, text: &str) -> Result<Vec<u8>, AllocError> {
    let mut lines = Vec::new(alloc);
    for byte in text.as_bytes() {
        if *byte == b'|' {
            lines.extend_from_slice(b"\r\n")?;
        } else {
            lines.push(*byte)?;
        }
    }
    Ok(lines)
}

// A status, and fields behind bars.
fn start_of(alloc: Global, given: &str, replace: bool) -> Result<Step, AllocError> {
    let mut parts = given.split('|');
    let status = parts.next().unwrap_or("");
    let mut fields = Vec::new(alloc);
    for part in parts {
        let (name, value) = part.split_once(": ").unwrap_or((part, ""));
        fields.push(Field {
            name: bytes_of(alloc, name)?,
            value: bytes_of(alloc, value)?,
        })?;
    }
    Ok(Step::Start {
        status: bytes_of(alloc, status)?,
        fields: Items::from_vec(fields),
        replace,
    })
}

// A step: its letter, a space and what it gives.
fn step_of(alloc: Global, line: &str) -> Result<Step, AllocError> {
    let (letter, given) = line.split_once(' ').unwrap_or((line, ""));
    if letter == "S" {
        start_of(alloc, given, false)
    } else if letter == "R" {
        start_of(alloc, given, true)
    } else if letter == "P" {
        Ok(Step::Piece(bytes_of(alloc, given)?))
    } else if letter == "W" {
        Ok(Step::Whole(bytes_of(alloc, given)?))
    } else {
        Ok(Step::Fail)
    }
}

// A request: its method and version, and `close` where it closes.
fn request_text(alloc: Global, request: &str) -> Result<Vec<u8>, AllocError> {
    let (method, _) = request.split_once(' ').unwrap_or((request, ""));
    let mut text = Vec::from_slice(alloc, method.as_bytes())?;
    text.extend_from_slice(b" / HTTP/")?;
    text.extend_from_slice(if request.contains(" 1.0") {
        b"1.0"
    } else {
        b"1.1"
    })?;
    text.extend_from_slice(b"\r\nConnection: ")?;
    text.extend_from_slice(if request.ends_with(" close") {
        b"close"
    } else {
        b"keep-alive"
    })?;
    text.extend_from_slice(b"\r\n\r\n")?;
    Ok(text)
}

/// The head of a request, which is written so.
#[tactic(auto, unfolding(head_grammar::specs::Ends::head_end))]
pub(crate) fn head_of(alloc: Global, request: &str) -> Result<Head, AllocError> {
    let text = request_text(alloc, request)?;
    let end = head_end(&text, 0).ok_or(AllocError)?;
    match read_head(alloc, &text[..end], 1) {
        Ok(Parsed::Good(head)) => Ok(head),
        _ => Err(AllocError),
    }
}

fn steps_of(alloc: Global, script: &str) -> Result<Vec<Step>, AllocError> {
    let mut steps = Vec::new(alloc);
    for line in script.split(';') {
        if !line.is_empty() {
            steps.push(step_of(alloc, line)?)?;
        }
    }
    Ok(steps)
}

fn add(text: &mut Vec<u8>, wrote: &Wrote) -> Result<(), AllocError>
    ensures { OnOk result (text.new.items ≡ text.old.items ++ text_of wrote.now) }
{
    text.extend_from_slice(wrote.head.as_slice())?;
    text.extend_from_slice(wrote.body.as_slice())
}

// All that a task writes for a script, and whether the connection closes. The clause follows from
// those of `step`, so the law speaks of any such loop.
fn written(alloc: Global, task: Task, steps: Vec<Step>) -> Result<(Vec<u8>, bool), Fail>
    requires { IsTrue (is_under_way task) }
    ensures { IfOk result (λ written. (parts : List AWrote) × TakesScript task steps.items parts
        × (written.0.items ≡ joined parts) × (ended_by parts ≡ Some written.1)) }
{
    let mut task = task;
    let mut text = Vec::new(alloc);
    for step in steps {
        let wrote = task.step(alloc, Some(step))?;
        add(&mut text, &wrote)?;
        match wrote.ended {
            Some(closes) => return Ok((text, closes)),
            None => {}
        }
    }
    let wrote = task.step(alloc, None)?;
    add(&mut text, &wrote)?;
    Ok((text, wrote.ended.unwrap_or(false)))
}

/// The text that answers a script, and whether the connection closes.
pub(crate) fn answer_to(
    alloc: Global,
    request: &str,
    script: &str,
) -> Result<(Vec<u8>, bool), Fail> {
    let head = head_of(alloc, request)?;
    let moment = if request.contains(" dated") {
        NOW
    } else {
        LATE
    };
    let ident = bytes_of(alloc, "waitress")?;
    let task = Task::new(alloc, &head, moment, &ident)?;
    written(alloc, task, steps_of(alloc, script)?)
}

// A request, `dated` where its moment has a date; its script, where a Start is `S`, or `R` if it
// may replace another; whether the connection stays open or closes; the text that answers it.
#[test]
fn scripts_are_answered(rt: HostRuntime) -> Result<(), Fail> {
    let alloc = rt.alloc();
    for row in [
        // By the length that is declared, or that of the one byte string.
        "GET 1.1 > S 200 OK|Content-Length: 3;P abcd = stays HTTP/1.1 200 OK|Content-Length: 3|Server: waitress||abc",
        "GET 1.1 > S 200 OK|Content-Length: 5;P abc = closes HTTP/1.1 200 OK|Content-Length: 5|Server: waitress||abc",
        "GET 1.1 > S 200 OK|Content-Length: 2 = closes HTTP/1.1 200 OK|Content-Length: 2|Server: waitress||",
        "GET 1.1 > S 200 OK|Content-Length: 3;P abc;F = closes HTTP/1.1 200 OK|Content-Length: 3|Server: waitress||abc",
        "GET 1.1 > S 200 |Content-Length: 18446744073709551615;P x = closes HTTP/1.1 200 |Content-Length: 18446744073709551615|Server: waitress||x",
        "GET 1.1 > S 200 OK|content-length: 000;P x = stays HTTP/1.1 200 OK|Content-Length: 0|Server: waitress||",
        "GET 1.1 > S 200 OK|Content-Length: 00000000000000000000001;P xy = stays HTTP/1.1 200 OK|Content-Length: 1|Server: waitress||x",
        "GET 1.0 > S 200 OK|CONTENT-LENGTH: 002;P a;P bc = stays HTTP/1.0 200 OK|Connection: Keep-Alive|Content-Length: 2|Server: waitress||ab",
        "GET 1.0 > S 200 OK|Content-Length: 5;P abc = closes HTTP/1.0 200 OK|Connection: Keep-Alive|Content-Length: 5|Server: waitress||abc",
        "GET 1.1 > S 200 OK;W hello;P x = stays HTTP/1.1 200 OK|Content-Length: 5|Server: waitress||hello",
        "GET 1.1 > S 200 OK|Content-Length: 3;W hello = stays HTTP/1.1 200 OK|Content-Length: 3|Server: waitress||hel",
        "GET 1.0 > S 200 OK;W hello = stays HTTP/1.0 200 OK|Connection: Keep-Alive|Content-Length: 5|Server: waitress||hello",
        "GET 1.1 close > S 200 OK;W abcdefghijklmnopqrstuvwxyz = closes HTTP/1.1 200 OK|Connection: close|Content-Length: 26|Server: waitress||abcdefghijklmnopqrstuvwxyz",
        "HEADER 1.1 > S 200 OK;W hello = stays HTTP/1.1 200 OK|Content-Length: 5|Server: waitress||hello",
        "GET 1.1 > P;S 200 OK = stays HTTP/1.1 200 OK|Content-Length: 0|Server: waitress||",
        "GET 1.0 > S 200 OK;W = stays HTTP/1.0 200 OK|Connection: Keep-Alive|Content-Length: 0|Server: waitress||",
        // In chunks.
        "GET 1.1 > S 200 OK;P abcdefghijklmnopqrstuvwxyz;P = closes HTTP/1.1 200 OK|Connection: close|Server: waitress|Transfer-Encoding: chunked||1A|abcdefghijklmnopqrstuvwxyz|0||",
        "GET 1.1 > S 200 OK;W;P ab;W c = closes HTTP/1.1 200 OK|Connection: close|Server: waitress|Transfer-Encoding: chunked||2|ab|1|c|0||",
        "GET 1.1 > S 200 OK;R 404 Not Found;P x = closes HTTP/1.1 404 Not Found|Connection: close|Server: waitress|Transfer-Encoding: chunked||1|x|0||",
        "GET 1.1 > S 200 OK;P abc;F = closes HTTP/1.1 200 OK|Connection: close|Server: waitress|Transfer-Encoding: chunked||3|abc|",
        "GET 1.1 > S 200 OK;P x;R 404 Not Found = closes HTTP/1.1 200 OK|Connection: close|Server: waitress|Transfer-Encoding: chunked||1|x|",
        "GET 1.1 > S 200 OK;P x;S 404 Not Found = closes HTTP/1.1 200 OK|Connection: close|Server: waitress|Transfer-Encoding: chunked||1|x|",
        // By the end of the connection.
        "GET 1.0 > S 200 OK;P a;P;P b = closes HTTP/1.0 200 OK|Connection: close|Server: waitress||ab",
        "GET 1.0 > S 200 OK;P a;W bc = closes HTTP/1.0 200 OK|Connection: close|Server: waitress||abc",
        "GET 1.0 > S 200 OK;P a;F = closes HTTP/1.0 200 OK|Connection: close|Server: waitress||a",
        // Responses to HEAD.
        "HEAD 1.1 > S 200 OK;W hello = stays HTTP/1.1 200 OK|Content-Length: 5|Server: waitress||",
        "HEAD 1.0 > S 200 OK;W hello = stays HTTP/1.0 200 OK|Connection: Keep-Alive|Content-Length: 5|Server: waitress||",
        "HEAD 1.1 > S 200 OK|Content-Length: 3;P a = stays HTTP/1.1 200 OK|Content-Length: 3|Server: waitress||",
        "HEAD 1.1 > S 200 OK;P x = stays HTTP/1.1 200 OK|Server: waitress||",
        "HEAD 1.0 > S 200 OK;P x = stays HTTP/1.0 200 OK|Connection: Keep-Alive|Server: waitress||",
        "HEAD 1.1 > S 200 OK = stays HTTP/1.1 200 OK|Server: waitress||",
        "HEAD 1.1 close > S 200 OK;W hello = closes HTTP/1.1 200 OK|Connection: close|Content-Length: 5|Server: waitress||",
        "HEAD 1.1 > S 200 OK;P x;F = closes HTTP/1.1 200 OK|Server: waitress||",
        "HEAD 1.1 > S 200 OK;F = closes HTTP/1.1 500 Internal Server Error|Connection: close|Content-Length: 110|Content-Type: text/plain; charset=utf-8|Server: waitress||",
        // Statuses without a body.
        "GET 1.1 > S 204 No Content|Content-Length: 4;P body = stays HTTP/1.1 204 No Content|Server: waitress||",
        "GET 1.0 > S 204 No Content|Content-Length: 4;P body = stays HTTP/1.0 204 No Content|Connection: Keep-Alive|Server: waitress||",
        "HEAD 1.1 > S 204 No Content|Content-Length: 4;P body = stays HTTP/1.1 204 No Content|Server: waitress||",
        "HEAD 1.0 > S 204 No Content;W body = stays HTTP/1.0 204 No Content|Connection: Keep-Alive|Server: waitress||",
        "GET 1.1 close > S 204 No Content = closes HTTP/1.1 204 No Content|Connection: close|Server: waitress||",
        "GET 1.1 > S 204 No Content;P x;F = closes HTTP/1.1 204 No Content|Server: waitress||",
        "GET 1.1 > S 304 Not Modified|Content-Length: 9;P x = stays HTTP/1.1 304 Not Modified|Content-Length: 9|Server: waitress||",
        "GET 1.0 > S 304 Not Modified|Content-Length: 9;P x = stays HTTP/1.0 304 Not Modified|Connection: Keep-Alive|Content-Length: 9|Server: waitress||",
        "GET 1.1 > S 304 Not Modified;W hello = stays HTTP/1.1 304 Not Modified|Server: waitress||",
        "HEAD 1.1 > S 304 Not Modified;W hello = stays HTTP/1.1 304 Not Modified|Server: waitress||",
        "HEAD 1.0 > S 304 Not Modified|Content-Length: 9 = stays HTTP/1.0 304 Not Modified|Connection: Keep-Alive|Content-Length: 9|Server: waitress||",
        "GET 1.1 > S 304 Not Modified;P x;S 200 OK = closes HTTP/1.1 304 Not Modified|Server: waitress||",
        // Fields.
        "GET 1.1 dated > S 200 OK|x--y: 1|1a: 2|ETAG:  \"e\"\t|Set-Cookie: b|set-cookie: a|SERVER: app|date: now = stays HTTP/1.1 200 OK|1a: 2|Content-Length: 0|Date: now|Etag: \"e\"|Server: app|Set-Cookie: b|Set-Cookie: a|Via: waitress|X--Y: 1||",
        "GET 1.1 dated > S 200 OK|Via: 1.1 p|server: app|Server:  \t = stays HTTP/1.1 200 OK|Content-Length: 0|Date: Sun, 06 Nov 1994 08:49:37 GMT|Server: app|Server: |Via: 1.1 p|Via: waitress||",
        "GET 1.1 > S 200 OK|ab: 1|-a: 2|a-: 3|a-b: 4|A: 5|x-1A-bC: 6|trailer: 7 = stays HTTP/1.1 200 OK|-A: 2|A: 5|A-: 3|A-B: 4|Ab: 1|Content-Length: 0|Server: waitress|Trailer: 7|X-1a-Bc: 6||",
        "GET 1.1 > S 200 OK|DATE: now = stays HTTP/1.1 200 OK|Content-Length: 0|Date: now|Server: waitress||",
        "GET 1.0 dated close > S 200 OK|Content-Type: application/octet-stream|Content-Length: 0 = closes HTTP/1.0 200 OK|Connection: close|Content-Length: 0|Content-Type: application/octet-stream|Date: Sun, 06 Nov 1994 08:49:37 GMT|Server: waitress||",
        "GET 1.1 > S 200 OK|X: 1|Content-Length: 9;P;R 599 \t|Y: 2;W ab = stays HTTP/1.1 599 \t|Content-Length: 2|Server: waitress|Y: 2||ab",
        "GET 1.0 > F = closes HTTP/1.0 500 Internal Server Error|Connection: close|Content-Length: 110|Content-Type: text/plain; charset=utf-8|Server: waitress||Internal Server Error||The server encountered an unexpected internal server error||(generated by waitress)",
    ] {
        let (asked, answer) = row.split_once(" = ").unwrap_or((row, ""));
        let (request, script) = asked.split_once(" > ").unwrap_or((asked, ""));
        let (end, text) = answer.split_once(' ').unwrap_or((answer, ""));
        let (found, closes) = answer_to(alloc, request, script)?;
        assert!(rt; found == lines_of(alloc, text)?, "{row}");
        assert_eq!(rt; closes, end == "closes", "{row}");
    }
    Ok(())
}
