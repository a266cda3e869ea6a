//! What is sent by the connections, and what is told of them.
ghost use Rattle.std.specs.Prelude.{◌≤◌};

use crate::{rehearsal, summary, sums_of};
use outside::{End, Link, MemNet, Net, Recv, Sent};
use std::alloc::Global;
use std::rt::HostRuntime;

const NOW: u64 = 784_111_777;

const REQUEST: &[u8] =
    b"POST /c0/r0 HTTP/1.1\r\nHost: rehearsal\r\nContent-Length: 0\r\nConnection: close\r\n\r\n";

const ANSWER: &[u8] = b"HTTP/1.1 200 OK\r\nConnection: close\r\nContent-Length: 0\r\n\
    Content-Type: application/octet-stream\r\nDate: Sun, 06 Nov 1994 08:49:37 GMT\r\n\
    Server: waitress\r\n\r\n";

const SUMMARY: &[u8] =
    b"connections 1\nrequests 1\nbytes in 79\nbytes out 152\nsum 11847\ndone 1\n";

// All that a link gives, in pieces of at most so many bytes.
fn heard(alloc: Global, link: &mut impl Link, most: usize) -> Option<Vec<u8>> {
    let mut text = Vec::new(alloc);
    let mut room = [0; 100];
    for _ in 0..2000 {
        match link.recv(NOW, &mut room) {
            Recv::Got(count) if count <= most => text.extend_from_slice(&room[..count]).ok()?,
            Recv::NotYet => return Some(text),
            _ => return None,
        }
    }
    None
}

// Whether a link takes all of a text, in pieces of at most fifty bytes.
fn takes(link: &mut impl Link, text: &[u8]) -> bool {
    let mut left = text;
    for _ in 0..100 {
        if left.is_empty() {
            return true;
        }
        match link.send(NOW, left) {
            Sent::Took(count) if count <= 50 => left = &left[count..],
            _ => return false,
        }
    }
    false
}

// The next connection sends all that it has, and is answered and retired.
fn play(alloc: Global, net: &mut MemNet, most: usize, end: End) -> Option<Vec<u8>> {
    let Ok(Some((mut link, peer))) = net.accept(alloc, NOW) else {
        return None;
    };
    let text = heard(alloc, &mut link, most)?;
    if !takes(&mut link, ANSWER) {
        return None;
    }
    net.retire(link, peer, end);
    Some(text)
}

// A net behind its first poll.
fn begun(alloc: Global, connections: u32) -> Option<MemNet>
    requires { connections ≤ 20000 }
{
    let mut net = rehearsal(alloc, connections).ok()?;
    let turn = net.poll(&mut Vec::new(alloc), true).ok()?;
    if turn.now == NOW && turn.come && !turn.stop {
        Some(net)
    } else {
        None
    }
}

#[test]
fn one_connection_sends_one_request(rt: HostRuntime) {
    let alloc = rt.alloc();
    let mut net = begun(alloc, 1).expect(&rt, "the net");
    let text = play(alloc, &mut net, 1, End::Done).expect(&rt, "the connection");
    assert_eq!(rt; text.as_slice(), REQUEST);
    let told = summary(alloc, net.closed()).expect(&rt, "the text");
    assert_eq!(rt; told.as_slice(), SUMMARY);
}

#[test]
fn two_connections_send_three_requests(rt: HostRuntime) {
    let alloc = rt.alloc();
    let mut net = begun(alloc, 2).expect(&rt, "the net");
    let one = play(alloc, &mut net, 1, End::ShutDown).expect(&rt, "the first");
    let two = play(alloc, &mut net, 2, End::Done).expect(&rt, "the second");
    assert_eq!(rt; one.len() + two.len(), 305);
    let sums = sums_of(net.closed());
    assert_eq!(rt;
        (sums.connections, sums.requests, sums.bytes_in, sums.done),
        (2, 3, 305, 1)
    );
}
