// A whole run over a net in memory to which many come.
ghost use Rattle.std.specs.Prelude.{◌<◌, IfOk, length};
ghost use Rattle.outside.specs.Moments.{NeverFalls};

use crate::case::{SUNDAY, failing, split, status_of};
use crate::disk::{File, tree_of};
use crate::texts::{ANSWER, REQUEST, SERVING};
use in_memory::Memory;
use outside::{
    Bytes, Comer, End, Items, LinkPlan, MemLink, MemNet, MemSink, MemSpills, NetPlan, Peer, Retired,
};
use std::alloc::{AllocError, Global};
use std::process::Abort;
use std::sync::Wait;
use std::test::Fail;
use std::thread::Threads;

const FIRST_PORT: u16 = 5000;

// One of those who come, and how it is to be left.
#[derive(Clone, Copy)]
pub(crate) struct Guest<'a> {
    pub(crate) turn: u64,
    // what it sends, in parts that are joined
    pub(crate) input: &'a [&'a [u8]],
    pub(crate) ends: bool,
    // at most how many bytes its recvs give and its sends take, each list so many times over
    pub(crate) gives: &'a [u32],
    pub(crate) takes: &'a [u32],
    pub(crate) times: usize,
    // so many sends behind them take nothing
    pub(crate) stuck: usize,
    // the number of the recv, and of the send, that fails, from 0
    pub(crate) recv_fails: Option<u64>,
    pub(crate) send_fails: Option<u64>,
    pub(crate) end: End,
    // what it is sent, in parts that are joined
    pub(crate) sent: &'a [&'a [u8]],
}

// Who comes, and how a run without a fault of its own leaves them.
#[derive(Clone, Copy)]
pub(crate) struct Crowd<'a> {
    // the words, with | between them
    pub(crate) words: &'a str,
    // how much later each of the turns 1 to 7 is than the one before
    pub(crate) later: [u64; 7],
    pub(crate) stop_at: Option<u64>,
    pub(crate) files: &'a [File<'a>],
    // how often the entries of files failed that were settled
    pub(crate) tree_faults: u64,
    pub(crate) guests: &'a [Guest<'a>],
    // so many at the end of the list are never accepted
    pub(crate) absent: usize,
    // how many calls of accept there are, where that is settled
    pub(crate) asked: Option<u64>,
    // whether they are retired in the order of the list
    pub(crate) in_order: bool,
}

// It sends one request, and is answered.
pub(crate) const ONE: Guest<'static> = Guest {
    turn: 0,
    input: &[REQUEST],
    ends: true,
    gives: &[],
    takes: &[],
    times: 1,
    stuck: 0,
    recv_fails: None,
    send_fails: None,
    end: End::Done,
    sent: &[ANSWER],
};

// Both of them are served.
pub(crate) const TWO: Crowd<'static> = Crowd {
    words: "--threads=0|echo",
    later: [0, 0, 0, 0, 0, 0, 0],
    stop_at: None,
    files: &[],
    tree_faults: 0,
    guests: &[ONE, ONE],
    absent: 0,
    asked: None,
    in_order: false,
};

fn joined(alloc: Global, parts: &[&[u8]]) -> Result<Vec<u8>, AllocError> {
    let mut bytes = Vec::new(alloc);
    for part in parts {
        bytes.extend_from_slice(part)?;
    }
    Ok(bytes)
}

fn repeated(alloc: Global, numbers: &[u32], times: usize) -> Result<Vec<u32>, AllocError> {
    let mut list = Vec::new(alloc);
    for _ in 0..times {
        list.extend_from_slice(numbers)?;
    }
    Ok(list)
}

fn moments(alloc: Global, later: [u64; 7]) -> Result<Items<u64>, AllocError>
    ensures some { IfOk result (λ moments. 0 < length moments) }
    ensures rising { IfOk result (λ moments. NeverFalls moments) }
{
    let first = SUNDAY.saturating_add(later[0]);
    let second = first.saturating_add(later[1]);
    let third = second.saturating_add(later[2]);
    let fourth = third.saturating_add(later[3]);
    let fifth = fourth.saturating_add(later[4]);
    let sixth = fifth.saturating_add(later[5]);
    let last = sixth.saturating_add(later[6]);
    Ok(Items::from_vec(vec![in alloc; SUNDAY, first, second, third, fourth, fifth, sixth, last]?))
}

fn plan_of(alloc: Global, guest: &Guest<'_>) -> Result<LinkPlan, AllocError> {
    let mut takes = repeated(alloc, guest.takes, guest.times)?;
    for _ in 0..guest.stuck {
        takes.push(0)?;
    }
    Ok(LinkPlan {
        input: Bytes::from_vec(joined(alloc, guest.input)?),
        ends: guest.ends,
        gives: Items::from_vec(repeated(alloc, guest.gives, guest.times)?),
        takes: Items::from_vec(takes),
        recv_fails: Items::from_vec(failing(alloc, guest.recv_fails)?),
        send_fails: Items::from_vec(failing(alloc, guest.send_fails)?),
    })
}

// Each of them comes from a port of its own.
fn comers(alloc: Global, guests: &[Guest<'_>]) -> Result<Vec<Comer>, AllocError> {
    let mut comers = Vec::new(alloc);
    let mut port = FIRST_PORT;
    for guest in guests {
        comers.push(Comer {
            turn: guest.turn,
            peer: Peer {
                addr: Bytes::from_slice(alloc, b"10.0.0.9")?,
                port,
                local_port: 8080,
            },
            plan: plan_of(alloc, guest)?,
        })?;
        port = port.saturating_add(1);
    }
    Ok(comers)
}

fn net(alloc: Global, crowd: &Crowd<'_>) -> Result<MemNet, Fail> {
    let comers = comers(alloc, crowd.guests)?;
    if comers.len() > 1000 {
        return Err(Fail::from("too many"));
    }
    let plan = NetPlan {
        comers: Items::from_vec(comers),
        moments: moments(alloc, crowd.later)?,
        stop_at: crowd.stop_at,
        bind_fails: false,
        poll_fails: Items::from_vec(Vec::new(alloc)),
        accept_fails: Items::from_vec(Vec::new(alloc)),
    };
    MemNet::new(alloc, plan).map_err(|_| Fail::from("no memory"))
}

// The one that came from this port.
fn entry_of(closed: &[Retired<MemLink>], port: u16) -> Option<&Retired<MemLink>> {
    for entry in closed {
        if entry.peer.port == port {
            return Some(entry);
        }
    }
    None
}

// What is left of one of them.
fn check_guest<R: Abort + AllocGlobal>(
    rt: &R,
    guest: &Guest<'_>,
    entry: Option<&Retired<MemLink>>,
) -> Result<(), Fail> {
    let sent = joined(rt.alloc(), guest.sent)?;
    match entry {
        Some(entry) => {
            assert!(rt; entry.end == guest.end);
            assert_eq!(rt; entry.link.sent(), sent.as_slice());
        }
        None => assert!(rt; false),
    }
    Ok(())
}

fn check_guests<R: Abort + AllocGlobal>(
    rt: &R,
    crowd: &Crowd<'_>,
    closed: &[Retired<MemLink>],
) -> Result<(), Fail> {
    let count = crowd.guests.len().saturating_sub(crowd.absent);
    assert_eq!(rt; closed.len(), count);
    let mut port = FIRST_PORT;
    for i in 0..count {
        let entry = if crowd.in_order {
            closed.get(i)
        } else {
            entry_of(closed, port)
        };
        match crowd.guests.get(i) {
            Some(guest) => check_guest(rt, guest, entry)?,
            None => {}
        }
        if let Some(entry) = entry {
            assert_eq!(rt; entry.peer.port, port);
        }
        port = port.saturating_add(1);
    }
    Ok(())
}

// Makes the run, and looks at what it left.
pub(crate) fn check_crowd<R: Threads + Wait + Abort + AllocGlobal + Sync>(
    rt: &R,
    crowd: &Crowd<'_>,
) -> Result<(), Fail> {
    let alloc = rt.alloc();
    let words = split(alloc, crowd.words)?;
    let mut held = Memory {
        net: net(alloc, crowd)?,
        tree: tree_of(alloc, crowd.files)?,
        spills: MemSpills::new(alloc, Vec::new(alloc)),
        out: MemSink::new(alloc, Vec::new(alloc)),
        err: MemSink::new(alloc, Vec::new(alloc)),
    };
    let status = status_of(rt, &words, &mut held);
    assert_eq!(rt; status, 0);
    assert_eq!(rt; held.tree.faults(), crowd.tree_faults);
    assert_eq!(rt; held.out.written(), SERVING);
    assert!(rt; held.err.written().is_empty());
    if let Some(asked) = crowd.asked {
        assert_eq!(rt; held.net.asked(), asked);
    }
    check_guests(rt, crowd, held.net.closed())
}
