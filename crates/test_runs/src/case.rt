// A whole run over a net in memory.
ghost use Rattle.std.specs.Prelude.{◌<◌, IfOk, length};
ghost use Rattle.outside.specs.Moments.{NeverFalls};

use crate::disk::{File, tree_of};
use crate::texts::{ANSWER, REQUEST, SERVING};
use in_memory::{Memory, run_in_memory};
use outside::{Bytes, Comer, End, Items, LinkPlan, MemNet, MemSink, MemSpills, NetPlan, Peer};
use std::alloc::{AllocError, Global};
use std::process::Abort;
use std::sync::Wait;
use std::test::Fail;
use std::thread::Threads;

pub(crate) const SUNDAY: u64 = 784_111_777;

// Who comes, what fails, and what the run leaves.
#[derive(Clone, Copy)]
pub(crate) struct Case<'a> {
    // the words, with | between them
    pub(crate) words: &'a str,
    // the moment of all turns, but for that of the first where it is earlier
    pub(crate) moment: u64,
    pub(crate) begins_earlier: bool,
    // how much later than that the turns from 7 on are
    pub(crate) late: u64,
    pub(crate) stop_at: Option<u64>,
    pub(crate) bind_fails: bool,
    // the number of the poll, and of the accept, that fails, from 0
    pub(crate) poll_fails: Option<u64>,
    pub(crate) accept_fails: Option<u64>,
    pub(crate) out_fails: bool,
    pub(crate) err_fails: bool,
    // whence the one connection comes, and what it sends, if there is one
    pub(crate) from: &'a [u8],
    pub(crate) input: Option<&'a [u8]>,
    pub(crate) ends: bool,
    // so many of its first recvs give at most `cut` bytes, and the first send takes at most `takes`
    pub(crate) cuts: usize,
    pub(crate) cut: u32,
    pub(crate) takes: u32,
    pub(crate) second_send_fails: bool,
    pub(crate) files: &'a [File<'a>],
    // the number of the spill, from 0, whose first write fails
    pub(crate) broken_spill: Option<usize>,
    pub(crate) status: u8,
    // how often the spills failed that were settled
    pub(crate) spill_faults: u64,
    // how often the entries of files failed that were settled
    pub(crate) tree_faults: u64,
    // how many connections were retired
    pub(crate) retired: u8,
    pub(crate) end: End,
    pub(crate) sent: &'a [u8],
    pub(crate) out: &'a [u8],
    pub(crate) err: &'a [u8],
}

// One connection is served.
pub(crate) const SERVED: Case<'static> = Case {
    words: "--threads=0|echo",
    moment: SUNDAY,
    begins_earlier: false,
    late: 0,
    stop_at: None,
    bind_fails: false,
    poll_fails: None,
    accept_fails: None,
    out_fails: false,
    err_fails: false,
    from: b"10.0.0.9",
    input: Some(REQUEST),
    ends: true,
    cuts: 1,
    cut: 8192,
    takes: 8192,
    second_send_fails: false,
    files: &[],
    broken_spill: None,
    status: 0,
    spill_faults: 0,
    tree_faults: 0,
    retired: 1,
    end: End::Done,
    sent: ANSWER,
    out: SERVING,
    err: b"",
};

// Nobody comes.
pub(crate) const ALONE: Case<'static> = Case {
    input: None,
    retired: 0,
    sent: b"",
    ..SERVED
};

// The numbers of the calls that fail.
pub(crate) fn failing(alloc: Global, call: Option<u64>) -> Result<Vec<u64>, AllocError> {
    let mut fails = Vec::new(alloc);
    if let Some(number) = call {
        fails.push(number)?;
    }
    Ok(fails)
}

// The calls that fail of each spill up to the broken one.
fn spill_fails(alloc: Global, broken: Option<usize>) -> Result<Vec<Vec<u64>>, AllocError> {
    let mut fails = Vec::new(alloc);
    if let Some(number) = broken {
        for _ in 0..number {
            fails.push(Vec::new(alloc))?;
        }
        fails.push(failing(alloc, Some(0))?)?;
    }
    Ok(fails)
}

// The first call fails, or none.
fn first(fails: bool) -> Option<u64> {
    if fails { Some(0) } else { None }
}

fn moments(
    alloc: Global,
    moment: u64,
    begins_earlier: bool,
    late: u64,
) -> Result<Items<u64>, AllocError>
    ensures some { IfOk result (λ moments. 0 < length moments) }
    ensures rising { IfOk result (λ moments. NeverFalls moments) }
{
    let first = if begins_earlier {
        moment.saturating_sub(1)
    } else {
        moment
    };
    let last = moment.saturating_add(late);
    Ok(Items::from_vec(vec![in alloc;
        first, moment, moment, moment, moment, moment, moment, last,
    ]?))
}

fn comer(alloc: Global, case: &Case<'_>, input: &[u8]) -> Result<Comer, AllocError> {
    let mut send_fails = Vec::new(alloc);
    if case.second_send_fails {
        send_fails.push(1)?;
    }
    Ok(Comer {
        turn: 0,
        peer: Peer {
            addr: Bytes::from_slice(alloc, case.from)?,
            port: 5000,
            local_port: 8080,
        },
        plan: LinkPlan {
            input: Bytes::from_slice(alloc, input)?,
            ends: case.ends,
            gives: Items::from_vec(vec![in alloc; case.cut; case.cuts]?),
            takes: Items::from_vec(vec![in alloc; case.takes]?),
            recv_fails: Items::from_vec(Vec::new(alloc)),
            send_fails: Items::from_vec(send_fails),
        },
    })
}

fn net(alloc: Global, case: &Case<'_>) -> Result<MemNet, Fail> {
    let mut comers = Vec::new(alloc);
    if let Some(input) = case.input {
        comers.push(comer(alloc, case, input)?)?;
    }
    let plan = NetPlan {
        comers: Items::from_vec(comers),
        moments: moments(alloc, case.moment, case.begins_earlier, case.late)?,
        stop_at: case.stop_at,
        bind_fails: case.bind_fails,
        poll_fails: Items::from_vec(failing(alloc, case.poll_fails)?),
        accept_fails: Items::from_vec(failing(alloc, case.accept_fails)?),
    };
    MemNet::new(alloc, plan).map_err(|_| Fail::from("no memory"))
}

// What is checked of a run is what it leaves, and not what its clauses say.
pub(crate) fn status_of<R: Threads + Wait + AllocGlobal + Sync>(
    rt: &R,
    words: &[String],
    held: &mut Memory,
) -> u8 {
    run_in_memory(rt, rt.alloc(), words, held)
}

// The words that stand between the |.
pub(crate) fn split(alloc: Global, text: &str) -> Result<Vec<String>, AllocError> {
    let mut words = Vec::new(alloc);
    for word in text.split('|') {
        words.push(String::from_str(alloc, word)?)?;
    }
    Ok(words)
}

// Makes the run, and looks at what it left.
pub(crate) fn check<R: Threads + Wait + Abort + AllocGlobal + Sync>(
    rt: &R,
    case: &Case<'_>,
) -> Result<(), Fail> {
    let alloc = rt.alloc();
    let words = split(alloc, case.words)?;
    let mut held = Memory {
        net: net(alloc, case)?,
        tree: tree_of(alloc, case.files)?,
        spills: MemSpills::new(alloc, spill_fails(alloc, case.broken_spill)?),
        out: MemSink::new(alloc, failing(alloc, first(case.out_fails))?),
        err: MemSink::new(alloc, failing(alloc, first(case.err_fails))?),
    };
    let status = status_of(rt, &words, &mut held);
    assert_eq!(rt; status, case.status);
    assert_eq!(rt; held.tree.faults(), case.tree_faults);
    assert_eq!(rt; held.spills.faults(), case.spill_faults);
    assert_eq!(rt; held.out.written(), case.out);
    assert_eq!(rt; held.err.written(), case.err);
    match held.net.closed() {
        [] => assert!(rt; case.retired == 0),
        [entry] => {
            assert!(rt; case.retired == 1);
            assert!(rt; entry.end == case.end);
            assert_eq!(rt; entry.peer.port, 5000);
            assert_eq!(rt; entry.link.sent(), case.sent);
        }
        _ => assert!(rt; false),
    }
    Ok(())
}
