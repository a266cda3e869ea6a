//! From bytes of requests to bytes of answers.
ghost use Rattle.std.specs.Prelude.{IsTrue};
ghost use Rattle.proxy_trust.specs.Rules.{IsSound};
ghost use Rattle.task_core.specs.Steps.{is_under_way};

use crate::server::{peer, site};
use apps::{Echo, EchoRun};
use bench_shapes::Job;
use outside::{MemSpill, MemSpills, Peer, Spills};
use request_stream::{Limits, Request, Stream, Unit};
use std::alloc::{AllocError, Global};
use task_core::Task;
use wsgi::{App, AppRun, Site, environ};

const LIMITS: Limits = Limits {
    max_head: 262_144,
    max_body: 1_073_741_824,
    inbuf_overflow: 524_288,
};

/// When all bytes come: Sun, 06 Nov 1994 08:49:37 GMT.
const MOMENT: u64 = 784_111_777;

/// What was answered.
#[derive(Clone, Copy, Debug)]
pub struct Counts {
    pub bytes: u64,
    pub requests: u64,
    /// The bytes of all answers.
    pub sent: u64,
    /// The sum of the bytes of the answers to the last block.
    pub sum: u64,
}

const NONE: Counts = Counts {
    bytes: 0,
    requests: 0,
    sent: 0,
    sum: 0,
};

// Sends what the steps of a run make, and gives the spill back.
fn send(
    alloc: Global,
    task: Task,
    run: EchoRun<MemSpill>,
    out: &mut Vec<u8>,
) -> Result<MemSpill, AllocError>
    requires { IsTrue (is_under_way task) }
{
    let mut task = task;
    let mut run = run;
    for _ in 0..=run.left() {
        let step = run.next(alloc).map_err(|_| AllocError)?;
        let wrote = task.step(alloc, step).map_err(|_| AllocError)?;
        out.extend_from_slice(wrote.head.as_slice())?;
        out.extend_from_slice(wrote.body.as_slice())?;
        if wrote.ended.is_some() {
            break;
        }
    }
    Ok(run.into_spill())
}

fn answer(
    alloc: Global,
    site: &Site,
    peer: &Peer,
    request: Request<MemSpill>,
    out: &mut Vec<u8>,
) -> Result<MemSpill, AllocError>
    requires { IsSound site.now.rules }
{
    let Request {
        head,
        length,
        body,
        moment,
    } = request;
    let environ = environ(alloc, site, peer, &head, length).map_err(|_| AllocError)?;
    let task = Task::new(alloc, &head, moment, &site.ident).map_err(|_| AllocError)?;
    let run = Echo.open(alloc, environ, body).map_err(|_| AllocError)?;
    send(alloc, task, run, out)
}

fn sum_of(bytes: &[u8]) -> u64 {
    let mut sum: u64 = 0;
    for byte in bytes {
        sum = sum.wrapping_add(u64::from(*byte));
    }
    sum
}

/// Feeds what a job is of, and answers what comes out.
pub fn answer_all(alloc: Global, job: &Job) -> Result<Counts, AllocError> {
    let block = job.block(alloc)?;
    let site = site(alloc)?;
    let peer = peer(alloc)?;
    let mut spills = MemSpills::new(alloc, Vec::new(alloc));
    let mut stream = Stream::new(alloc, LIMITS);
    let mut out = Vec::new(alloc);
    let mut counts = NONE;
    for _ in 0..job.blocks {
        out.clear();
        for part in block.chunks(job.piece.max(1)) {
            counts.bytes = counts.bytes.wrapping_add(part.len() as u64);
            let units = stream
                .feed(alloc, MOMENT, part, &mut spills)
                .map_err(|_| AllocError)?;
            for unit in units {
                if let Unit::Request(request) = unit {
                    spills.settle(answer(alloc, &site, &peer, request, &mut out)?);
                    counts.requests = counts.requests.wrapping_add(1);
                }
            }
        }
        counts.sent = counts.sent.wrapping_add(out.len() as u64);
    }
    counts.sum = sum_of(&out);
    Ok(counts)
}
