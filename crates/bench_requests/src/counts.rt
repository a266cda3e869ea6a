//! What a stream gave.
use bench_shapes::Job;
use outside::{MemSpill, MemSpills};
use request_stream::{Limits, Stream, StreamFault, Unit};
use std::alloc::Global;

/// What was read.
#[derive(Clone, Copy, Debug)]
pub struct Counts {
    pub bytes: u64,
    pub requests: u64,
    /// The bytes of all bodies.
    pub content: u64,
    pub refused: u64,
}

const NONE: Counts = Counts {
    bytes: 0,
    requests: 0,
    content: 0,
    refused: 0,
};

const LIMITS: Limits = Limits {
    max_head: 262_144,
    max_body: 1_073_741_824,
    inbuf_overflow: 524_288,
};

fn count(counts: &mut Counts, units: Vec<Unit<MemSpill>>) {
    for unit in units {
        match unit {
            Unit::Continue => {}
            Unit::Refused(_) => counts.refused = counts.refused.wrapping_add(1),
            Unit::Request(request) => {
                counts.requests = counts.requests.wrapping_add(1);
                counts.content = counts.content.wrapping_add(request.length);
            }
        }
    }
}

/// Feeds what a job is of, and counts what comes out.
pub fn read(alloc: Global, job: &Job) -> Result<Counts, StreamFault<MemSpill>> {
    let block = job.block(alloc)?;
    let mut spills = MemSpills::new(alloc, Vec::new(alloc));
    let mut stream = Stream::new(alloc, LIMITS);
    let mut counts = NONE;
    for _ in 0..job.blocks {
        for part in block.chunks(job.piece.max(1)) {
            let units = stream.feed(alloc, 0, part, &mut spills)?;
            count(&mut counts, units);
            counts.bytes = counts.bytes.wrapping_add(part.len() as u64);
        }
    }
    Ok(counts)
}
