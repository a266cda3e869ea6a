//! Answers many requests of one shape with their bodies, and prints what was sent.
//!
//! With the words SHAPE PIECE BLOCKS as its input it answers so many blocks in pieces of a size;
//! with none it answers a block of each shape in pieces of each size.
#![tactic(auto)]

mod answers;
mod server;

use answers::{Counts, answer_all};
use bench_shapes::{Job, asked, print, put};
use std::alloc::AllocError;
use std::process::ExitCode;

fn add_line(text: &mut Vec<u8>, job: &Job, counts: &Counts) -> Result<(), AllocError> {
    job.begin_line(text)?;
    put(text, " bytes ", counts.bytes)?;
    put(text, " requests ", counts.requests)?;
    put(text, " sent ", counts.sent)?;
    put(text, " sum ", counts.sum)?;
    text.extend_from_slice(b"\n")
}

fn report(rt: &HostRuntime) -> Result<Vec<u8>, AllocError> {
    let alloc = rt.alloc();
    let mut text = Vec::new(alloc);
    for job in &asked(rt)? {
        let counts = answer_all(alloc, job)?;
        add_line(&mut text, job, &counts)?;
    }
    Ok(text)
}

fn main(rt: HostRuntime) -> ExitCode {
    print(&rt, report(&rt))
}
