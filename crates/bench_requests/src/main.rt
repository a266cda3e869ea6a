//! Reads many requests of one shape, and prints what was read.
//!
//! With the words SHAPE PIECE BLOCKS as its input it reads so many blocks in pieces of a size; with
//! none it reads a block of each shape in pieces of each size.
#![tactic(auto)]

mod counts;

use bench_shapes::{Job, asked, print, put};
use counts::{Counts, read};
use std::alloc::AllocError;
use std::process::ExitCode;

fn add_line(text: &mut Vec<u8>, job: &Job, counts: &Counts) -> Result<(), AllocError> {
    job.begin_line(text)?;
    put(text, " bytes ", counts.bytes)?;
    put(text, " requests ", counts.requests)?;
    put(text, " content ", counts.content)?;
    put(text, " refused ", counts.refused)?;
    text.extend_from_slice(b"\n")
}

fn report(rt: &HostRuntime) -> Result<Vec<u8>, AllocError> {
    let alloc = rt.alloc();
    let mut text = Vec::new(alloc);
    for job in &asked(rt)? {
        match read(alloc, job) {
            Ok(counts) => add_line(&mut text, job, &counts)?,
            Err(_) => return Err(AllocError),
        }
    }
    Ok(text)
}

fn main(rt: HostRuntime) -> ExitCode {
    print(&rt, report(&rt))
}
