//! Serves one busy connection among idle ones, and prints what was sent.
//!
//! With the words CONNECTIONS TURNS it makes so many turns with so many connections; with none it
//! makes twenty turns with each of a few numbers.
#![tactic(auto)]

mod crowd;

use crowd::CrowdNet;
use itoa::Buffer;
use outside::{MemSink, MemSpills, MemTree, MemTrigger};
use std::alloc::{AllocError, Global};
use std::env;
use std::io::Write;
use std::process::ExitCode;
use std::sync::Wait;
use std::thread::Threads;
use waitress_serve::run;

const CROWDS: [u32; 3] = [1, 100, 1000];

const WORDS: [&str; 3] = ["--threads=0", "--connection-limit=1000", "echo"];

fn put(text: &mut Vec<u8>, label: &str, number: u64) -> Result<(), AllocError> {
    text.extend_from_slice(label.as_bytes())?;
    text.extend_from_slice(Buffer::new().format(number).as_bytes())
}

// What a run with so many connections and turns sent.
fn serve<W: Threads + Wait + Sync>(
    rt: &W,
    alloc: Global,
    text: &mut Vec<u8>,
    crowd: u32,
    turns: u64,
) -> Result<(), AllocError> {
    let mut words = Vec::new(alloc);
    for word in WORDS {
        words.push(String::from_str(alloc, word)?)?;
    }
    let mut net = CrowdNet::new(crowd, turns);
    let status = run(
        rt,
        alloc,
        &words,
        &mut net,
        &mut MemTree::new(alloc, Vec::new(alloc), Vec::new(alloc)),
        &mut MemSpills::new(alloc, Vec::new(alloc)),
        &mut MemSink::new(alloc, Vec::new(alloc)),
        &mut MemSink::new(alloc, Vec::new(alloc)),
        &MemTrigger::new(),
    );
    put(text, "connections ", u64::from(crowd))?;
    put(text, " turns ", turns)?;
    put(text, " status ", u64::from(status))?;
    put(text, " sent ", net.sent())?;
    text.extend_from_slice(b"\n")
}

// What the words behind the program's name ask for.
fn asked<W: Threads + Wait + Sync>(
    rt: &W,
    alloc: Global,
    words: &[String],
) -> Result<Vec<u8>, AllocError> {
    let mut text = Vec::new(alloc);
    if let [_, crowd, turns] = words {
        let crowd = crowd.parse().unwrap_or(1);
        let turns = turns.parse().unwrap_or(1);
        serve(rt, alloc, &mut text, crowd, turns)?;
        return Ok(text);
    }
    for crowd in CROWDS {
        serve(rt, alloc, &mut text, crowd, 20)?;
    }
    Ok(text)
}

fn main(rt: HostRuntime) -> ExitCode {
    let alloc = rt.alloc();
    let mut words = Vec::new(alloc);
    if let Ok(all) = env::args(&rt) {
        for word in all {
            if words.push(word).is_err() {
                return ExitCode::from(5);
            }
        }
    }
    match asked(&rt, alloc, &words) {
        Ok(text) if rt.stdout().write_all(&text).is_ok() => ExitCode::from(0),
        _ => ExitCode::from(5),
    }
}
