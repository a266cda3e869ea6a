//! The theorem of the program, where all that it touches stands in memory and so tells what it
//! holds.
#![tactic(auto)]

ghost use Rattle.std.specs.Prelude.{◌≡◌, ◌≢◌, ◌⊎◌, true};
ghost use Rattle.adjust.specs.Command.{command};
ghost use Rattle.adjust.specs.CommandLine.{words_of};
ghost use Rattle.in_memory.specs.Theorem.{EndsFor, HasStatus, IsSentFront, StaysSound, reasons};
ghost use Rattle.waitress_serve.specs.Completeness.{Completes};
ghost use Rattle.waitress_serve.specs.Headline.{Added, KeepsLimit, RetiresGiven, SettlesRuns};
ghost use Rattle.waitress_serve.specs.Headline.{SettlesSpills, ShutLast};
ghost use Rattle.waitress_serve.specs.Owed.{owed};
ghost use Rattle.waitress_serve.specs.Reports.{Reports, Writes};
ghost use Rattle.waitress_serve.specs.Status.{WritesPart, limit_by, printed};

use outside::{MemNet, MemSink, MemSpills, MemTree, MemTrigger};
use std::alloc::Global;
use std::sync::Wait;
use std::thread::Threads;
use waitress_serve::run;

/// All that the program touches.
#[derive(Drop)]
pub struct Memory {
    pub net: MemNet,
    pub tree: MemTree,
    pub spills: MemSpills,
    pub out: MemSink,
    pub err: MemSink,
}

/// Does all that the program does, and answers its status.
pub fn run_in_memory<W: Threads + Wait + Sync>(
    rt: &W,
    alloc: Global,
    words: &[String],
    held: &mut Memory,
) -> u8
    // Each connection was sent the front of what it is owed for what arrived.
    ensures fronts { Added (IsSentFront (owed (words_of words.now) held.old.tree.files))
        held.old.net.state.closed held.new.net.state.closed }

    // One that ended with less had a fault of its link, of a spill or of a file, was refused
    // memory, kept the server waiting for too long, or was open when the server went down. The
    // faults of spills and of files are counted.
    ensures ends { Added (EndsFor (words_of words.now) held.old.tree.files
        (reasons (words_of words.now) result held.old.net.state held.new.net.state
        held.old.err.faults held.new.err.faults) held.new.net.state)
        held.old.net.state.closed held.new.net.state.closed }
    ensures spills { SettlesSpills held.old.spills.faults held.new.spills.faults
        held.old.net.state.closed held.new.net.state.closed }
    ensures runs { SettlesRuns held.old.tree.faults held.new.tree.faults
        held.old.net.state.closed held.new.net.state.closed }

    // Whoever came was retired, and nobody else; no more than are to be served; and those that were
    // shut down come last.
    ensures given { RetiresGiven (λ link. link.plan) held.old.net.state held.new.net.state }
    ensures limited { KeepsLimit (limit_by (command (words_of words.now))) held.old.net.state
        held.new.net.state }
    ensures shut_last { (held.new.net.state.closed ≡ held.old.net.state.closed)
        ⊎ ShutLast held.old.net.state held.new.net.state }

    // Where nothing fails and it is over within the timeout, the status is 0 or 5; with 0 each was
    // sent all that it is owed, or was refused memory.
    ensures complete { StaysSound (words_of words.now) held.old held.new →
        Completes (λ link. link.state) (λ link. link.faults)
        (owed (words_of words.now) held.old.tree.files) result
        held.old.net.state.closed held.new.net.state.closed }

    // Each status has its cause and its text, and what is printed is what the words print.
    ensures status { HasStatus (words_of words.now) held.old held.new result }
    ensures err_text { result ≢ 6 → Writes
        (Reports true held.old.tree.faults held.new.tree.faults held.old.tree.files
        (command (words_of words.now)) result)
        held.old.err.written held.new.err.written }
    ensures out_text { WritesPart (printed (command (words_of words.now)))
        held.old.out.written held.new.out.written }

    // The files stay as they are.
    ensures files { held.new.tree.files ≡ held.old.tree.files }
{
    run(
        rt,
        alloc,
        words,
        &mut held.net,
        &mut held.tree,
        &mut held.spills,
        &mut held.out,
        &mut held.err,
        &MemTrigger::new(),
    )
}
