//! Serves until everybody who came is retired.
ghost use Rattle.std.specs.Prelude.{◌≡◌, ◌≢◌, ◌<◌, ◌++◌, ◌⊎◌, [], IsTrue, None, OnOk};
ghost use Rattle.outside.specs.Causes.{Rose};
ghost use Rattle.poll_loop.specs.Connections.{HasBroken};
ghost use Rattle.poll_loop.specs.Server.{Stands, serving};
ghost use Rattle.poll_loop.specs.Settings.{AreUsable};
ghost use Rattle.rehearsal.specs.Summary.{summary_text};
ghost use Rattle.rehearsal.specs.Sums.{sums_of};
ghost use Rattle.rehearse.specs.Between.{mem_eyes};
ghost use Rattle.rehearse.specs.Rehearsed.{IsRehearsal, Rehearsed, WritesPart, holds_of};

use crate::laws::plans_are_even;
use crate::looking::{look, look_back};
use crate::printing::print;
use outside::{MemNet, MemSpill, MemSpills, NoMemory, Sink};
use poll_loop::{Going, ServeFault, Server, Settings};
use std::alloc::Global;
use wsgi::App;

// Makes turns until nobody is left.
fn make_turns<'a, A: App<MemSpill>>(
    server: &mut Server<'a, MemNet, A, MemSpills>,
    net: &mut MemNet,
    spills: &mut MemSpills,
) -> Result<(), NoMemory>
    requires stands { Stands mem_eyes A.Run.faults server.old }
    requires nobody { (serving server.old).open' ≡ [] }
    requires room { 0 < (serving server.old).settings.connection_limit }
    requires unlimited { (serving server.old).settings.serve_limit ≡ None }
    requires rehearsal { IsRehearsal net.old }
    ensures { OnOk result (Rehearsed
        (holds_of A.tells A.script A.Run.faults (serving server.old).settings
        (serving server.old).app)
        (HasBroken A.Run.faults) net.old net.new) }
{
    plans_are_even();
    loop {
        let going = server.turn(net, spills);
        look(server, net);
        match going {
            Ok(Going::On) => {}
            Ok(Going::Stopped) => {
                look_back(net);
                return Ok(());
            }
            Err(ServeFault::NoMemory) => return Err(NoMemory),
            Ok(Going::LimitMet) => unreachable!(),
            Err(ServeFault::Net) => unreachable!(),
        }
    }
}

fn serve<A: App<MemSpill>>(
    alloc: Global,
    app: &A,
    settings: &Settings,
    net: &mut MemNet,
) -> Result<(), NoMemory>
    requires usable { AreUsable settings.now }
    requires room { 0 < settings.now.connection_limit }
    requires unlimited { settings.now.serve_limit ≡ None }
    requires rehearsal { IsRehearsal net.old }
    ensures { OnOk result (Rehearsed
        (holds_of A.tells A.script A.Run.faults settings.now app.now)
        (HasBroken A.Run.faults) net.old net.new) }
{
    let mut spills = MemSpills::new(alloc, Vec::new(alloc));
    let Ok(mut server) = Server::<MemNet, A, MemSpills>::new(alloc, app, settings) else {
        return Err(NoMemory);
    };
    make_turns(&mut server, net, &mut spills)
}

/// Serves the connections of a rehearsal, and prints the sums. Answers 0 where all is printed, 5
/// where memory was refused, and 6 where `out` failed.
pub fn rehearse<A: App<MemSpill>, C: Sink>(
    alloc: Global,
    app: &A,
    settings: &Settings,
    net: &mut MemNet,
    out: &mut C,
) -> u8
    requires usable { AreUsable settings.now }
    requires room { 0 < settings.now.connection_limit }
    requires unlimited { settings.now.serve_limit ≡ None }
    requires rehearsal { IsRehearsal net.old }

    // Each connection that was to come was sent a prefix of what it is owed, and its end has its
    // cause.
    ensures served { result ≢ 5 → Rehearsed
        (holds_of A.tells A.script A.Run.faults settings.now app.now)
        (HasBroken A.Run.faults) net.old net.new }

    // What is written.
    ensures zero { result ≡ 0 → C.faults out.new ≡ C.faults out.old }
    ensures whole { IsTrue C.tells → result ≡ 0 → C.written out.new
        ≡ C.written out.old ++ summary_text (sums_of net.new.state.closed) }
    ensures five { result ≡ 5 → C.faults out.new ≡ C.faults out.old }
    ensures nothing { IsTrue C.tells → result ≡ 5 → C.written out.new ≡ C.written out.old }
    ensures six { result ≡ 6 → Rose (C.faults out.old) (C.faults out.new) }
    ensures part { IsTrue C.tells → result ≡ 6 → WritesPart
        (summary_text (sums_of net.new.state.closed)) (C.written out.old) (C.written out.new) }
    ensures no_other { (result ≡ 0) ⊎ (result ≡ 5) ⊎ (result ≡ 6) }
{
    match serve(alloc, app, settings, net) {
        Ok(()) => print(alloc, net.closed(), out),
        Err(NoMemory) => 5,
    }
}
