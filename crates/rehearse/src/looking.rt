//! What open and retired connections tell of themselves. These functions only ask: their clauses
//! are what is known then.
ghost use Rattle.outside.specs.MemLink.{KeepsToPlan};
ghost use Rattle.outside.specs.MemNet.{KeepsToNetPlan};
ghost use Rattle.poll_loop.specs.Lists.{EachIs};
ghost use Rattle.poll_loop.specs.Server.{serving};
ghost use Rattle.rehearse.specs.Looked.{IsSound};

use channel::Lane;
use outside::{MemLink, MemNet, MemSpill, MemSpills, Retired};
use poll_loop::Server;
use wsgi::App;

fn ask<'a, A: App<MemSpill>>(lane: &Lane<'a, MemLink, A, MemSpill>)
    ensures { IsSound lane.now }
{
    let _arrivals = lane.link().arrivals();
    let _finished = lane.finished();
    let _units = lane.unit_count();
    let _left = lane.left();
    let _output = lane.output_len();
}

/// Asks each open connection.
pub(crate) fn look<'a, A: App<MemSpill>>(server: &Server<'a, MemNet, A, MemSpills>, net: &MemNet)
    ensures sound { EachIs IsSound (serving server.now).open' }
    ensures kept { KeepsToNetPlan net.now }
{
    for place in 0..server.lane_count() {
        match server.lane(place) {
            Some(lane) => ask(lane),
            None => {}
        }
    }
    let _closed = net.closed();
}

/// Asks the net, and each connection that it retired.
pub(crate) fn look_back(net: &MemNet)
    ensures links { EachIs (λ entry. KeepsToPlan entry.link) net.now.state.closed }
    ensures kept { KeepsToNetPlan net.now }
{
    for entry in net.closed() {
        let _arrivals = entry.link.arrivals();
    }
}
