//! Serving, from a server without connections to its end.
ghost use Rattle.std.specs.Prelude.{◌≡◌, ◌≤◌, ◌<◌, All, IsTrue, length};
ghost use Rattle.channel.specs.Views.{telling};
ghost use Rattle.poll_loop.specs.Accounts.{ServeCause, ServeEnds};
ghost use Rattle.poll_loop.specs.Connections.{HasBroken, service_by};
ghost use Rattle.poll_loop.specs.Seat.{eyes_of};
ghost use Rattle.poll_loop.specs.Settings.{AreUsable};
ghost use Rattle.waitress_serve.specs.Conclusions.{ServedAll, conclusion_of};
ghost use Rattle.waitress_serve.specs.Headline.{KeepsLimit};

use crate::conclusion::Conclusion;
use outside::{Net, Spills};
use poll_loop::{Going, ServeFault, Server, Settings};
use std::alloc::Global;
use std::sync::Wait;
use wsgi::App;

/// Serves until a poll tells to stop, the serve limit is met, the net fails or memory is refused.
/// The runs that failed are handed out.
pub(crate) fn serve<W: Wait, N: Net, P: Spills, A: App<P::Spill>>(
    rt: &W,
    alloc: Global,
    app: &A,
    settings: &Settings,
    net: &mut N,
    spills: &mut P,
) -> (Result<Going, ServeFault>, Vec<A::Run>)
    requires usable { AreUsable settings.now }
    ensures served { IsTrue N.tells → ServedAll result.0
        (service_by (telling N.Link.tells P.Spill.tells A.tells) A.script settings.now app.now)
        (HasBroken A.Run.faults) (length result.1.items)
        (eyes_of N.Link.Link)
        (P.faults spills.old) (P.faults spills.new) (N.state net.old) (N.state net.new) }
    ensures ends { IsTrue N.tells → ServeEnds result.0 settings.now.serve_limit 0 (N.state net.old)
        (N.state net.new) }
    ensures limited { IsTrue N.tells → KeepsLimit settings.now.serve_limit (N.state net.old)
        (N.state net.new) }
    ensures broke { All (λ run. 0 < A.Run.faults run) result.1.items }
    ensures cause { ServeCause result.0 (N.poll_faults net.old) (N.poll_faults net.new) }
    ensures bind { N.bind_faults net.new ≡ N.bind_faults net.old }
    ensures plan { N.plan net.new ≡ N.plan net.old }
    ensures spills { P.faults spills.old ≤ P.faults spills.new }
{
    let Ok(mut server) = Server::new(alloc, app, settings) else {
        return (Err(ServeFault::NoMemory), Vec::new(alloc));
    };
    let ended = server.serve(rt, net, spills);
    (ended, server.failed())
}

/// How a command ended that served.
pub(crate) fn conclude(ended: Result<Going, ServeFault>) -> Conclusion
    ensures { result ≡ conclusion_of ended }
{
    match ended {
        Ok(_) => Conclusion::Done,
        Err(ServeFault::Net) => Conclusion::PollFailed,
        Err(ServeFault::NoMemory) => Conclusion::NoMemory,
    }
}
