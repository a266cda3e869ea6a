//! Turns, one after the other.
ghost use Rattle.std.specs.Prelude.{◌≡◌, ◌≢◌, ◌↔◌, ◌⊎◌, [], IsTrue, Ok, false, length};
ghost use Rattle.outside.specs.Causes.{raised};
ghost use Rattle.poll_loop.specs.Accounts.{LastKnows, ServeCause, ServeEnds};
ghost use Rattle.poll_loop.specs.Connections.{CameMore};
ghost use Rattle.poll_loop.specs.NoIdle.{Hosts, NoIdle};
ghost use Rattle.poll_loop.specs.Seat.{eyes_of};
ghost use Rattle.poll_loop.specs.Server.{EndsAccounts, IsSameServing, KeepsAccounts, LeavesRest};
ghost use Rattle.poll_loop.specs.Server.{Stands, serving};
ghost use Rattle.poll_loop.specs.declared.settings.Going.TheVariants as going;

use crate::retiring::shut_down;
use crate::server::Server;
use crate::settings::{Going, ServeFault};
use outside::{Net, Spills};
use std::sync::Wait;
use wsgi::App;

// Whether serving goes on behind a turn.
fn goes_on(answer: &Result<Going, ServeFault>) -> bool
    ensures { IsTrue result ↔ (answer.now ≡ Ok going.On) }
{
    matches!(answer, Ok(Going::On))
}

impl<'a, N: Net, A: App<P::Spill>, P: Spills> Server<'a, N, A, P> {
    /// Makes one turn: polls, accepts, reads what is ready, makes steps and sends at once what they
    /// wrote, makes the idle check where it is due, and retires what is over. Where it doesn't
    /// answer
    /// `On`, everything that was open is retired.
    pub fn turn(&mut self, net: &mut N, spills: &mut P) -> Result<Going, ServeFault>
        requires stands { Stands (eyes_of N.Link.Link) A.Run.faults self.old }
        requires hosts { IsTrue N.tells → Hosts (eyes_of N.Link.Link) (N.state net.old)
            (serving self.old).open' }
        ensures no_idle { result ≡ Ok going.On → IsTrue N.tells → IsTrue N.Link.tells →
            NoIdle (eyes_of N.Link.Link) (serving self.old) (serving self.new) (N.nobody net.new)
            (N.state net.old) (N.state net.new) }
        ensures goes_on { result ≡ Ok going.On → IsTrue N.tells → KeepsAccounts
            N.Link.Link P.Spill.Spill A.App A.Run.AppRun (serving self.old) (serving self.new)
            (N.state net.old) (N.state net.new) (P.faults spills.old) (P.faults spills.new) }
        ensures knows { result ≡ Ok going.On → IsTrue N.tells → LastKnows (N.state net.new) }
        ensures still { IsTrue N.tells → LastKnows (N.state net.old) → LastKnows (N.state net.new) }
        ensures came_more { IsTrue N.tells → CameMore (serving self.old).settings.serve_limit
            (serving self.old).accepted (serving self.new).accepted (length
            (N.state net.old).given) (length (N.state net.new).given) }
        ensures unstopped { result ≡ Ok going.On → IsTrue N.tells →
            (N.state net.new).stopped ≡ false }
        ensures served { result ≢ Ok going.On → IsTrue N.tells → EndsAccounts result
            N.Link.Link P.Spill.Spill A.App A.Run.AppRun (serving self.old) (serving self.new)
            (N.state net.old) (N.state net.new) (P.faults spills.old) (P.faults spills.new) }
        ensures shut { result ≢ Ok going.On → (serving self.new).open' ≡ [] }
        ensures polls { IsTrue N.tells → ((N.state net.new).polls ≡ (N.state net.old).polls) ⊎
            ((N.state net.new).polls ≡ raised (N.state net.old).polls) }
        ensures hosts { result ≡ Ok going.On → IsTrue N.tells → Hosts (eyes_of N.Link.Link)
            (N.state net.new) (serving self.new).open' }
        ensures ends { IsTrue N.tells → ServeEnds result (serving self.old).settings.serve_limit
            (serving self.old).accepted (N.state net.old) (N.state net.new) }
        ensures cause { ServeCause result (N.poll_faults net.old) (N.poll_faults net.new) }
        ensures same { IsSameServing (serving self.old) (serving self.new) }
        ensures rest { LeavesRest N.Net P.Spills net.old net.new spills.old spills.new }
        ensures stands { Stands (eyes_of N.Link.Link) A.Run.faults self.new }
    {
        match self.step(net, spills) {
            None => Ok(Going::On),
            Some(why) => {
                shut_down(&mut self.connections, self.app, self.settings, net, spills);
                why.answer()
            }
        }
    }

    /// Makes turns until serving ends; then nothing is open.
    pub fn serve<W: Wait>(
        &mut self,
        rt: &W,
        net: &mut N,
        spills: &mut P,
    ) -> Result<Going, ServeFault>
        requires stands { Stands (eyes_of N.Link.Link) A.Run.faults self.old }
        requires hosts { IsTrue N.tells → Hosts (eyes_of N.Link.Link) (N.state net.old)
            (serving self.old).open' }
        ensures ended { result ≢ Ok going.On }
        ensures served { IsTrue N.tells → EndsAccounts result
            N.Link.Link P.Spill.Spill A.App A.Run.AppRun (serving self.old) (serving self.new)
            (N.state net.old) (N.state net.new) (P.faults spills.old) (P.faults spills.new) }
        ensures came_more { IsTrue N.tells → CameMore (serving self.old).settings.serve_limit
            (serving self.old).accepted (serving self.new).accepted (length
            (N.state net.old).given) (length (N.state net.new).given) }
        ensures shut { (serving self.new).open' ≡ [] }
        ensures ends { IsTrue N.tells → ServeEnds result (serving self.old).settings.serve_limit
            (serving self.old).accepted (N.state net.old) (N.state net.new) }
        ensures cause { ServeCause result (N.poll_faults net.old) (N.poll_faults net.new) }
        ensures same { IsSameServing (serving self.old) (serving self.new) }
        ensures rest { LeavesRest N.Net P.Spills net.old net.new spills.old spills.new }
        ensures stands { Stands (eyes_of N.Link.Link) A.Run.faults self.new }
    {
        for _ in rt.forever() {
            let answer = self.turn(net, spills);
            if !goes_on(&answer) {
                return answer;
            }
        }
        unreachable!()
    }
}
