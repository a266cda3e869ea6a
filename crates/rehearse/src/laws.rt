//! What holds of every rehearsal, and of every turn. These functions do nothing: their clauses are
//! the laws.
ghost use Rattle.std.specs.Prelude.{◌≡◌, ◌<◌, ◌≤◌, ◌^◌, ℕ, List, length, true};
ghost use Rattle.std.specs.List.{list_any};
ghost use Rattle.channel.specs.Views.{View};
ghost use Rattle.outside.specs.Net.{NetState};
ghost use Rattle.poll_loop.specs.Lists.{EachIs};
ghost use Rattle.poll_loop.specs.NoIdle.{Serving};
ghost use Rattle.poll_loop.specs.Seat.{eyes_of};
ghost use Rattle.rehearsal.specs.Plans.{link_plan};
ghost use Rattle.rehearsal.specs.Requests.{input_of};
ghost use Rattle.rehearse.specs.Between.{IsEven, TurnsFlow};
ghost use Rattle.rehearse.specs.Falling.{AreWithin, Falls, IsCounted, Measure, TurnsFall, bound_of};
ghost use Rattle.rehearse.specs.Falling.{measure, number_of};
ghost use Rattle.request_stream.specs.Units.{bytes_of, closing, units};
ghost use Rattle.request_stream.specs.declared.types.Limits.{Limits};

use head_grammar::one_end;
use outside::Net;
use request_stream::units_follow;

/// Where all that a connection sends has come, something was asked for behind which nothing is.
pub fn inputs_close()
    ensures { (limits : Limits) (x : List (ℕ × ℕ)) (connection : ℕ) → 0 < limits.max_head →
        connection < 2 ^ 64 → bytes_of x ≡ input_of connection →
        list_any closing (units limits x) ≡ true }
{
    one_end();
    units_follow();
}

/// Between two moments at which a rehearsal is under way, a turn puts nothing off.
pub fn turns_flow<A, R>()
    ensures { TurnsFlow A R }
{}

/// Numbers of which the first that changed fell make one number that fell, where each but the first
/// is below a bound.
pub fn numbers_fall()
    ensures { (bound : ℕ) (new old : Measure) → AreWithin bound new → Falls new old →
        number_of bound new < number_of bound old }
{}

/// With counts of 64 bits each number but the first is below a bound.
pub fn numbers_within()
    ensures { (limit whole whole' waiting : ℕ) (channels : List View) → length channels ≤ limit →
        whole' ≤ whole → EachIs IsCounted channels →
        AreWithin (bound_of limit whole) (measure waiting whole' channels) }
{}

/// No link of a rehearsal ends or puts anything off, and what it gives closes its connection.
pub fn plans_are_even()
    ensures { (connection : ℕ) → connection < 2 ^ 64 → IsEven (link_plan connection) }
{
    inputs_close();
}

/// A turn that lets serving go on, and in which nothing puts off a channel, makes six numbers
/// fall: the comers that wait, the open channels, the bytes that are to arrive, and what is left
/// of units, of steps and of bytes to be sent.
pub fn turns_fall<N: Net, A, R>()
    ensures { (net : N) (before now : Serving N.Link A R) (old new : NetState N.Link N.Link.Plan) →
        TurnsFall (eyes_of N.Link.Link) before now (N.nobody net) old new }
{}
