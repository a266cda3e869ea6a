//! The clock of a net.
ghost use Rattle.std.specs.Prelude.{◌≡◌, ◌≤◌, ◌+◌, ◌-◌, ◌/◌, ◌<◌, ◌^◌, IsTrue};
ghost use Rattle.net_real.specs.Moments.{moment_of, KeepsPace};

use std::rt::Clock;
use std::time::Duration;

const SECOND: u64 = 1000000000;

// By which part of the time that passes the clock may be faster or slower than time.
const PACE: u64 = 8;

/// A clock that never goes back and, while somebody's time is measured by it, never leaps.
///
/// It begins at the wall's time and goes on with the monotonic clock, which no one sets. Where the
/// wall's clock has been set meanwhile, it nears it by at most an eighth of the time that passes.
/// So a timeout is off by no more than that, and the date finds back to the wall's.
#[derive(Clone, Copy)]
pub(super) struct SteadyClock {
    // Nanoseconds since 1970, which fit until the year 2554.
    time: u64,
    // What the monotonic clock read then.
    read: u64,
}

fn nanos(time: Duration) -> u64 {
    u64::try_from(time.as_nanos()).unwrap_or(u64::MAX)
}

// Where the clock is once so much time has passed, beside a wall's clock that says this.
fn gone_on(time: u64, passed: u64, wall: u64) -> u64
    ensures later { time ≤ result }
    ensures slow { time + passed < 2 ^ 64 → time + passed ≤ result + passed / 8 }
    ensures fast { result ≤ time + passed + passed / 8 }
    ensures near { time + passed ≤ wall + passed / 8 → wall ≤ time + passed + passed / 8 →
        wall < 2 ^ 64 → time + passed < 2 ^ 64 → result ≡ wall }
{
    let steady = time.saturating_add(passed);
    let leeway = passed / PACE;
    if wall < steady {
        (steady - (steady - wall).min(leeway)).max(time)
    } else {
        steady + (wall - steady).min(leeway)
    }
}

impl SteadyClock {
    /// A clock that says the wall's time.
    pub(super) fn new<R: Clock>(rt: &R) -> SteadyClock {
        SteadyClock {
            time: rt.since_1970().map_or(0, nanos),
            read: rt.monotonic().map_or(0, nanos),
        }
    }

    /// The moment, in seconds since 1970.
    pub(super) fn moment(&self) -> u64
        ensures { result ≡ moment_of self.now }
    {
        self.time / SECOND
    }

    /// Goes on to now. Where nobody's time is measured it may leap forward to the wall's time.
    pub(super) fn go_on<R: Clock>(&mut self, rt: &R, measures: bool) -> u64
        ensures moment { result ≡ moment_of self.new }
        ensures later { moment_of self.old ≤ result }
        ensures pace { IsTrue measures → KeepsPace self.old self.new }
    {
        let read = rt.monotonic().map_or(self.read, nanos).max(self.read);
        let passed = read - self.read;
        let steady = self.time.saturating_add(passed);
        let wall = rt.since_1970().map_or(steady, nanos);
        let time = gone_on(self.time, passed, wall);
        self.time = if measures { time } else { time.max(wall) };
        self.read = read;
        self.moment()
    }
}
