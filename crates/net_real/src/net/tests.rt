use super::clock::SteadyClock;
use super::listening::{Refusal, meaning_of};
use super::source::Source;
use std::cell::Cell;
use std::io;
use std::rt::Clock;
use std::time::Duration;

// Clocks that are set by hand, in seconds. The wall's can't be read at 0.
#[derive(Drop)]
struct HandClocks {
    wall: Cell<u64>,
    ran: Cell<u64>,
}

impl Clock for HandClocks {
    fn monotonic(&self) -> io::Result<Duration> {
        Ok(Duration::from_secs(self.ran.get()))
    }

    fn since_1970(&self) -> io::Result<Duration> {
        match self.wall.get() {
            0 => Err(io::Error::from(io::ErrorKind::Other)),
            seconds => Ok(Duration::from_secs(seconds)),
        }
    }
}

#[test]
fn the_clock_never_goes_back_and_never_leaps_while_it_measures(rt: HostRuntime) {
    let clocks = HandClocks {
        wall: Cell::new(10000),
        ran: Cell::new(50),
    };
    let mut clock = SteadyClock::new(&clocks);
    assert_eq!(rt; clock.moment(), 10000);
    let rows = [
        // The wall's clock goes with the monotonic one.
        (10008, 58, true, 10008),
        // It is set an hour ahead, and back, and can't be read.
        (13616, 66, true, 10017),
        (13624, 74, true, 10026),
        (10020, 82, true, 10033),
        (0, 90, true, 10041),
        // It is near again.
        (10047, 98, true, 10048),
        (10055, 106, true, 10055),
        // Where nothing is measured the wall's time is taken, but not back.
        (13663, 114, false, 13663),
        (10071, 122, false, 13670),
        // The monotonic clock goes back.
        (10079, 100, true, 13670),
        (10087, 138, true, 13684),
    ];
    for (wall, ran, measures, moment) in rows {
        clocks.wall.set(wall);
        clocks.ran.set(ran);
        assert_eq!(rt; clock.go_on(&clocks, measures), moment, "at {ran}");
    }
}

#[test]
fn refusals_of_accept_have_their_meaning(rt: HostRuntime) {
    let rows = [
        (11, Refusal::Nobody),
        (23, Refusal::Full),
        (24, Refusal::Full),
        (105, Refusal::Full),
        (12, Refusal::Full),
        (103, Refusal::Gone),
        (71, Refusal::Gone),
        (4, Refusal::Gone),
        (9, Refusal::Failed),
        (22, Refusal::Failed),
    ];
    for (code, meaning) in rows {
        let fault = io::Error::from_raw_os_error(code);
        assert_eq!(rt; meaning_of(&fault), meaning, "at {code}");
    }
}

#[test]
fn tokens_name_their_sources(rt: HostRuntime) {
    let rows = [
        Source::Link(0),
        Source::Link(u32::MAX),
        Source::Lingerer(7),
        Source::Listener(7),
        Source::Trigger,
    ];
    for source in rows {
        assert_eq!(rt; Source::of(source.token()), source);
    }
}
