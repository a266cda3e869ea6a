//! The connections that are open.

ghost use Rattle.std.specs.Prelude.{◌≡◌};

use crate::seat::Seat;
use outside::{Link, Spill};
use wsgi::App;

/// Those that are open, how many came and went, and the runs that broke.
#[derive(Drop)]
pub(crate) struct Connections<'a, L: Link, A: App<S>, S: Spill> {
    pub(crate) seats: Vec<Seat<'a, L, A, S>>,
    /// It has room for a run of each seat.
    pub(crate) fallen: Vec<A::Run>,
    pub(crate) accepted: u64,
    pub(crate) retired: u64,
}

impl<'a, L: Link + Drop, A: App<S>, S: Spill + Send + Drop> Connections<'a, L, A, S> {
    pub(crate) fn into_fallen(self) -> Vec<A::Run>
        ensures { result ≡ self.entry.fallen }
    {
        let Connections { fallen, .. } = self;
        fallen
    }
}

/// What an accept brought.
#[derive(Clone, Copy, Debug, PartialEq, Eq)]
pub(crate) enum Came {
    One,
    Nobody,
    Failed,
    NoMemory,
}
