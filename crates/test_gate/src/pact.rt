//! The pact of a list of numbers.
ghost use Rattle.std.specs.Prelude.{◌≡◌};

use std::snapshot::Snapshot;
use turn_gate::Pact;

/// The numbers that were added and not taken yet, and a name that no turn changes.
#[derive(Drop)]
pub struct Row {
    pub items: Vec<u64>,
    pub name: u64,
}

/// The number that a turn added, if it added one.
#[derive(Drop)]
pub struct Added {
    pub number: Snapshot<Option<u64>>,
}

impl Added {
    pub fn of(number: &Option<u64>) -> Added
        ensures { result.number.value ≡ number.now }
    {
        Added {
            number: Snapshot::of(number),
        }
    }
}

/// The numbers that a turn took.
#[derive(Drop)]
pub struct Taken {
    pub numbers: Snapshot<Vec<u64>>,
}

pub struct Numbers;

impl Pact for Numbers {
    type State = Row;

    type LeftEntry = Added;

    type RightEntry = Taken;

    type Fixed = u64;

    ghost use Rattle.test_gate.specs.Numbers.{IsInOrder};

    ghost agree = { IsInOrder };

    ghost fixed = { λ s. s.name };
}
