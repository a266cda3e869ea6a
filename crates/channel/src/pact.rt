//! What the two ends of a channel agree on, where they share its state behind a gate.
use crate::noting::{LeftEntry, RightEntry};
use crate::shared::{Fixed, Shared};
use outside::Spill;
use std::marker::PhantomData;
use turn_gate::Pact;
use wsgi::App;

/// The pact of a channel, of which no value is made.
pub struct ChannelPact<A, S> {
    marker: PhantomData<(A, S)>,
}

impl<A: App<S>, S: Spill + Send + Drop> Pact for ChannelPact<A, S> {
    type State = Shared<A, A::Run, S>;

    type LeftEntry = LeftEntry<S>;

    type RightEntry = RightEntry<S>;

    type Fixed = Fixed<A>;

    ghost use Rattle.channel.specs.Agreement.{Agrees, known_by};
    ghost use Rattle.channel.specs.Histories.{left_past, right_past};
    ghost use Rattle.channel.specs.State.{state_of};

    ghost agree = { λ s left right. Agrees (known_by S.tells A.tells A.script S.faults A.Run.faults
        A.Run.spill_faults)
        (state_of s) (left_past left) (right_past right) };

    ghost fixed = { λ s. s.fixed.value };
}
