//! What the two ends agree on.
ghost use Rattle.std.specs.Prelude.{List};

/// A state that two ends change in turns. An entry says what one turn did. It is for clauses alone,
/// so let it be of no bytes: an `outside::Noted`, or a struct of `Snapshot`s.
pub trait Pact {
    type State: Send + Drop;

    type LeftEntry: Drop;

    type RightEntry: Drop;

    /// What clauses know of the state from its opening on. No value of it is made.
    type Fixed;

    /// That a state agrees with all entries of the left end and all entries of the right end.
    ghost agree: { Self.State → List Self.LeftEntry → List Self.RightEntry → Type 0 };

    /// What no turn changes.
    ghost fixed: { Self.State → Self.Fixed };
}
