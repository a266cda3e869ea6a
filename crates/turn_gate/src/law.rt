//! What holds of a gate between any two of its steps.
ghost use Rattle.turn_gate.specs.Rule.{Keeps, RefusesWhereHeld};

use crate::board::{Gate, Known, Slot};
use crate::pact::Pact;
use atomic_table::TableRule;
use std::snapshot::Snapshot;

/// It does nothing. Its clauses are laws: whatever two ends do, each state of their table meets the
/// gate's rule (as `atomic_table` has it of any table), so it has the sentences of `KeepsRule`, and
/// no step that finds the gate free counts as a refusal.
pub fn keeps_rule<P: Pact>()
    ensures sentences { (s : Snapshot P.State) → Keeps P.agree P.fixed
        (⟦<Gate<P> as TableRule<Slot<P>, Known<P>, Snapshot<P::State>>>⟧.holds s) }
    ensures refusals { (s : Snapshot P.State) → RefusesWhereHeld
        (⟦<Gate<P> as TableRule<Slot<P>, Known<P>, Snapshot<P::State>>>⟧.holds s) }
{}
