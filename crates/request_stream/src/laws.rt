//! What holds of every input. These functions do nothing: their clauses are the laws.
ghost use Rattle.std.specs.Prelude.{◌≡◌, ◌++◌, ◌<◌, ℕ, List};
ghost use Rattle.request_stream.specs.Grammar.{Grammar};
ghost use Rattle.request_stream.specs.Units.{Asked, units, follow, front};
ghost use Rattle.request_stream.specs.declared.types.Limits.{Limits};

use chunk_body::one_front;
use head_grammar::one_end;

/// What the crates below say of heads and of coded bodies.
pub(crate) fn grammar()
    ensures { Grammar }
{
    one_end();
    one_front();
}

/// More bytes only add units.
pub fn units_grow()
    ensures { (limits : Limits) (x y : List (ℕ × ℕ)) → 0 < limits.max_head →
        (more : List Asked) × (units limits (x ++ y) ≡ units limits x ++ more) }
{
    grammar();
}

/// The units are those of the front, and those of the bytes behind it.
pub fn units_follow()
    ensures { (limits : Limits) (x : List (ℕ × ℕ)) → 0 < limits.max_head →
        units limits x ≡ follow (units limits) x (front limits x) }
{
    grammar();
}
