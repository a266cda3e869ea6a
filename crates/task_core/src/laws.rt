//! What holds of every script, and of the answer that takes none. These functions do nothing: their
//! clauses are the laws.
ghost use Rattle.std.specs.Prelude.{◌≡◌, [], codes};
ghost use Rattle.head_grammar.specs.declared.types.Version.TheVariants as version;
ghost use Rattle.task_core.specs.Chains.{ScriptsAreAnswered};
ghost use Rattle.task_core.specs.ResponseHead.{head_text};

use crate::CONTINUE;

/// Over a whole script the parts that a task wrote, joined, are its answer, and after each step
/// they are the front of it. An answer ends with the script's end at the latest.
pub fn scripts_are_answered()
    ensures { ScriptsAreAnswered }
{}

/// `CONTINUE` is a head without fields.
pub fn continue_has_no_fields()
    ensures { CONTINUE ≡ head_text version.New (codes "100 Continue") [] }
{}
