//! What holds of all words. The function does nothing: its clause is the law.
ghost use Rattle.std.specs.Prelude.{ℕ, List, IfOk};
ghost use Rattle.adjust.specs.Command.{command};
ghost use Rattle.adjust.specs.Ranges.{KeepsRanges};

/// What any words ask for keeps the ranges of the options.
pub fn ranges_are_kept()
    ensures { (words : List (List ℕ)) → IfOk (command words) KeepsRanges }
{}
