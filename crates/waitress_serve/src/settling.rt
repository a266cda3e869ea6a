//! What is taken back of the runs that failed.
ghost use Rattle.std.specs.Prelude.{◌≡◌, ◌≤◌, ◌<◌, All, IsTrue, None, Some, length};
ghost use Rattle.std.specs.Option.{option_map_or};
ghost use Rattle.dir_app.specs.Run.{answer_by};
ghost use Rattle.outside.specs.Causes.{added};

use dir_app::DirRun;
use outside::{Spill, Tree};

// Settles the entry of a run, where it asked for a file.
fn settle_one<T: Tree, S: Spill + Drop>(tree: &mut T, run: DirRun<T::Entry, S>)
    ensures faults { T.faults tree.new ≡ added (T.faults tree.old)
        (option_map_or T.Entry.faults (answer_by (λ _. None) (λ steps. Some steps.entry) run.answer)
        0) }
    ensures files { IsTrue T.tells → T.files tree.new ≡ T.files tree.old }
{
    match run.into_entry() {
        Some(entry) => tree.settle(entry),
        None => {}
    }
}

/// Settles the entry of each run.
pub(crate) fn settle<T: Tree, S: Spill + Drop>(tree: &mut T, runs: Vec<DirRun<T::Entry, S>>)
    ensures later { T.faults tree.old ≤ T.faults tree.new }
    ensures counted { All (λ run. 0 <
        option_map_or T.Entry.faults (answer_by (λ _. None) (λ steps. Some steps.entry) run.answer)
        0) runs.items →
        added (T.faults tree.old) (length runs.items) ≤ T.faults tree.new }
    ensures files { IsTrue T.tells → T.files tree.new ≡ T.files tree.old }
{
    for run in runs {
        settle_one(tree, run);
    }
}
