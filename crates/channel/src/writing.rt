//! The answer that is under way.
ghost use Rattle.std.specs.Prelude.{IsTrue, ◌<◌, length};
ghost use Rattle.task_core.specs.Steps.{is_under_way};

use outside::Bytes;
use task_core::Task;

/// A script that is under way.
#[derive(Drop)]
pub(crate) struct Script<R> {
    pub(crate) task: Task,
    pub(crate) run: R,
    ghost under_way: { IsTrue (is_under_way task) },
}

/// A text that a step wrote, and the script behind it.
#[derive(Drop)]
pub(crate) struct Waiting<R> {
    pub(crate) text: Bytes,
    pub(crate) script: Script<R>,
    ghost some: { 0 < length text },
}

/// The answer to the current unit, as far as it isn't written.
#[derive(Drop)]
pub(crate) enum Writing<R> {
    /// No unit is current.
    Idle,
    Scripted(Script<R>),
    /// A text waits to be added, and the script goes on.
    Waits(Waiting<R>),
    /// The last text waits to be added: whether the connection closes behind it.
    Last(Bytes, bool),
}
