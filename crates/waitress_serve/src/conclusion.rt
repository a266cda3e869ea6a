//! How a command ended.
use crate::made::Unmade;
use adjust::UsageFault;

/// How a command ended, which the status of the program tells.
#[derive(Debug, Drop)]
pub(crate) enum Conclusion {
    Done,
    /// The words are a usage fault.
    Usage(UsageFault),
    /// What the words ask for isn't built.
    NotBuilt,
    /// The application that the words name could not be made.
    Unmade(Unmade),
    BindFailed,
    /// What is to be printed could not be written to `out`.
    Unprinted,
    PollFailed,
    NoMemory,
}
