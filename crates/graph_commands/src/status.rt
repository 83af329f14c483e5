//! The exit statuses of the programs.

/// What the exit status of a command says, by its number.
#[derive(Clone, Copy, Debug, PartialEq, Eq)]
pub enum Status {
    /// What was asked is done, right or found.
    Yes = 0,
    /// It is not so, is not there, or was refused.
    No = 1,
    /// The words are no command, a text is no id, or the output could not be written.
    Failed = 2,
}
