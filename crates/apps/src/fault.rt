//! What is wrong with a file of a table.
use thiserror::Error;

/// Why a file is no table. Of several reasons it is the one that stands first here.
#[derive(Debug, Drop, Error)]
pub enum TableFault {
    /// It has more than 1,048,576 bytes.
    #[error("the file is too large")]
    TooLarge,
    #[error("the file is not TOML")]
    NotToml,
    /// It has another key than `row` at its top, or `row` is no list of tables.
    #[error("the file is not a table")]
    NotTable,
    /// It has more than 1,000 rows.
    #[error("too many rows")]
    TooManyRows,
    /// The place, from 0, of the first row that is bad.
    #[error("the row at place {0} is bad")]
    BadRow(usize),
    #[error("out of memory")]
    NoMemory,
}
