//! Where a reader of the chunked coding stands.
use byte_tables::Refusal;

/// Where the next byte stands. The first number of a place in a line or in a trailer section is how
/// many bytes of it there are; the second one of a place in a line is the size that its digits
/// spell.
#[derive(Clone, Copy, Debug, PartialEq, Eq, Drop)]
pub(crate) enum Place {
    LineStart,
    Digits(u16, u64),
    /// In the white space in front of `;`.
    Blanks(u16, u64),
    /// Behind `;`.
    Extension(u16, u64),
    /// Behind the CR of a line.
    LineCr(u16, u64),
    /// So many bytes of data are missing.
    Data(u64),
    /// Behind the data.
    DataEnd,
    /// Behind the CR that follows the data.
    DataCr,
    /// So many bytes of CR LF CR LF stand in front.
    Trailer(u64, u8),
    /// Behind the last byte of a body.
    Over,
    Refused(Refusal),
}
