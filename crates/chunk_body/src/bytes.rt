//! The bytes of a chunk's line.
ghost use Rattle.std.specs.Prelude.{◌≡◌, ◌<◌, IsTrue};
ghost use Rattle.byte_tables.specs.Classes.{is_hex};
ghost use Rattle.chunk_body.specs.Coded.{hex_of, is_blank as blank_test};

/// What a HEXDIG of either case stands for.
#[tactic(auto, unfolding(crate::specs::Coded::hex_of))]
pub(crate) fn hex_value(byte: u8) -> u64
    requires { IsTrue (is_hex byte) }
    ensures value { result ≡ hex_of byte }
    ensures small { result < 16 }
{
    let value = match byte {
        ..=b'9' => byte - b'0',
        ..=b'F' => byte - b'A' + 10,
        _ => byte - b'a' + 10,
    };
    u64::from(value)
}

/// Whether a byte is white space within a line (RFC 9110, section 5.6.3).
#[tactic(auto, unfolding(crate::specs::Coded::is_blank))]
pub(crate) fn is_blank(byte: u8) -> bool
    ensures { result ≡ blank_test byte }
{
    byte == b' ' || byte == b'\t'
}
