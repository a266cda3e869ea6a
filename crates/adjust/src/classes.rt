//! The classes of bytes that values are made of.
ghost use Rattle.std.specs.Prelude.{◌≡◌, ◌==◌};
ghost use Rattle.std.specs.List.{list_all};
ghost use Rattle.byte_tables.specs.Classes as tables;
ghost use Rattle.adjust.specs.Values as spec;

use byte_tables::{is_field, is_hex, is_target, is_white_space};

fn is_host_byte(byte: u8) -> bool
    ensures { result ≡ spec.is_host_byte byte }
{
    byte.is_ascii_alphanumeric() || matches!(byte, b'.' | b'-')
}

fn is_literal_byte(byte: u8) -> bool
    ensures { result ≡ spec.is_literal_byte byte }
{
    is_hex(byte) || matches!(byte, b':' | b'.')
}

fn is_address_byte(byte: u8) -> bool
    ensures { result ≡ spec.is_address_byte byte }
{
    byte.is_ascii_alphanumeric() || matches!(byte, b'.' | b':')
}

fn is_scheme_byte(byte: u8) -> bool
    ensures { result ≡ spec.is_scheme_byte byte }
{
    byte.is_ascii_alphanumeric() || matches!(byte, b'+' | b'-' | b'.')
}

fn are_host_bytes(text: &[u8]) -> bool
    ensures { result ≡ list_all spec.is_host_byte text.now }
{
    text.iter().all(|byte| is_host_byte(*byte))
}

fn are_literal_bytes(text: &[u8]) -> bool
    ensures { result ≡ list_all spec.is_literal_byte text.now }
{
    text.iter().all(|byte| is_literal_byte(*byte))
}

fn are_address_bytes(text: &[u8]) -> bool
    ensures { result ≡ list_all spec.is_address_byte text.now }
{
    text.iter().all(|byte| is_address_byte(*byte))
}

fn are_visible(text: &[u8]) -> bool
    ensures { result ≡ list_all tables.is_visible text.now }
{
    text.iter().all(|byte| is_target(*byte))
}

/// Whether the text is a name or an address of version 4.
pub(crate) fn is_host_text(text: &[u8]) -> bool
    ensures { result ≡ spec.is_some_of spec.is_host_byte text.now }
{
    !text.is_empty() && are_host_bytes(text)
}

/// Whether the text is an address of version 6, without brackets.
pub(crate) fn is_literal_text(text: &[u8]) -> bool
    ensures { result ≡ spec.is_some_of spec.is_literal_byte text.now }
{
    !text.is_empty() && are_literal_bytes(text)
}

fn is_address(text: &[u8]) -> bool
    ensures { result ≡ spec.is_some_of spec.is_address_byte text.now }
{
    !text.is_empty() && are_address_bytes(text)
}

/// Whether the text is `*` or an address.
pub(crate) fn is_proxy(text: &[u8]) -> bool
    ensures { result ≡ spec.is_proxy text.now }
{
    text == b"*".as_slice() || is_address(text)
}

/// Whether the text is one or more visible characters.
pub(crate) fn is_visible_text(text: &[u8]) -> bool
    ensures { result ≡ spec.is_some_of tables.is_visible text.now }
{
    !text.is_empty() && are_visible(text)
}

fn are_scheme_bytes(text: &[u8]) -> bool
    ensures { result ≡ list_all spec.is_scheme_byte text.now }
{
    text.iter().all(|byte| is_scheme_byte(*byte))
}

fn begins_with_letter(text: &[u8]) -> bool
    ensures { result ≡ spec.begins_with tables.is_letter text.now }
{
    match text.first() {
        Some(byte) => byte.is_ascii_alphabetic(),
        None => false,
    }
}

/// Whether the text is a scheme.
pub(crate) fn is_scheme(text: &[u8]) -> bool
    ensures { result ≡ spec.is_scheme text.now }
{
    begins_with_letter(text) && are_scheme_bytes(text)
}

fn begins_with_space(text: &[u8]) -> bool
    ensures { result ≡ spec.begins_with tables.is_white_space text.now }
{
    match text.first() {
        Some(byte) => is_white_space(*byte),
        None => false,
    }
}

fn ends_with_space(text: &[u8]) -> bool
    ensures { result ≡ spec.ends_with tables.is_white_space text.now }
{
    match text.last() {
        Some(byte) => is_white_space(*byte),
        None => false,
    }
}

/// Whether the text ends with `]`.
pub(crate) fn ends_with_bracket(text: &[u8]) -> bool
    ensures { result ≡ spec.ends_with (λ b. b == 93) text.now }
{
    match text.last() {
        Some(byte) => *byte == b']',
        None => false,
    }
}

fn are_field_bytes(text: &[u8]) -> bool
    ensures { result ≡ list_all tables.is_field text.now }
{
    text.iter().all(|byte| is_field(*byte))
}

/// Whether the text may stand as the whole value of a field.
pub(crate) fn is_field_text(text: &[u8]) -> bool
    ensures { result ≡ spec.is_field_text text.now }
{
    are_field_bytes(text) && !begins_with_space(text) && !ends_with_space(text)
}
