//! An address with an optional port.
ghost use Rattle.std.specs.Prelude.{◌≡◌, ◌<◌, ◌==◌, length, option_map, position, IfOk, IfSome};
ghost use Rattle.std.specs.List.{list_all};
ghost use Rattle.proxy_trust.specs.Endpoints as spec;

use byte_tables::{is_number, number_of};
use outside::Bytes;
use std::alloc::{AllocError, Global};

/// An address, without brackets, and a port as it was sent.
#[derive(Debug, Drop)]
pub(crate) struct Endpoint {
    pub(crate) address: Bytes,
    pub(crate) port: Option<Bytes>,
}

fn is_address_byte(byte: u8) -> bool
    ensures { result ≡ spec.is_address_byte byte }
{
    byte.is_ascii_alphanumeric() || matches!(byte, b'.' | b':' | b'-' | b'_')
}

fn are_address_bytes(bytes: &[u8]) -> bool
    ensures { result ≡ list_all spec.is_address_byte bytes.now }
{
    bytes.iter().all(|byte| is_address_byte(*byte))
}

fn is_address(bytes: &[u8]) -> bool
    ensures { result ≡ spec.is_address bytes.now }
{
    !bytes.is_empty() && are_address_bytes(bytes)
}

/// Whether these bytes write a port (RFC 7239, section 6) that TCP has.
pub(crate) fn is_port(bytes: &[u8]) -> bool
    ensures { result ≡ spec.is_port bytes.now }
{
    bytes.len() <= 5 && is_number(bytes) && matches!(number_of(bytes), Some(1..=65_535))
}

fn only_address(alloc: Global, address: &[u8]) -> Result<Option<Endpoint>, AllocError>
    ensures { IfOk result (λ endpoint. endpoint ≡ spec.only_address address.now) }
{
    if !is_address(address) {
        return Ok(None);
    }
    Ok(Some(Endpoint {
        address: Bytes::from_slice(alloc, address)?,
        port: None,
    }))
}

fn with_port(alloc: Global, address: &[u8], port: &[u8]) -> Result<Option<Endpoint>, AllocError>
    ensures { IfOk result (λ endpoint. endpoint ≡ spec.with_port address.now port.now) }
{
    if !is_address(address) || !is_port(port) {
        return Ok(None);
    }
    Ok(Some(Endpoint {
        address: Bytes::from_slice(alloc, address)?,
        port: Some(Bytes::from_slice(alloc, port)?),
    }))
}

fn place_of(bytes: &[u8], sought: u8) -> Option<usize>
    ensures place { result ≡ position (λ b. b == sought) bytes.now }
    ensures within { IfSome result (λ at. at < length bytes.now) }
{
    bytes.iter().position(|byte| *byte == sought)
}

// What stands before and behind the first byte that is `at`.
fn cut(bytes: &[u8], at: u8) -> Option<(&[u8], &[u8])>
    ensures { option_map (λ cut. (cut.0.now, cut.1.now)) result ≡ spec.cut at bytes.now }
{
    let place = place_of(bytes, at)?;
    Some((&bytes[..place], &bytes[place + 1..]))
}

// The bytes behind an opening bracket.
fn read_bracketed(alloc: Global, bytes: &[u8]) -> Result<Option<Endpoint>, AllocError>
    ensures { IfOk result (λ endpoint. endpoint ≡ spec.bracketed bytes.now) }
{
    let Some((address, behind)) = cut(bytes, b']') else {
        return Ok(None);
    };
    match behind.split_first() {
        None => only_address(alloc, address),
        Some((b':', port)) => with_port(alloc, address, port),
        Some(_) => Ok(None),
    }
}

fn read_bare(alloc: Global, part: &[u8]) -> Result<Option<Endpoint>, AllocError>
    ensures { IfOk result (λ endpoint. endpoint ≡ spec.bare part.now) }
{
    match cut(part, b':') {
        Some((address, port)) if !port.contains(&b':') => with_port(alloc, address, port),
        _ => only_address(alloc, part),
    }
}

/// What a part of a list says, or None where it is no endpoint.
pub(crate) fn read_endpoint(alloc: Global, part: &[u8]) -> Result<Option<Endpoint>, AllocError>
    ensures { IfOk result (λ endpoint. endpoint ≡ spec.endpoint part.now) }
{
    match part.split_first() {
        None => Ok(None),
        Some((b'[', bytes)) => read_bracketed(alloc, bytes),
        Some(_) => read_bare(alloc, part),
    }
}
