//! What each connection sends.
ghost use Rattle.std.specs.Prelude.{◌≡◌, ◌≤◌, ◌<◌, ◌++◌, IfOk, OnOk, decimal};
ghost use Rattle.rehearsal.specs.Requests as spec;

use itoa::Buffer;
use std::alloc::{AllocError, Global};

/// How many requests a connection sends, by its number from 0.
pub(crate) fn request_count(connection: u32) -> u32
    ensures { result ≡ spec.request_count connection }
{
    1 + connection % 4
}

fn body_length(connection: u32, number: u32) -> u32
    requires connection { connection ≤ 20000 }
    requires number { number < 4 }
    ensures { result ≡ spec.body_length connection number }
{
    (37 * connection + 11 * number) % 300
}

fn body_byte(connection: u32, number: u32, place: u32) -> u8
    requires connection { connection ≤ 20000 }
    requires number { number < 4 }
    requires place { place < 300 }
    ensures { result ≡ spec.body_byte connection number place }
{
    b'a' + ((connection + number + place) % 26) as u8
}

fn push_number(text: &mut Vec<u8>, number: u32) -> Result<(), AllocError>
    ensures { OnOk result (text.new.items ≡ text.old.items ++ decimal number) }
{
    let mut digits = Buffer::new();
    text.extend_from_slice(digits.format(number).as_bytes())
}

fn push_target(text: &mut Vec<u8>, connection: u32, number: u32) -> Result<(), AllocError>
    ensures { OnOk result (text.new.items ≡ text.old.items ++ spec.target connection number) }
{
    text.extend_from_slice(b"/c")?;
    push_number(text, connection)?;
    text.extend_from_slice(b"/r")?;
    push_number(text, number)
}

#[tactic(auto, unfolding(crate::specs::Requests::request_line))]
fn push_request_line(text: &mut Vec<u8>, connection: u32, number: u32) -> Result<(), AllocError>
    ensures { OnOk result (text.new.items ≡ text.old.items ++ spec.request_line connection number) }
{
    text.extend_from_slice(b"POST ")?;
    push_target(text, connection, number)?;
    text.extend_from_slice(b" HTTP/1.1\r\n")
}

fn push_length_line(text: &mut Vec<u8>, connection: u32, number: u32) -> Result<(), AllocError>
    requires connection { connection ≤ 20000 }
    requires number { number < 4 }
    ensures { OnOk result (text.new.items ≡ text.old.items ++ spec.length_line connection number) }
{
    text.extend_from_slice(b"Content-Length: ")?;
    push_number(text, body_length(connection, number))?;
    text.extend_from_slice(b"\r\n")
}

// The last request closes its connection.
#[tactic(auto, unfolding(crate::specs::Requests::closing_line))]
fn push_closing_line(text: &mut Vec<u8>, connection: u32, number: u32) -> Result<(), AllocError>
    requires number { number < 4 }
    ensures { OnOk result (text.new.items ≡ text.old.items ++ spec.closing_line connection number) }
{
    if number + 1 == request_count(connection) {
        text.extend_from_slice(b"Connection: close\r\n")?;
    }
    Ok(())
}

fn push_field_lines(text: &mut Vec<u8>, connection: u32, number: u32) -> Result<(), AllocError>
    requires connection { connection ≤ 20000 }
    requires number { number < 4 }
    ensures { OnOk result (text.new.items ≡ text.old.items ++ spec.field_lines connection number) }
{
    text.extend_from_slice(b"Host: rehearsal\r\n")?;
    push_length_line(text, connection, number)?;
    push_closing_line(text, connection, number)?;
    Ok(())
}

#[tactic(auto, unfolding(crate::specs::Requests::head_of))]
fn push_head(text: &mut Vec<u8>, connection: u32, number: u32) -> Result<(), AllocError>
    requires connection { connection ≤ 20000 }
    requires number { number < 4 }
    ensures { OnOk result (text.new.items ≡ text.old.items ++ spec.head_of connection number) }
{
    push_request_line(text, connection, number)?;
    push_field_lines(text, connection, number)?;
    text.extend_from_slice(b"\r\n")
}

fn push_body(text: &mut Vec<u8>, connection: u32, number: u32) -> Result<(), AllocError>
    requires connection { connection ≤ 20000 }
    requires number { number < 4 }
    ensures { OnOk result (text.new.items ≡ text.old.items ++ spec.body_of connection number) }
{
    for place in 0..body_length(connection, number) {
        text.push(body_byte(connection, number, place))?;
    }
    Ok(())
}

#[tactic(auto, unfolding(crate::specs::Requests::request_of))]
fn push_request(text: &mut Vec<u8>, connection: u32, number: u32) -> Result<(), AllocError>
    requires connection { connection ≤ 20000 }
    requires number { number < 4 }
    ensures { OnOk result (text.new.items ≡ text.old.items ++ spec.request_of connection number) }
{
    push_head(text, connection, number)?;
    push_body(text, connection, number)
}

/// All that a connection sends.
#[tactic(auto, unfolding(crate::specs::Requests::input_of))]
pub(crate) fn input_of(alloc: Global, connection: u32) -> Result<Vec<u8>, AllocError>
    requires connection { connection ≤ 20000 }
    ensures { IfOk result (λ input. input.items ≡ spec.input_of connection) }
{
    let mut input = Vec::new(alloc);
    for number in 0..request_count(connection) {
        push_request(&mut input, connection, number)?;
    }
    Ok(input)
}
