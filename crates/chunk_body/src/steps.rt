//! One byte, at each place.
ghost use Rattle.std.specs.Prelude.{◌≡◌, ◌≤◌, ◌<◌, ◌+◌, ◌*◌, ◌^◌, false};
ghost use Rattle.chunk_body.specs.Reading.{step, limited, is_last_of_trailer};
ghost use Rattle.chunk_body.specs.Reading.{behind_line as line_end, data_left as left_of};
ghost use Rattle.chunk_body.specs.Reading.{behind_digits as digits_end, trailer_at, IsSound};
ghost use Rattle.chunk_body.specs.Reading.{has_ended, line_bytes, mark_step};

use crate::bytes::{hex_value, is_blank};
use crate::place::Place;
use byte_tables::{Refusal, is_field, is_hex};

// Behind the line of a chunk of so many bytes.
fn behind_line(size: u64) -> Place
    ensures { result ≡ line_end size }
{
    if size == 0 {
        Place::Trailer(0, 2)
    } else {
        Place::Data(size)
    }
}

// In the data, of which so much is missing.
fn behind_data(left: u64) -> Place
    ensures { result ≡ left_of left }
{
    if left == 0 {
        Place::DataEnd
    } else {
        Place::Data(left)
    }
}

// Behind the byte that ends the digits of a size.
#[tactic(auto, unfolding(crate::specs::Reading::behind_digits))]
fn behind_size(count: u16, size: u64, byte: u8) -> Place
    ensures { result ≡ digits_end count size byte }
{
    if is_blank(byte) {
        Place::Blanks(count, size)
    } else if byte == b';' {
        Place::Extension(count, size)
    } else if byte == b'\r' {
        Place::LineCr(count, size)
    } else {
        Place::Refused(Refusal::ChunkSize)
    }
}

// How much of CR LF CR LF stands at the end of a trailer section, with one more byte.
#[tactic(auto, unfolding(crate::specs::Reading::mark_step))]
fn mark(matched: u8, byte: u8) -> u8
    ensures { result ≡ mark_step matched byte }
{
    match (byte, matched) {
        (b'\r', 2) => 3,
        (b'\r', _) => 1,
        (b'\n', 1) => 2,
        (b'\n', 3) => 4,
        _ => 0,
    }
}

fn in_trailer(count: u64, matched: u8) -> Place
    ensures { result ≡ trailer_at count matched }
{
    if matched == 4 {
        Place::Over
    } else {
        Place::Trailer(count, matched)
    }
}

// The place behind one more byte, where no limit refuses it.
#[tactic(auto, unfolding(crate::specs::Reading::step))]
fn stepped(place: Place, byte: u8, max_trailer: u64) -> Place
    requires open { has_ended place ≡ false }
    requires sound { IsSound max_trailer place }
    requires trailer { is_last_of_trailer max_trailer place ≡ false }
    ensures { result ≡ step place byte }
{
    match place {
        Place::LineStart if is_hex(byte) => Place::Digits(1, hex_value(byte)),
        Place::Digits(count, size) => behind_digit(count, size, byte),
        Place::Blanks(count, size) if is_blank(byte) => Place::Blanks(count + 1, size),
        Place::Blanks(count, size) if byte == b';' => Place::Extension(count + 1, size),
        Place::Extension(count, size) if is_field(byte) => Place::Extension(count + 1, size),
        Place::Extension(count, size) if byte == b'\r' => Place::LineCr(count + 1, size),
        Place::LineCr(_, size) if byte == b'\n' => behind_line(size),
        Place::Data(left) => behind_data(left - 1),
        Place::DataEnd if byte == b'\r' => Place::DataCr,
        Place::DataCr if byte == b'\n' => Place::LineStart,
        Place::Trailer(count, matched) => in_trailer(count + 1, mark(matched, byte)),
        Place::LineStart | Place::Blanks(..) => Place::Refused(Refusal::ChunkSize),
        Place::Extension(..) => Place::Refused(Refusal::ChunkExtension),
        Place::LineCr(..) => Place::Refused(Refusal::ChunkLineEnd),
        Place::DataEnd | Place::DataCr => Place::Refused(Refusal::ChunkEnd),
        Place::Over | Place::Refused(_) => unreachable!(),
    }
}

// Behind a byte that follows digits of a size.
#[tactic(auto, unfolding(crate::specs::Reading::step))]
fn behind_digit(count: u16, size: u64, byte: u8) -> Place
    requires { (count ≤ 16) × (size < 16 ^ count) }
    ensures { result ≡ step (Place.Digits count size) byte }
{
    if !is_hex(byte) {
        return behind_size(count + 1, size, byte);
    }
    if count == 16 {
        return Place::Refused(Refusal::ChunkSize);
    }
    Place::Digits(count + 1, 16 * size + hex_value(byte))
}

/// The place behind one more byte.
#[tactic(auto, unfolding(crate::specs::Reading::limited))]
pub(crate) fn next(place: Place, byte: u8, max_trailer: u64) -> Place
    requires open { has_ended place ≡ false }
    requires sound { IsSound max_trailer place }
    requires some { 1 ≤ max_trailer }
    ensures place { result ≡ limited max_trailer place byte }
    ensures sound { IsSound max_trailer result }
{
    if ends_trailer(place, max_trailer) {
        return Place::Refused(Refusal::TrailerTooLarge(max_trailer));
    }
    let reached = stepped(place, byte, max_trailer);
    if line_len(reached) == 1024 {
        return Place::Refused(Refusal::ChunkLineLong);
    }
    reached
}

// Whether the next byte makes a trailer section too long.
fn ends_trailer(place: Place, max_trailer: u64) -> bool
    requires { IsSound max_trailer place }
    ensures { result ≡ is_last_of_trailer max_trailer place }
{
    match place {
        Place::Trailer(count, _) => count + 1 == max_trailer,
        _ => false,
    }
}

// How many bytes of a line stand before a place, and 0 outside of lines.
fn line_len(place: Place) -> u16
    ensures { result ≡ line_bytes place }
{
    match place {
        Place::Digits(count, _)
        | Place::Blanks(count, _)
        | Place::Extension(count, _)
        | Place::LineCr(count, _) => count,
        _ => 0,
    }
}
