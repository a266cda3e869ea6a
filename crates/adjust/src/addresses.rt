//! Addresses to listen at.
ghost use Rattle.std.specs.Prelude.{◌≡◌, ◌==◌, ◌+◌, ◌-◌, ◌≤◌, [], false, length, not, option_map};
ghost use Rattle.std.specs.Prelude.{IfOk, IfSome, IfNone};
ghost use Rattle.std.specs.List.{after_last, before_last, suffix_len};
ghost use Rattle.adjust.specs.Lists as spec;

use crate::parts::Parts;
use crate::values::{read_host, read_number};
use outside::{Bytes, Items, Listen};
use std::alloc::{AllocError, Global};

/// How many entries there may be.
const MOST_ENTRIES: usize = 16;

fn as_port(number: u64) -> Option<u16>
    ensures { result ≡ spec.as_port number }
{
    if 1 <= number && number <= 65535 {
        Some(number as u16)
    } else {
        None
    }
}

#[tactic(auto, unfolding(crate::specs::Lists::port))]
fn read_port(text: &[u8]) -> Option<u16>
    ensures { result ≡ spec.port text.now }
{
    if text.len() <= 5 {
        as_port(read_number(text)?)
    } else {
        None
    }
}

// The place behind the last colon, or 0 where there is none.
fn behind_last_colon(text: &[u8]) -> usize
    ensures place { result ≡ length text.now - suffix_len (λ b. not (b == 58)) text.now }
    ensures within { result ≤ length text.now }
{
    let mut at = text.len();
    while at > 0 && text[at - 1] != b':' {
        at -= 1;
    }
    at
}

fn cut_at_last_colon(text: &[u8]) -> Option<(&[u8], &[u8])>
    ensures before { IfSome result (λ cut. cut.0.now ≡ before_last spec.is_colon text.now) }
    ensures after { IfSome result (λ cut. cut.1.now ≡ after_last spec.is_colon text.now) }
    ensures none { IfNone result (before_last spec.is_colon text.now ≡ []) }
{
    let at = behind_last_colon(text);
    if at == 0 {
        return None;
    }
    Some((&text[..at - 1], &text[at..]))
}

/// The host and the port of an entry.
#[tactic(auto, using(crate::proofs::Entries::entry_without), unfolding(crate::specs::Lists::entry))]
fn read_entry(text: &[u8]) -> Option<(&[u8], u16)>
    ensures { option_map (λ entry. spec.listen_at entry.0.now entry.1) result ≡ spec.entry
        text.now }
{
    let (before, after) = cut_at_last_colon(text)?;
    let host = read_host(before)?;
    let port = read_port(after)?;
    Some((host, port))
}

fn is_entry(text: &[u8]) -> bool
    ensures { result ≡ spec.is_entry text.now }
{
    read_entry(text).is_some()
}

/// The number of the entry that is bad or too many, from 1.
#[tactic(auto, using(crate::proofs::Entries::bad_start, crate::proofs::Entries::bad_good, crate::proofs::Entries::bad_here, crate::proofs::Entries::bad_full, crate::proofs::Entries::bad_end_none, crate::proofs::Entries::bad_end_some))]
pub(crate) fn bad_entry(text: &[u8]) -> Option<usize>
    ensures { result ≡ spec.bad_entry (spec.parts false text.now) }
{
    let mut good: usize = 0;
    for entry in Parts::by_spaces(text) {
        if good == MOST_ENTRIES || !is_entry(entry) {
            return Some(good + 1);
        }
        good += 1;
    }
    if good == 0 { Some(1) } else { None }
}

fn listen_at(alloc: Global, host: &[u8], port: u16) -> Result<Listen, AllocError>
    ensures { IfOk result (λ listen. listen ≡ spec.listen_at host.now port) }
{
    Ok(Listen {
        host: Bytes::from_slice(alloc, host)?,
        port,
    })
}

/// The addresses of the entries.
#[tactic(auto, unfolding(crate::specs::Lists::listen_of))]
pub(crate) fn read_listen(alloc: Global, text: &[u8]) -> Result<Items<Listen>, AllocError>
    ensures { IfOk result (λ listen. listen ≡ spec.listen_of text.now) }
{
    let mut listen = Vec::new(alloc);
    for entry in Parts::by_spaces(text) {
        if let Some((host, port)) = read_entry(entry) {
            listen.push(listen_at(alloc, host, port)?)?;
        }
    }
    Ok(Items::from_vec(listen))
}
