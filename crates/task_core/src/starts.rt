//! What a call of start_response gives (PEP 3333, 'The start_response() Callable').
ghost use Rattle.std.specs.Prelude.{◌≡◌, Some, None, IsTrue, if◌then◌else◌};
ghost use Rattle.std.specs.List.{list_all};
ghost use Rattle.std.specs.Str.Parse.{digits_value};
ghost use Rattle.std.proofs.Props.{props};
ghost use Rattle.byte_tables.specs.Cases.{rows_of};
ghost use Rattle.task_core.specs.Starts as spec;
ghost use Rattle.task_core.specs.Starts.{is_valid, declared_length, lengths, are_lengths};
ghost use Rattle.task_core.specs.HopByHop.{hop_rows};

use byte_tables::{Case, cases, find_folded, is_digit, is_number, number_of};
use head_grammar::{Field, are_field_bytes, is_name};
use outside::{Bytes, Items};

/// A status and fields that are valid, and the length that the fields declare.
#[derive(Debug, Drop)]
pub(crate) struct Given {
    pub(crate) status: Bytes,
    pub(crate) fields: Items<Field>,
    pub(crate) declared: Option<u64>,
    pub ghost valid: { IsTrue (is_valid status fields) },
    pub ghost known: { declared ≡ declared_length fields } by { Prim.hlevel props },
}

// A code from 200 to 599, SP and a reason.
fn is_status(status: &[u8]) -> bool
    ensures { result ≡ spec.is_status status.now }
{
    match status {
        [first, second, third, space, reason @ ..] => {
            matches!(*first, b'2'..=b'5')
                && is_digit(*second)
                && is_digit(*third)
                && *space == b' '
                && are_field_bytes(reason)
        }
        _ => false,
    }
}

// What is of one connection alone.
fn hop_by_hop() -> [Case; 8]
    ensures { rows_of result ≡ hop_rows }
{
    cases![
        "connection" => 0,
        "keep-alive" => 0,
        "proxy-authenticate" => 0,
        "proxy-authorization" => 0,
        "te" => 0,
        "trailers" => 0,
        "transfer-encoding" => 0,
        "upgrade" => 0,
    ]
}

fn is_hop_by_hop(table: &[Case; 8], name: &[u8]) -> bool
    requires { rows_of table.now ≡ hop_rows }
    ensures { result ≡ spec.is_hop_by_hop name.now }
{
    find_folded(table, name).is_some()
}

fn is_allowed(table: &[Case; 8], field: &Field) -> bool
    requires { rows_of table.now ≡ hop_rows }
    ensures { result ≡ spec.is_allowed field.now }
{
    let name = field.name.as_slice();
    is_name(name) && !is_hop_by_hop(table, name) && are_field_bytes(field.value.as_slice())
}

fn are_allowed(fields: &[Field]) -> bool
    ensures { result ≡ list_all spec.is_allowed fields.now }
{
    let table = hop_by_hop();
    for field in fields {
        if !is_allowed(&table, field) {
            return false;
        }
    }
    true
}

/// Whether a field has this name, ASCII letters being compared without case.
pub(crate) fn is_named(field: &Field, name: &[u8]) -> bool
    ensures { result ≡ spec.is_named name.now field.now }
{
    name.eq_ignore_ascii_case(field.name.as_slice())
}

fn length_of(field: &Field) -> Option<u64>
    ensures { result ≡ (if spec.is_length field.now then Some (digits_value 10 field.now.value) else
        None) }
{
    let value = field.value.as_slice();
    if !is_number(value) {
        return None;
    }
    number_of(value)
}

// The length that is declared, if one is; nothing where the fields declare it wrongly.
fn declared(fields: &[Field]) -> Option<Option<u64>>
    ensures { result ≡ (if are_lengths (lengths fields.now) then Some (declared_length fields.now)
        else None) }
{
    let mut declared = None;
    for field in fields {
        if is_named(field, b"content-length") {
            if declared.is_some() {
                return None;
            }
            declared = Some(length_of(field)?);
        }
    }
    Some(declared)
}

impl Given {
    ghost use Rattle.task_core.specs.Validity.{GivesValid};

    /// What is given, where it is valid.
    #[tactic(auto, unfolding(crate::specs::Starts::is_valid))]
    pub(crate) fn new(status: Bytes, fields: Items<Field>) -> Option<Given>
        ensures { GivesValid status fields result }
    {
        if !is_status(status.as_slice()) || !are_allowed(fields.as_slice()) {
            return None;
        }
        let declared = declared(fields.as_slice())?;
        Some(Given {
            status,
            fields,
            declared,
        })
    }
}
