//! What field lines say: each by itself, and all of them, where equal names are joined.
ghost use Rattle.std.specs.Prelude.{◌≡◌, ◌==◌, [], ◌∷◌, ◌++◌, map, position, IfOk, OnOk};
ghost use Rattle.head_grammar.specs.Combining.{ArePlaces, added, with_value};
ghost use Rattle.head_grammar.specs.FieldLines as spec;

use crate::classes::{are_field_bytes, are_token_bytes, trim};
use crate::lines::Lines;
use crate::whole_line::whole_line;
use crate::{Field, FieldList, Fields, Refusal};
use outside::Bytes;
use std::alloc::{AllocError, Global};
use std::collections::BTreeMap;
use std::marker::Model;
use std::mem;

/// For how many fields there is room at once, at least.
const EXPECTED_FIELDS: usize = 16;

/// So many bytes of a longer head are room for one more.
const EXPECTED_SIZE: usize = 32;

/// A field as its line has it: contracts see the name in lower case.
#[derive(Drop)]
pub(crate) struct SentField<'a> {
    pub(crate) name: &'a [u8],
    pub(crate) value: &'a [u8],
}

impl<'a> Model for SentField<'a> {
    ghost use Rattle.std.specs.Prelude.{map};
    ghost use Rattle.std.specs.Char.{to_ascii_lowercase};
    ghost use Rattle.head_grammar.specs.declared.types.Field.{Field};

    ghost Value = { Field };

    ghost view = { λ field. record {
      name = map to_ascii_lowercase field.name.now;
      value = field.value.now;
    } };
}

/// Whether a text is a token, as a name is (RFC 9110, section 5.1).
pub fn is_name(bytes: &[u8]) -> bool
    ensures name { result ≡ spec.is_name bytes.now }
{
    !bytes.is_empty() && are_token_bytes(bytes)
}

fn place_of_colon(line: &[u8]) -> Option<usize>
    ensures { result ≡ position (λ b. b == 58) line.now }
{
    line.iter().position(|byte| *byte == b':')
}

// What a field line says, or its refusal (RFC 9112, section 5).
fn read_field(line: &[u8]) -> Result<SentField<'_>, Refusal>
    ensures { result ≡ spec.field_line line.now }
{
    let Some(at) = place_of_colon(line) else {
        return Err(Refusal::FieldLine);
    };
    let name = &line[..at];
    let value = &line[at + 1..];
    if !is_name(name) {
        return Err(Refusal::FieldLine);
    }
    if !are_field_bytes(value) {
        return Err(Refusal::FieldValue);
    }
    Ok(SentField {
        name,
        value: trim(value),
    })
}

// A name with an underscore can't be told from one with a hyphen in an environ.
fn is_kept(field: &SentField<'_>) -> bool
    ensures { result ≡ spec.is_kept field.now }
{
    !field.name.contains(&b'_')
}

fn keep(fields: &mut FieldList, field: &SentField<'_>) -> Result<(), AllocError>
    ensures { OnOk result (fields.new ≡ fields.old ++ spec.kept (field.now ∷ [])) }
{
    if is_kept(field) {
        fields.add_sent(field)?;
    }
    Ok(())
}

// The fields of the lines, in order, but for those that are dropped, or the refusal of the first
// bad line.
fn read_kept(alloc: Global, mut lines: Lines<'_>) -> Result<Result<FieldList, Refusal>, AllocError>
    ensures { IfOk result (λ read. read ≡ spec.kept_fields lines.entry) }
{
    let count = EXPECTED_FIELDS.max(lines.size() / EXPECTED_SIZE);
    let mut fields = FieldList::with_room(alloc, count, lines.size())?;
    while let Some(line) = lines.next() {
        let line = whole_line(alloc, line, &mut lines)?;
        let field = match read_field(line.as_slice()) {
            Ok(field) => field,
            Err(refusal) => return Ok(Err(refusal)),
        };
        keep(&mut fields, &field)?;
    }
    Ok(Ok(fields))
}

fn names_of<'a>(alloc: Global, fields: &Fields<'a>) -> Result<Vec<&'a [u8]>, AllocError>
    ensures { IfOk result (λ names. map (λ name. name.now) names.items
        ≡ map (λ field. field.name) fields.now) }
{
    let mut names = Vec::with_capacity(alloc, fields.len())?;
    for (name, _) in fields.iter() {
        names.push(name)?;
    }
    Ok(names)
}

// Sorted names rise from each to the next, but where two are equal.
fn names_differ(alloc: Global, fields: &Fields<'_>) -> Result<bool, AllocError>
    ensures { IfOk result (λ differ. differ ≡ spec.names_differ fields.now) }
{
    let mut names = names_of(alloc, fields)?;
    names.sort_unstable();
    Ok(names.is_sorted_by(|name, next| name.cmp(next).is_lt()))
}

// Puts a further value behind the field's own, which is not copied.
fn add_value(alloc: Global, field: &mut Field, more: &[u8]) -> Result<(), AllocError>
    ensures { OnOk result (field.new ≡ with_value field.old more.now) }
{
    let none = Bytes::from_vec(Vec::new(alloc));
    let mut value = mem::replace(&mut field.value, none).into_vec();
    value.extend_from_slice(b", ")?;
    value.extend_from_slice(more)?;
    field.value = Bytes::from_vec(value);
    Ok(())
}

fn copied(alloc: Global, name: &[u8], value: &[u8]) -> Result<Field, AllocError>
    ensures { IfOk result (λ copy. copy ≡ record { name = name.now; value = value.now }) }
{
    Ok(Field {
        name: Bytes::from_slice(alloc, name)?,
        value: Bytes::from_slice(alloc, value)?,
    })
}

fn add_field<'a>(
    alloc: Global,
    places: &mut BTreeMap<&'a [u8], usize>,
    fields: &mut Vec<Field>,
    name: &'a [u8],
    value: &[u8],
) -> Result<(), AllocError>
    requires { ArePlaces places.old fields.old.items }
    ensures places { OnOk result (ArePlaces places.new fields.new.items) }
    ensures fields { OnOk result (fields.new.items
        ≡ added fields.old.items (record { name = name.now; value = value.now })) }
{
    match places.get(name) {
        Some(place) => add_value(alloc, &mut fields[*place], value),
        None => {
            places.insert(name, fields.len())?;
            fields.push(copied(alloc, name, value)?)?;
            Ok(())
        }
    }
}

// For fields of which some have equal names.
fn combined_copies(alloc: Global, fields: Fields<'_>) -> Result<Vec<Field>, AllocError>
    ensures { IfOk result (λ combined. combined.items ≡ spec.combined fields.entry) }
{
    let mut places = BTreeMap::new(alloc);
    let mut combined = Vec::new(alloc);
    for (name, value) in fields {
        add_field(alloc, &mut places, &mut combined, name, value)?;
    }
    Ok(combined)
}

// The fields, where a name that comes again adds its values to the first (RFC 9110, section 5.3).
fn combined(alloc: Global, fields: FieldList) -> Result<FieldList, AllocError>
    ensures { IfOk result (λ combined. combined ≡ spec.combined fields) }
{
    let lent = fields.fields();
    if names_differ(alloc, &lent)? {
        return Ok(fields);
    }
    let copies = combined_copies(alloc, fields.fields())?;
    FieldList::of(alloc, copies.as_slice())
}

/// The fields of the lines, or the refusal of the first bad line.
#[tactic(auto, unfolding(crate::specs::FieldLines::fields_of))]
pub(crate) fn read_fields(
    alloc: Global,
    lines: Lines<'_>,
) -> Result<Result<FieldList, Refusal>, AllocError>
    ensures { IfOk result (λ read. read ≡ spec.fields_of lines.entry) }
{
    match read_kept(alloc, lines)? {
        Ok(fields) => Ok(Ok(combined(alloc, fields)?)),
        Err(refusal) => Ok(Err(refusal)),
    }
}
