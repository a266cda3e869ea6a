//! The fields that stay.
ghost use Rattle.std.specs.Prelude.{◌≡◌, ◌++◌, ◌<◌, find, length, position, IfOk, IfSome};
ghost use Rattle.head_grammar.specs.FieldLines.{has_name};
ghost use Rattle.proxy_trust.specs.Kept as spec;

use crate::KeptField;
use crate::headers::is_proxy_name;
use head_grammar::Fields;
use outside::{Bytes, Items};
use std::alloc::{AllocError, Global};

pub(crate) const HOST: &[u8] = b"host";

/// Adds a new field, where there is a value for it.
pub(crate) fn add_new<'a>(
    news: &mut Vec<KeptField<'a>>,
    name: &'a [u8],
    value: Option<Bytes>,
) -> Result<(), AllocError>
    ensures { IfOk result (λ _. news.new.items
        ≡ news.old.items ++ spec.new_field name.now value) }
{
    match value {
        None => {}
        Some(value) => news.push(KeptField::told(name, value))?,
    }
    Ok(())
}

fn place_of(fields: &[KeptField<'_>], name: &[u8]) -> Option<usize>
    ensures place { result ≡ position (has_name name.now) fields.now }
    ensures within { IfSome result (λ at. at < length fields.now) }
{
    fields.iter().position(|field| name == field.name())
}

// Takes out the first field of this name.
fn take<'a>(fields: &mut Vec<KeptField<'a>>, name: &[u8]) -> Option<KeptField<'a>>
    ensures first { result ≡ find (has_name name.now) fields.old.items }
    ensures left { fields.new.items ≡ spec.without name.now fields.old.items }
{
    let place = place_of(fields, name)?;
    Some(fields.remove(place))
}

// Adds what becomes of a field.
fn keep<'a>(
    kept: &mut Vec<KeptField<'a>>,
    name: &'a [u8],
    value: &'a [u8],
    new: Option<KeptField<'a>>,
    clear: bool,
) -> Result<(), AllocError>
    ensures { IfOk result (λ _. kept.new.items ≡ kept.old.items
        ++ spec.kept_field clear (record { name = name.now; value = value.now }) new.entry) }
{
    match new {
        Some(new) => kept.push(new)?,
        None if clear && is_proxy_name(name) => {}
        None => kept.push(KeptField::sent(name, value))?,
    }
    Ok(())
}

/// The fields, where new ones stand in place of the first ones of their names.
#[tactic(auto, unfolding(crate::specs::Kept::kept_fields))]
pub(crate) fn keep_fields<'a>(
    alloc: Global,
    fields: &Fields<'a>,
    mut news: Vec<KeptField<'a>>,
    clear: bool,
) -> Result<Items<KeptField<'a>>, AllocError>
    ensures { IfOk result (λ kept. kept ≡ spec.kept_fields clear news.entry.items fields.now) }
{
    let mut kept = Vec::with_capacity(alloc, fields.len().saturating_add(1))?;
    for (name, value) in fields.iter() {
        let new = take(&mut news, name);
        keep(&mut kept, name, value, new, clear)?;
    }
    match take(&mut news, HOST) {
        None => {}
        Some(host) => kept.push(host)?,
    }
    Ok(Items::from_vec(kept))
}
