//! Values of a document, each as a key of a row asks for it.
ghost use Rattle.std.specs.Prelude.{◌≡◌, IfOk};
ghost use Rattle.toml.specs.View.{array_view, view};
ghost use Rattle.apps.specs.Rows as spec;

use head_grammar::Field;
use outside::{Bytes, Items};
use std::alloc::{AllocError, Global};
use toml::Value;
use toml::value::Array;

/// A text.
pub(crate) fn text(alloc: Global, value: &Value) -> Result<Option<Bytes>, AllocError>
    ensures { IfOk result (λ text. text ≡ spec.text (view value.now)) }
{
    match value.as_str() {
        Some(text) => Ok(Some(Bytes::from_slice(alloc, text.as_bytes())?)),
        None => Ok(None),
    }
}

/// A text that begins with a slash.
pub(crate) fn path(alloc: Global, value: &Value) -> Result<Option<Bytes>, AllocError>
    ensures { IfOk result (λ path. path ≡ spec.path_in (view value.now)) }
{
    match value.as_str() {
        Some(text) => {
            if text.as_bytes().first() == Some(&b'/') {
                Ok(Some(Bytes::from_slice(alloc, text.as_bytes())?))
            } else {
                Ok(None)
            }
        }
        None => Ok(None),
    }
}

/// A text that isn't empty.
pub(crate) fn method(alloc: Global, value: &Value) -> Result<Option<Bytes>, AllocError>
    ensures { IfOk result (λ method. method ≡ spec.method_in (view value.now)) }
{
    match value.as_str() {
        Some(text) => {
            if text.is_empty() {
                Ok(None)
            } else {
                Ok(Some(Bytes::from_slice(alloc, text.as_bytes())?))
            }
        }
        None => Ok(None),
    }
}

/// The texts of a list.
pub(crate) fn texts(alloc: Global, value: &Value) -> Result<Option<Items<Bytes>>, AllocError>
    ensures { IfOk result (λ texts. texts ≡ spec.list_of spec.text (view value.now)) }
{
    match value.as_array() {
        Some(list) => each_text(alloc, list),
        None => Ok(None),
    }
}

fn each_text(alloc: Global, list: &Array) -> Result<Option<Items<Bytes>>, AllocError>
    ensures { IfOk result (λ texts. texts ≡ spec.each spec.text (array_view list.now)) }
{
    let mut texts = Vec::new(alloc);
    for value in list {
        match text(alloc, value)? {
            Some(text) => texts.push(text)?,
            None => return Ok(None),
        }
    }
    Ok(Some(Items::from_vec(texts)))
}

/// The fields of a list.
pub(crate) fn fields(alloc: Global, value: &Value) -> Result<Option<Items<Field>>, AllocError>
    ensures { IfOk result (λ fields. fields ≡ spec.list_of spec.field (view value.now)) }
{
    match value.as_array() {
        Some(list) => each_field(alloc, list),
        None => Ok(None),
    }
}

fn each_field(alloc: Global, list: &Array) -> Result<Option<Items<Field>>, AllocError>
    ensures { IfOk result (λ fields. fields ≡ spec.each spec.field (array_view list.now)) }
{
    let mut fields = Vec::new(alloc);
    for value in list {
        match field(alloc, value)? {
            Some(field) => fields.push(field)?,
            None => return Ok(None),
        }
    }
    Ok(Some(Items::from_vec(fields)))
}

// A list of two texts.
fn field(alloc: Global, value: &Value) -> Result<Option<Field>, AllocError>
    ensures { IfOk result (λ field. field ≡ spec.field (view value.now)) }
{
    match value.as_array() {
        Some(list) => field_of(alloc, list),
        None => Ok(None),
    }
}

#[tactic(auto, using(crate::proofs::Lists::two_items, crate::proofs::Lists::other_items))]
fn field_of(alloc: Global, list: &Array) -> Result<Option<Field>, AllocError>
    ensures { IfOk result (λ field. field ≡ spec.field_of (array_view list.now)) }
{
    if list.len() != 2 {
        return Ok(None);
    }
    let name = text(alloc, &list[0])?;
    let value = text(alloc, &list[1])?;
    Ok(pair(name, value))
}

fn pair(name: Option<Bytes>, value: Option<Bytes>) -> Option<Field>
    ensures { result ≡ spec.pair name value }
{
    match (name, value) {
        (Some(name), Some(value)) => Some(Field { name, value }),
        _ => None,
    }
}

/// A truth value.
pub(crate) fn truth(value: &Value) -> Option<bool>
    ensures { result ≡ spec.truth (view value.now) }
{
    value.as_bool()
}

/// A whole number of at least 0.
pub(crate) fn count(value: &Value) -> Option<u64>
    ensures { result ≡ spec.count (view value.now) }
{
    match value.as_integer() {
        Some(number) => u64::try_from(number).ok(),
        None => None,
    }
}
