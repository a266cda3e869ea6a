//! The row that a table of a document writes.
ghost use Rattle.std.specs.Prelude.{◌≡◌, false, option_map, IfOk};
ghost use Rattle.toml.specs.Data.{get_member};
ghost use Rattle.toml.specs.View.{table_view, view};
ghost use Rattle.apps.specs.Rows as spec;

use crate::answers::field;
use crate::row::Row;
use crate::values;
use head_grammar::Field;
use outside::{Bytes, Items};
use std::alloc::{AllocError, Global};
use toml::{Table, Value};

/// The row of a table, or `None` where it is bad.
#[tactic(auto, unfolding(crate::specs::Rows::row_of))]
pub(crate) fn row_of(alloc: Global, table: &Table) -> Result<Option<Row>, AllocError>
    ensures { IfOk result (λ row. row ≡ spec.row_of (table_view table.now)) }
{
    if !has_keys(table) {
        return Ok(None);
    }
    match values_of(alloc, table)? {
        Some(row) => Ok(with_its_piece(row)),
        None => Ok(None),
    }
}

fn with_its_piece(row: Row) -> Option<Row>
    ensures { result ≡ spec.with_its_piece row }
{
    if row.whole && row.pieces.len() != 1 {
        None
    } else {
        Some(row)
    }
}

#[tactic(auto, unfolding(crate::specs::Rows::values))]
fn values_of(alloc: Global, table: &Table) -> Result<Option<Row>, AllocError>
    ensures { IfOk result (λ row. row ≡ spec.values (table_view table.now)) }
{
    let Some(path) = path(alloc, table)? else {
        return Ok(None);
    };
    let Some(method) = method(alloc, table)? else {
        return Ok(None);
    };
    let Some(status) = status(alloc, table)? else {
        return Ok(None);
    };
    let Some(fields) = fields(alloc, table)? else {
        return Ok(None);
    };
    let Some(pieces) = pieces(alloc, table)? else {
        return Ok(None);
    };
    let Some(whole) = truth_at(table, "whole") else {
        return Ok(None);
    };
    let Some(length) = declared_length(table) else {
        return Ok(None);
    };
    let Some(fail) = truth_at(table, "fail") else {
        return Ok(None);
    };
    Ok(Some(Row {
        path,
        method,
        status,
        fields,
        pieces,
        whole,
        length,
        fail,
    }))
}

fn value_at<'a>(table: &'a Table, key: &str) -> Option<&'a Value>
    ensures { option_map (λ value. view value.now) result ≡ get_member key.now
        (table_view table.now) }
{
    table.get(key)
}

fn path(alloc: Global, table: &Table) -> Result<Option<Bytes>, AllocError>
    ensures { IfOk result (λ path. path ≡ spec.path (table_view table.now)) }
{
    match value_at(table, "path") {
        Some(value) => values::path(alloc, value),
        None => Ok(None),
    }
}

fn method(alloc: Global, table: &Table) -> Result<Option<Bytes>, AllocError>
    ensures { IfOk result (λ method. method ≡ spec.method (table_view table.now)) }
{
    match value_at(table, "method") {
        Some(value) => values::method(alloc, value),
        None => Ok(Some(Bytes::from_slice(alloc, b"GET")?)),
    }
}

fn status(alloc: Global, table: &Table) -> Result<Option<Bytes>, AllocError>
    ensures { IfOk result (λ status. status ≡ spec.status (table_view table.now)) }
{
    match value_at(table, "status") {
        Some(value) => values::text(alloc, value),
        None => Ok(Some(Bytes::from_slice(alloc, b"200 OK")?)),
    }
}

fn fields(alloc: Global, table: &Table) -> Result<Option<Items<Field>>, AllocError>
    ensures { IfOk result (λ fields. fields ≡ spec.fields (table_view table.now)) }
{
    match value_at(table, "fields") {
        Some(value) => values::fields(alloc, value),
        None => Ok(Some(default_fields(alloc)?)),
    }
}

fn default_fields(alloc: Global) -> Result<Items<Field>, AllocError>
    ensures { IfOk result (λ fields. fields ≡ spec.default_fields) }
{
    let mut fields = Vec::new(alloc);
    fields.push(field(alloc, b"Content-Type", b"text/plain; charset=utf-8")?)?;
    Ok(Items::from_vec(fields))
}

fn pieces(alloc: Global, table: &Table) -> Result<Option<Items<Bytes>>, AllocError>
    ensures { IfOk result (λ pieces. pieces ≡ spec.pieces (table_view table.now)) }
{
    match value_at(table, "pieces") {
        Some(value) => values::texts(alloc, value),
        None => Ok(Some(Items::from_vec(Vec::new(alloc)))),
    }
}

// A truth value, or false where there is none.
fn truth_at(table: &Table, key: &str) -> Option<bool>
    ensures { result ≡ spec.truth_at key.now (table_view table.now) }
{
    match value_at(table, key) {
        Some(value) => values::truth(value),
        None => Some(false),
    }
}

fn declared_length(table: &Table) -> Option<Option<u64>>
    ensures { result ≡ spec.declared_length (table_view table.now) }
{
    match value_at(table, "length") {
        Some(value) => match values::count(value) {
            Some(number) => Some(Some(number)),
            None => None,
        },
        None => Some(None),
    }
}

fn has_keys(table: &Table) -> bool
    ensures { result ≡ spec.has_keys (table_view table.now) }
{
    for (key, _value) in table.iter() {
        if !is_key(key.as_str()) {
            return false;
        }
    }
    true
}

#[tactic(auto, unfolding(crate::specs::Rows::is_key))]
fn is_key(key: &str) -> bool
    ensures { result ≡ spec.is_key key.now }
{
    matches!(
        key,
        "path" | "method" | "status" | "fields" | "pieces" | "whole" | "length" | "fail"
    )
}
