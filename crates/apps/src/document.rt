//! The document of a file, and the tables that are its rows.
ghost use Rattle.std.specs.Prelude.{◌≡◌, map, option_map, IfOk};
ghost use Rattle.toml.specs.View.{array_view, table_view, view};
ghost use Rattle.apps.specs.Rows.{each, list_of, table_in};
ghost use Rattle.apps.specs.Table as spec;

use std::alloc::{AllocError, Global};
use toml::value::Array;
use toml::{Table, Value};

/// The document that bytes write.
#[tactic(auto, using(crate::proofs::Documents::document_read, crate::proofs::Documents::document_refused))]
pub(crate) fn document(alloc: Global, bytes: &[u8]) -> Result<Option<Table>, AllocError>
    ensures { IfOk result (λ found. option_map table_view found ≡ spec.document bytes.now) }
{
    match toml::table_from_slice(alloc, bytes) {
        Ok(table) => Ok(Some(table)),
        Err(error) => {
            if error.is_memory() {
                Err(AllocError)
            } else {
                Ok(None)
            }
        }
    }
}

/// The tables under the one key of a document. One without a key has none.
#[tactic(auto, using(crate::proofs::Documents::one_key, crate::proofs::Documents::more_keys))]
pub(crate) fn tables(alloc: Global, document: Table) -> Result<Option<Vec<Table>>, AllocError>
    ensures { IfOk result (λ found. option_map (λ all. map table_view all.items)
        found ≡ spec.tables_of (table_view document)) }
{
    let mut rest = document;
    match rest.pop_first() {
        Some((key, value)) => {
            if rest.len() > 0 {
                return Ok(None);
            }
            if key.as_str() != "row" {
                return Ok(None);
            }
            tables_in(alloc, value)
        }
        None => Ok(Some(Vec::new(alloc))),
    }
}

fn tables_in(alloc: Global, value: Value) -> Result<Option<Vec<Table>>, AllocError>
    ensures { IfOk result (λ found. option_map (λ all. map table_view all.items) found ≡ list_of
        table_in (view value)) }
{
    match value {
        Value::Array(list) => each_table(alloc, list),
        _ => Ok(None),
    }
}

fn each_table(alloc: Global, list: Array) -> Result<Option<Vec<Table>>, AllocError>
    ensures { IfOk result (λ found. option_map (λ all. map table_view all.items) found ≡ each
        table_in (array_view list)) }
{
    let mut all = Vec::new(alloc);
    for value in list {
        match value {
            Value::Table(table) => all.push(table)?,
            _ => return Ok(None),
        }
    }
    Ok(Some(all))
}
