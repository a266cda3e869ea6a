//! The rows that a file writes.
ghost use Rattle.std.specs.Prelude.{◌≡◌, map, IfOk};
ghost use Rattle.toml.specs.View.{table_view};
ghost use Rattle.apps.specs.Table as spec;

use crate::document::{document, tables};
use crate::fault::TableFault;
use crate::row_table::row_of;
use crate::shared_row::SharedRow;
use outside::Items;
use std::alloc::{AllocError, Global};
use toml::Table;

const MOST_BYTES: usize = 1_048_576;

const MOST_ROWS: usize = 1000;

/// The rows that a file writes, or what is wrong with it.
#[tactic(auto, unfolding(crate::specs::Table::table_of))]
pub(crate) fn read_rows(
    alloc: Global,
    bytes: &[u8],
) -> Result<Result<Items<SharedRow>, TableFault>, AllocError>
    ensures { IfOk result (λ rows. rows ≡ spec.table_of bytes.now) }
{
    if bytes.len() > MOST_BYTES {
        return Ok(Err(TableFault::TooLarge));
    }
    let Some(document) = document(alloc, bytes)? else {
        return Ok(Err(TableFault::NotToml));
    };
    let Some(tables) = tables(alloc, document)? else {
        return Ok(Err(TableFault::NotTable));
    };
    if tables.len() > MOST_ROWS {
        return Ok(Err(TableFault::TooManyRows));
    }
    each_row(alloc, &tables)
}

#[tactic(auto, using(crate::proofs::Lists::rows_behind_read, crate::proofs::Lists::rows_behind_refused))]
fn each_row(
    alloc: Global,
    tables: &Vec<Table>,
) -> Result<Result<Items<SharedRow>, TableFault>, AllocError>
    ensures { IfOk result (λ rows. rows ≡ spec.rows_from 0 (map table_view tables.now.items)) }
{
    let mut rows = Vec::new(alloc);
    for table in tables {
        match row_of(alloc, table)? {
            Some(row) => rows.push(SharedRow::new(alloc, row)?)?,
            None => return Ok(Err(TableFault::BadRow(rows.len()))),
        }
    }
    Ok(Ok(Items::from_vec(rows)))
}
