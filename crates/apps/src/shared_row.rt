//! A row that a table shares with the responses under way.
ghost use Rattle.std.specs.Prelude.{◌≡◌, ◌<◌, ◌^◌, length, IfOk};

use crate::row::Row;
use std::alloc::{AllocError, Global};
use std::marker::Model;
use std::sync::Arc;

/// A row that is not copied for each response.
#[derive(Debug, Drop)]
pub(crate) struct SharedRow {
    row: Arc<Row>,
}

impl Model for SharedRow {
    ghost use Rattle.std.specs.Prelude.{◌<◌, ◌^◌, length};
    ghost use Rattle.std.specs.Arc.{arc_value};
    ghost use Rattle.apps.specs.declared.row.Row.{Row};

    ghost Value = { Row };

    ghost view = { λ shared. arc_value shared.row };

    ghost invariant = { λ shared. length (arc_value shared.row).pieces < 2 ^ 61 };
}

impl SharedRow {
    /// Shares a row. For one of 2^61 pieces there is no memory.
    pub(crate) fn new(alloc: Global, row: Row) -> Result<SharedRow, AllocError>
        ensures { IfOk result (λ shared. shared ≡ row) }
    {
        if row.pieces.len() >= 1 << 61 {
            return Err(AllocError);
        }
        Ok(SharedRow {
            row: Arc::new(alloc, row)?,
        })
    }

    pub(crate) fn row(&self) -> &Row
        ensures row { result.now ≡ self.now }
        ensures few { length result.now.pieces < 2 ^ 61 }
    {
        &self.row
    }

    /// Another owner of the same row.
    pub(crate) fn share(&self) -> Result<SharedRow, AllocError>
        ensures { IfOk result (λ shared. shared ≡ self.now) }
    {
        Ok(SharedRow {
            row: Arc::try_clone(&self.row)?,
        })
    }
}
