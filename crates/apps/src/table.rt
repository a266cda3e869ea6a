//! The application that answers by a table of rows.
ghost use Rattle.std.specs.Prelude.{◌≡◌, ◌≢◌, ◌<◌, ◌^◌, ◌-◌, true, length, slice_get, drop, find};
ghost use Rattle.std.specs.Prelude.{option_copied, IfOk, IfSome, IsSome, Err};
ghost use Rattle.apps.specs.Table.{table_of, IsOrLacksMemory};
ghost use Rattle.apps.specs.TableScript.{answers, script_for, table_script};
ghost use Rattle.apps.specs.TableLaws.{rest_is_counted};
ghost use Rattle.apps.specs.declared.fault.TableFault.TheVariants.{NoMemory as WantOfMemory};

use crate::answers::{not_found_step, variable};
use crate::fault::TableFault;
use crate::reading::read_rows;
use crate::shared_row::SharedRow;
use outside::{Items, NoMemory, Spill};
use spill_buffer::OverflowBuffer;
use std::alloc::{AllocError, Global};
use std::marker::Model;
use wsgi::{App, AppRun, Environ, RunFault, Step};

/// Answers each request by the first row of its path and method.
#[derive(Debug, Drop)]
pub struct TableApp {
    rows: Items<SharedRow>,
}

impl Model for TableApp {
    ghost use Rattle.std.specs.Prelude.{List};
    ghost use Rattle.apps.specs.declared.row.Row.{Row};

    ghost Value = { List Row };

    ghost view = { λ table. table.rows };
}

impl TableApp {
    /// The table that a file writes in TOML. Where memory is refused, `NoMemory` may stand for any
    /// other answer.
    #[tactic(auto, using(crate::proofs::TableFaults::never_memory))]
    pub fn read(alloc: Global, bytes: &[u8]) -> Result<TableApp, TableFault>
        ensures table { IsOrLacksMemory (table_of bytes.now) result }
        ensures memory { table_of bytes.now ≢ Err WantOfMemory }
    {
        match read_rows(alloc, bytes) {
            Ok(Ok(rows)) => Ok(TableApp { rows }),
            Ok(Err(fault)) => Err(fault),
            Err(_) => Err(TableFault::NoMemory),
        }
    }

    // The first row that answers requests of this method and path.
    fn row_for(&self, method: &[u8], path: &[u8]) -> Option<&SharedRow>
        ensures { option_copied result ≡ find (answers method.now path.now) self.now }
    {
        self.rows
            .as_slice()
            .iter()
            .find(|row| row.row().answers(method, path))
    }
}

/// A response of `TableApp`.
#[derive(Debug, Drop)]
pub struct TableRun<S> {
    row: Option<SharedRow>,
    /// How many steps were given.
    given: usize,
    spill: S,
}

impl<S: Spill + Send + Drop> App<S> for TableApp {
    type Run = TableRun<S>;

    ghost tells = { true };

    ghost script = { λ table. table_script table };

    ghost run_tells = { λ told. told };

    fn begin(
        &self,
        alloc: Global,
        environ: Environ,
        body: &mut Option<OverflowBuffer<S>>,
    ) -> Result<TableRun<S>, NoMemory>
        requires body { IsSome body.old }
        ensures script { IfSome body.old (λ body. IfOk result (λ run.
            drop run.given (script_for run.row) ≡ table_script self.now environ body.bytes)) }
        ensures spill { IfSome body.old (λ body. IfOk result (λ run.
            S.faults run.spill ≡ S.faults body.spill)) }
    {
        let body = body.take().unwrap();
        let method = variable(&environ, b"REQUEST_METHOD");
        let path = variable(&environ, b"PATH_INFO");
        let row = match self.row_for(method, path) {
            Some(row) => match row.share() {
                Ok(row) => Some(row),
                Err(_) => return Err(NoMemory),
            },
            None => None,
        };
        Ok(TableRun {
            row,
            given: 0,
            spill: body.into_spill(),
        })
    }
}

impl<S: Spill> AppRun<S> for TableRun<S> {
    ghost tells = { true };

    ghost rest = { λ run. drop run.given (script_for run.row) };

    ghost left = { λ run. length (script_for run.row) - run.given };

    ghost faults = { λ _. 0 };

    ghost spill_faults = { λ run. S.faults run.spill };

    ghost enough = { λ run told. rest_is_counted run.given (script_for run.row) };

    #[tactic(auto, using(crate::proofs::StepLemmas::get_taken, crate::proofs::StepLemmas::get_over, crate::proofs::StepLemmas::place_within))]
    fn next(&mut self, alloc: Global) -> Result<Option<Step>, RunFault> {
        match step_of(alloc, &self.row, self.given)? {
            Some(step) => {
                self.given += 1;
                Ok(Some(step))
            }
            None => Ok(None),
        }
    }

    fn left(&self) -> u64
        ensures left { result ≡ length (script_for self.now.row) - self.now.given }
        ensures below { result < 2 ^ 62 }
    {
        count_of(&self.row).saturating_sub(self.given) as u64
    }

    fn into_spill(self) -> S {
        let TableRun {
            row: _,
            given: _,
            spill,
        } = self;
        spill
    }
}

// How many steps a row has, or a response where there is none.
#[tactic(auto, unfolding(crate::specs::Answers::text_script))]
fn count_of(row: &Option<SharedRow>) -> usize
    ensures steps { result ≡ length (script_for row.now) }
    ensures below { result < 2 ^ 62 }
{
    match row {
        Some(row) => row.row().count(),
        None => 2,
    }
}

// The step at a place of a row, or of a response where there is none.
#[tactic(auto, unfolding(crate::specs::Answers::text_script), using(crate::proofs::StepLemmas::row_few))]
fn step_of(alloc: Global, row: &Option<SharedRow>, place: usize) -> Result<Option<Step>, AllocError>
    ensures step { IfOk result (λ step. step ≡ slice_get (script_for row.now) place) }
    ensures few { length (script_for row.now) < 2 ^ 62 }
{
    match row {
        Some(row) => row.row().step(alloc, place),
        None => not_found_step(alloc, place),
    }
}
