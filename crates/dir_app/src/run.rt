//! A response of a directory.
ghost use Rattle.std.specs.Prelude.{◌≡◌, ◌<◌, ◌^◌, None, Some};
ghost use Rattle.std.specs.Option.{option_map_or};
ghost use Rattle.dir_app.specs.FileLaws.{answer_is_counted, file_is_counted};
ghost use Rattle.dir_app.specs.FileSteps as file;
ghost use Rattle.dir_app.specs.Run.{answer_by};
ghost use Rattle.dir_app.specs.Texts as text;

use crate::file_steps::FileSteps;
use crate::text_steps::TextSteps;
use outside::{Spill, TreeEntry};
use std::alloc::Global;
use wsgi::{AppRun, RunFault, Step};

/// The steps of a response.
#[derive(Drop)]
pub(crate) enum Answer<F> {
    Text(TextSteps),
    File(F),
}

/// A response of `DirApp`.
#[derive(Drop)]
pub struct DirRun<E: TreeEntry, S> {
    pub(crate) answer: Answer<FileSteps<E>>,
    pub(crate) spill: S,
}

impl<E: TreeEntry, S: Drop> DirRun<E, S> {
    /// Hands out the entry of the file that was asked for, with its faults.
    pub fn into_entry(self) -> Option<E>
        ensures { result ≡ answer_by (λ _. None) (λ steps. Some steps.entry) self.answer }
    {
        let DirRun { answer, spill: _ } = self;
        match answer {
            Answer::Text(_) => None,
            Answer::File(steps) => {
                let FileSteps {
                    entry,
                    media: _,
                    bodyless: _,
                    progress: _,
                } = steps;
                Some(entry)
            }
        }
    }
}

impl<E: TreeEntry + Drop, S: Spill> AppRun<S> for DirRun<E, S> {
    ghost tells = { E.tells };

    ghost rest = { λ run. answer_by text.rest_of
        (λ steps. file.file_rest steps.bodyless steps.media.now (E.file steps.entry) steps.progress)
        run.answer };

    ghost left = { λ run. answer_by text.left_of (λ steps. file.file_left steps.progress)
        run.answer };

    ghost faults = { λ run. option_map_or E.faults (answer_by (λ _. None)
        (λ steps. Some steps.entry) run.answer) 0 };

    ghost spill_faults = { λ run. S.faults run.spill };

    ghost enough = { λ run told. answer_is_counted
        (λ steps. file.file_rest steps.bodyless steps.media.now (E.file steps.entry) steps.progress)
        (λ steps. file.file_left steps.progress)
        (λ steps. file_is_counted steps.bodyless steps.media.now (E.file steps.entry) steps.progress
        (steps.told told)) run.answer };

    fn next(&mut self, alloc: Global) -> Result<Option<Step>, RunFault> {
        match &mut self.answer {
            Answer::Text(text) => Ok(text.next(alloc)?),
            Answer::File(steps) => steps.next(alloc),
        }
    }

    fn left(&self) -> u64
        ensures left { result ≡ answer_by text.left_of (λ steps. file.file_left steps.progress)
            self.now.answer }
        ensures below { result < 2 ^ 62 }
    {
        match &self.answer {
            Answer::Text(text) => text.left(),
            Answer::File(steps) => steps.left(),
        }
    }

    fn into_spill(self) -> S {
        let DirRun { answer: _, spill } = self;
        spill
    }
}
