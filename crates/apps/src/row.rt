//! A row of a table.
ghost use Rattle.std.specs.Prelude.{◌≡◌, ◌<◌, ◌^◌, ◌++◌, false, length, slice_get, IfOk, OnOk};
ghost use Rattle.apps.specs.TableScript as spec;
ghost use Rattle.wsgi.specs.declared.step.Step.TheVariants.{Start};

use crate::answers::{field, length_field};
use head_grammar::Field;
use outside::{Bytes, Items};
use std::alloc::{AllocError, Global};
use wsgi::Step;

/// What answers the requests of one path and method.
#[derive(Debug, Drop)]
pub(crate) struct Row {
    pub(crate) path: Bytes,
    pub(crate) method: Bytes,
    pub(crate) status: Bytes,
    pub(crate) fields: Items<Field>,
    pub(crate) pieces: Items<Bytes>,
    /// Whether the one piece is known to be all of the body.
    pub(crate) whole: bool,
    /// The length that is declared, whatever the pieces have.
    pub(crate) length: Option<u64>,
    /// Whether the application fails behind the pieces.
    pub(crate) fail: bool,
}

impl Row {
    /// Whether it answers the requests of this method and path.
    pub(crate) fn answers(&self, method: &[u8], path: &[u8]) -> bool
        ensures { result ≡ spec.answers method.now path.now self.now }
    {
        self.path.as_slice() == path
            && (self.method.as_slice() == method
                || self.method.as_slice() == b"GET".as_slice() && method == b"HEAD".as_slice())
    }

    /// How many steps it has.
    pub(crate) fn count(&self) -> usize
        requires few { length self.now.pieces < 2 ^ 61 }
        ensures steps { result ≡ length (spec.row_script self.now) }
        ensures below { result < 2 ^ 62 }
    {
        1 + self.pieces.len() + usize::from(self.fail)
    }

    /// The step at a place, from 0.
    #[tactic(auto, using(crate::proofs::StepLemmas::get_behind))]
    pub(crate) fn step(&self, alloc: Global, place: usize) -> Result<Option<Step>, AllocError>
        ensures { IfOk result (λ step. step ≡ slice_get (spec.row_script self.now) place) }
    {
        if place == 0 {
            Ok(Some(self.start(alloc)?))
        } else {
            self.step_behind_start(alloc, place - 1)
        }
    }

    #[tactic(auto, using(crate::proofs::StepLemmas::get_mapped, crate::proofs::StepLemmas::get_past_mapped))]
    fn step_behind_start(&self, alloc: Global, place: usize) -> Result<Option<Step>, AllocError>
        ensures { IfOk result (λ step. step ≡ slice_get (spec.behind_start self.now) place) }
    {
        match self.pieces.as_slice().get(place) {
            Some(piece) => {
                let piece = Bytes::from_slice(alloc, piece.as_slice())?;
                Ok(Some(self.body_step(piece)))
            }
            None => Ok(self.failure_at(place - self.pieces.len())),
        }
    }

    #[tactic(auto, using(crate::proofs::StepLemmas::get_past))]
    fn failure_at(&self, place: usize) -> Option<Step>
        ensures { result ≡ slice_get (spec.failure self.now.fail) place }
    {
        if self.fail && place == 0 {
            Some(Step::Fail)
        } else {
            None
        }
    }

    fn start(&self, alloc: Global) -> Result<Step, AllocError>
        ensures { IfOk result (λ step. step ≡ Start self.now.status (spec.start_fields self.now)
            false) }
    {
        let mut fields = copies(alloc, self.fields.as_slice())?;
        add_length(alloc, &mut fields, self.length)?;
        Ok(Step::Start {
            status: Bytes::from_slice(alloc, self.status.as_slice())?,
            fields: Items::from_vec(fields),
            replace: false,
        })
    }

    fn body_step(&self, piece: Bytes) -> Step
        ensures { result ≡ spec.body_step self.now.whole piece }
    {
        if self.whole {
            Step::Whole(piece)
        } else {
            Step::Piece(piece)
        }
    }
}

fn copies(alloc: Global, fields: &[Field]) -> Result<Vec<Field>, AllocError>
    ensures { IfOk result (λ copies. copies.items ≡ fields.now) }
{
    let mut copies = Vec::new(alloc);
    for given in fields {
        copies.push(field(alloc, given.name.as_slice(), given.value.as_slice())?)?;
    }
    Ok(copies)
}

// Declares a length behind the other fields.
fn add_length(alloc: Global, fields: &mut Vec<Field>, length: Option<u64>) -> Result<(), AllocError>
    ensures { OnOk result (fields.new.items ≡ fields.old.items ++ spec.length_fields length) }
{
    match length {
        Some(length) => {
            fields.push(length_field(alloc, length)?)?;
            Ok(())
        }
        None => Ok(()),
    }
}
