//! The steps of a response that is a short text.
ghost use Rattle.std.specs.Prelude.{◌≡◌, ◌≤◌, ◌∷◌, length, slice_get, IfOk, OnErr, Ok};
ghost use Rattle.wsgi.specs.Run.{FallsWithStep, TakesStep};
ghost use Rattle.dir_app.specs.Texts as spec;

use apps::{field, not_found_step, text_step};
use head_grammar::Field;
use std::alloc::{AllocError, Global};
use wsgi::Step;

/// A short text.
#[derive(Clone, Copy, Debug)]
pub(crate) enum Text {
    NotFound,
    NotAllowed,
}

/// The steps of a text, of which some were given.
#[derive(Clone, Copy, Debug)]
pub(crate) struct TextSteps {
    pub(crate) text: Text,
    pub(crate) given: usize,
}

impl TextSteps {
    pub(crate) fn new(text: Text) -> TextSteps
        ensures { result ≡ record { text = text; given = 0 } }
    {
        TextSteps { text, given: 0 }
    }

    /// The first step, and those behind it.
    pub(crate) fn begin(alloc: Global, text: Text) -> Result<(Step, TextSteps), AllocError>
        ensures steps { IfOk result (λ begun. spec.steps_of text ≡ begun.0 ∷ spec.rest_of begun.1) }
        ensures left { IfOk result (λ begun. spec.left_of begun.1 ≡ 1) }
    {
        match step_of(alloc, text, 0)? {
            Some(step) => Ok((step, TextSteps { text, given: 1 })),
            None => unreachable!(),
        }
    }

    /// The next step, or `None` behind the last one.
    #[tactic(auto, using(crate::proofs::TextLemmas::get_taken, crate::proofs::TextLemmas::get_over, crate::proofs::TextLemmas::place_within))]
    pub(crate) fn next(&mut self, alloc: Global) -> Result<Option<Step>, AllocError>
        ensures steps { IfOk result (λ step. TakesStep (Ok step) (spec.rest_of self.old)
            (spec.rest_of self.new)) }
        ensures left { IfOk result (λ step. FallsWithStep (Ok step) (spec.left_of self.old)
            (spec.left_of self.new)) }
        ensures kept { OnErr result (self.new ≡ self.old) }
    {
        match step_of(alloc, self.text, self.given)? {
            Some(step) => {
                self.given += 1;
                Ok(Some(step))
            }
            None => Ok(None),
        }
    }

    /// How many steps are left.
    #[tactic(auto, using(crate::proofs::TextLemmas::two_steps))]
    pub(crate) fn left(&self) -> u64
        ensures left { result ≡ spec.left_of self.now }
        ensures below { result ≤ 2 }
    {
        2_usize.saturating_sub(self.given) as u64
    }
}

#[tactic(auto, using(crate::proofs::TextLemmas::two_steps))]
fn step_of(alloc: Global, text: Text, place: usize) -> Result<Option<Step>, AllocError>
    ensures step { IfOk result (λ step. step ≡ slice_get (spec.steps_of text) place) }
    ensures two { length (spec.steps_of text) ≡ 2 }
{
    match text {
        Text::NotFound => not_found_step(alloc, place),
        Text::NotAllowed => not_allowed_step(alloc, place),
    }
}

fn not_allowed_step(alloc: Global, place: usize) -> Result<Option<Step>, AllocError>
    ensures { IfOk result (λ step. step ≡ slice_get spec.not_allowed place) }
{
    text_step(
        alloc,
        place,
        b"405 Method Not Allowed",
        allowed(alloc)?,
        b"Method Not Allowed",
    )
}

fn allowed(alloc: Global) -> Result<Vec<Field>, AllocError>
    ensures { IfOk result (λ fields. fields.items ≡ spec.allowed) }
{
    let mut fields = Vec::new(alloc);
    fields.push(field(alloc, b"Allow", b"GET, HEAD")?)?;
    Ok(fields)
}
