//! Parts of responses that the applications share.
ghost use Rattle.std.specs.Prelude.{◌≡◌, false, slice_get, IfOk, OnOk};
ghost use Rattle.apps.specs.Answers as answers;
ghost use Rattle.apps.specs.Variables as spec;
ghost use Rattle.wsgi.specs.declared.step.Step.TheVariants.{Start};

use head_grammar::Field;
use itoa::Buffer;
use outside::{Bytes, Items};
use std::alloc::{AllocError, Global};
use wsgi::{Environ, Step};

/// How many bytes a piece of a body has, but for the last one.
pub const PIECE_SIZE: u64 = 32768;

/// A field of a response's head.
pub fn field(alloc: Global, name: &[u8], value: &[u8]) -> Result<Field, AllocError>
    ensures { IfOk result (λ field. field ≡ record { name = name.now; value = value.now }) }
{
    Ok(Field {
        name: Bytes::from_slice(alloc, name)?,
        value: Bytes::from_slice(alloc, value)?,
    })
}

/// The field of a length.
pub fn length_field(alloc: Global, length: u64) -> Result<Field, AllocError>
    ensures { IfOk result (λ field. field ≡ answers.length_field length) }
{
    let mut digits = Buffer::new();
    field(alloc, b"Content-Length", digits.format(length).as_bytes())
}

/// The value of a variable. One that is left out is empty.
pub fn variable<'a>(environ: &'a Environ, name: &[u8]) -> &'a [u8]
    ensures { result.now ≡ spec.variable name.now environ.now }
{
    environ.get(name).unwrap_or(&[])
}

/// The step at a place, from 0, of the response 404.
pub fn not_found_step(alloc: Global, place: usize) -> Result<Option<Step>, AllocError>
    ensures { IfOk result (λ step. step ≡ slice_get answers.not_found place) }
{
    text_step(
        alloc,
        place,
        b"404 Not Found",
        Vec::new(alloc),
        b"Not Found",
    )
}

/// The step at a place, from 0, of a response that is a short text, with these fields in front of
/// its own.
#[tactic(auto, unfolding(crate::specs::Answers::text_script))]
pub fn text_step(
    alloc: Global,
    place: usize,
    status: &[u8],
    fields: Vec<Field>,
    text: &[u8],
) -> Result<Option<Step>, AllocError>
    ensures { IfOk result (λ step. step ≡ slice_get (answers.text_script status.now fields.items
        text.now) place) }
{
    match place {
        0 => Ok(Some(text_start(alloc, status, fields, text.len())?)),
        1 => Ok(Some(Step::Whole(Bytes::from_slice(alloc, text)?))),
        _ => Ok(None),
    }
}

fn text_start(
    alloc: Global,
    status: &[u8],
    fields: Vec<Field>,
    length: usize,
) -> Result<Step, AllocError>
    ensures { IfOk result (λ step. step ≡ Start status.now (answers.text_fields fields.items length)
        false) }
{
    let mut fields = fields;
    add_text_fields(alloc, &mut fields, length)?;
    Ok(Step::Start {
        status: Bytes::from_slice(alloc, status)?,
        fields: Items::from_vec(fields),
        replace: false,
    })
}

#[tactic(auto, using(crate::proofs::StepLemmas::two_more))]
fn add_text_fields(alloc: Global, fields: &mut Vec<Field>, length: usize) -> Result<(), AllocError>
    ensures { OnOk result (fields.new.items ≡ answers.text_fields fields.old.items length) }
{
    fields.push(field(alloc, b"Content-Type", b"text/plain; charset=utf-8")?)?;
    fields.push(length_field(alloc, length as u64)?)?;
    Ok(())
}
