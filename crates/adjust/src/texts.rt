//! What is printed: the texts of faults, the adjustments and the help.
ghost use Rattle.std.specs.Prelude.{◌≡◌, ◌++◌, IfOk, OnOk, codes, decimal, map};
ghost use Rattle.std.specs.List.{concat};
ghost use Rattle.adjust.specs.Options.{row_of};
ghost use Rattle.adjust.specs.Texts as spec;

use crate::UsageFault;
use crate::options::{Form, OptionRow, rows};
use itoa::Buffer;
use outside::Bytes;
use std::alloc::{AllocError, Global};

pub(crate) fn push_number(text: &mut Vec<u8>, number: u64) -> Result<(), AllocError>
    ensures { OnOk result (text.new.items ≡ text.old.items ++ decimal number) }
{
    let mut buffer = Buffer::new();
    text.extend_from_slice(buffer.format(number).as_bytes())
}

fn name_at(place: usize) -> &'static [u8]
    ensures { result.now ≡ spec.name_at place }
{
    match rows().get(place) {
        Some(row) => row.name.as_bytes(),
        None => b"",
    }
}

fn form_at(place: usize) -> Form
    ensures { result ≡ spec.form_at place }
{
    match rows().get(place) {
        Some(row) => row.form,
        None => Form::Flag,
    }
}

fn about(alloc: Global, place: usize, rest: &[u8]) -> Result<Vec<u8>, AllocError>
    ensures { IfOk result (λ text. text.items ≡ spec.about place rest.now) }
{
    let mut text = Vec::from_slice(alloc, b"--")?;
    text.extend_from_slice(name_at(place))?;
    text.extend_from_slice(rest)?;
    Ok(text)
}

fn push_range(text: &mut Vec<u8>, form: Form) -> Result<(), AllocError>
    ensures { OnOk result (text.new.items ≡ text.old.items ++ spec.range_text form) }
{
    if let Form::Number { low, high } = form {
        push_number(text, low)?;
        text.extend_from_slice(b" to ")?;
        push_number(text, high)?;
    }
    Ok(())
}

fn out_of_range(alloc: Global, place: usize) -> Result<Vec<u8>, AllocError>
    ensures { IfOk result (λ text. text.items ≡ spec.about place (codes " must be from ") ++
        spec.range_text (spec.form_at place)) }
{
    let mut text = about(alloc, place, b" must be from ")?;
    push_range(&mut text, form_at(place))?;
    Ok(text)
}

fn bad_entry(alloc: Global, entry: usize) -> Result<Vec<u8>, AllocError>
    ensures { IfOk result (λ text. text.items ≡ codes "--listen entry " ++
        (decimal entry ++ codes " is not host:port")) }
{
    let mut text = Vec::from_slice(alloc, b"--listen entry ")?;
    push_number(&mut text, entry as u64)?;
    text.extend_from_slice(b" is not host:port")?;
    Ok(text)
}

/// What is wrong, in words.
#[tactic(auto, unfolding(crate::specs::Texts::fault_text_of))]
pub fn fault_text(alloc: Global, fault: &UsageFault) -> Result<Bytes, AllocError>
    ensures { IfOk result (λ text. text ≡ spec.fault_text_of fault.now) }
{
    let text = match *fault {
        UsageFault::Words => Vec::from_slice(alloc, b"the words could not be read")?,
        UsageFault::BadValue(place) => about(alloc, place, b" has a bad value")?,
        UsageFault::BadNumber(place) => about(alloc, place, b" needs a whole number")?,
        UsageFault::OutOfRange(place) => out_of_range(alloc, place)?,
        UsageFault::BadListen(entry) => bad_entry(alloc, entry)?,
        UsageFault::BothWays(place) => about(alloc, place, b" is given both ways")?,
        UsageFault::ProxyAlone(place) => about(alloc, place, b" needs --trusted-proxy")?,
        UsageFault::NoApplication => Vec::from_slice(alloc, b"no application is named")?,
        UsageFault::BadApplication => Vec::from_slice(alloc, b"unknown application")?,
        UsageFault::Operands => Vec::from_slice(alloc, b"wrong number of operands")?,
        UsageFault::NoMemory => Vec::from_slice(alloc, b"out of memory")?,
    };
    Ok(Bytes::from_vec(text))
}

fn value_mark(form: Form) -> &'static [u8]
    ensures { result.now ≡ spec.value_mark form }
{
    match form {
        Form::Flag => b"\n",
        _ => b"=VALUE\n",
    }
}

fn push_help_line(text: &mut Vec<u8>, row: &OptionRow) -> Result<(), AllocError>
    ensures { OnOk result (text.new.items ≡ text.old.items ++ spec.help_line (row_of row.now)) }
{
    text.extend_from_slice(b"  --")?;
    text.extend_from_slice(row.name.as_bytes())?;
    text.extend_from_slice(value_mark(row.form))
}

fn push_help_lines(text: &mut Vec<u8>, rows: &[OptionRow]) -> Result<(), AllocError>
    ensures { OnOk result (text.new.items ≡ text.old.items
        ++ concat (map (λ row. spec.help_line (row_of row)) rows.now)) }
{
    for row in rows {
        push_help_line(text, row)?;
    }
    Ok(())
}

/// How the program is called, and its options.
#[tactic(auto, unfolding(crate::specs::Texts::help_text_of))]
pub fn help_text(alloc: Global) -> Result<Bytes, AllocError>
    ensures { IfOk result (λ text. text ≡ spec.help_text_of) }
{
    let mut text = Vec::from_slice(
        alloc,
        b"usage: waitress-serve [options] echo | table FILE | dir ROOT\n",
    )?;
    push_help_lines(&mut text, rows())?;
    Ok(Bytes::from_vec(text))
}
