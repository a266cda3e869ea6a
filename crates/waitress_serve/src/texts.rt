//! What is reported to `err`.
ghost use Rattle.std.specs.Prelude.{◌≡◌, ◌≤◌, ◌+◌, ◌++◌, ◌⊎◌, IfOk, IsTrue, OnOk, codes, decimal};
ghost use Rattle.adjust.specs.Texts.{fault_text_of};
ghost use Rattle.waitress_serve.specs.Made.{fault_reason, reason};
ghost use Rattle.waitress_serve.specs.Reports.{Leaves, Unwritten, Written, line_of, status_of};
ghost use Rattle.waitress_serve.specs.Reports.{text_of, unmade_line};

use crate::made::Unmade;
use adjust::{UsageFault, fault_text};
use apps::TableFault;
use itoa::Buffer;
use outside::Sink;
use std::alloc::{AllocError, Global};

/// Why the program ends with a text, where the words are no fault.
#[derive(Clone, Copy, Debug, PartialEq, Eq)]
pub(crate) enum Fault {
    NotBuilt,
    BindFailed,
    PollFailed,
    NoMemory,
}

impl Fault {
    fn status(self) -> u8
        ensures { result ≡ status_of self }
    {
        match self {
            Fault::NotBuilt => 2,
            Fault::BindFailed => 3,
            Fault::PollFailed => 4,
            Fault::NoMemory => 5,
        }
    }

    fn text(self) -> &'static [u8]
        ensures { result.now ≡ text_of self }
    {
        match self {
            Fault::NotBuilt => b"waitress-serve: the application could not be made: not built\n",
            Fault::BindFailed => b"waitress-serve: bind failed\n",
            Fault::PollFailed => b"waitress-serve: poll failed\n",
            Fault::NoMemory => b"waitress-serve: out of memory\n",
        }
    }
}

/// Writes the text of a fault, and answers its status, or 6 where the text cannot be written.
pub(crate) fn report<C: Sink>(err: &mut C, fault: Fault) -> u8
    ensures later { C.faults err.old ≤ C.faults err.new }
    ensures status { Written (status_of fault) result (C.faults err.old) (C.faults err.new)
        ⊎ Unwritten result (C.faults err.old) (C.faults err.new) }
    ensures text { IsTrue C.tells →
        Leaves (text_of fault) (status_of fault) result (C.written err.old) (C.written err.new) }
{
    match err.write(fault.text()) {
        Ok(()) => fault.status(),
        Err(_) => 6,
    }
}

// The line that tells what is wrong with the words.
fn usage_line(alloc: Global, fault: &UsageFault) -> Result<Vec<u8>, AllocError>
    ensures { IfOk result (λ line. line.items ≡ line_of (fault_text_of fault.now)) }
{
    let text = fault_text(alloc, fault)?;
    let mut line = Vec::from_slice(alloc, b"waitress-serve: ")?;
    line.extend_from_slice(text.as_slice())?;
    line.extend_from_slice(b"\n")?;
    Ok(line)
}

/// Writes what is wrong with the words, and answers 1; or reports that memory was refused for the
/// text, or answers 6 where it cannot be written.
pub(crate) fn report_usage<C: Sink>(alloc: Global, err: &mut C, fault: &UsageFault) -> u8
    ensures later { C.faults err.old ≤ C.faults err.new }
    ensures status { Written 1 result (C.faults err.old) (C.faults err.new)
        ⊎ Written 5 result (C.faults err.old) (C.faults err.new)
        ⊎ Unwritten result (C.faults err.old) (C.faults err.new) }
    ensures text { IsTrue C.tells →
        Leaves (line_of (fault_text_of fault.now)) 1 result (C.written err.old) (C.written err.new)
        ⊎ Leaves (text_of Fault.NoMemory) 5 result (C.written err.old) (C.written err.new) }
{
    let Ok(line) = usage_line(alloc, fault) else {
        return report(err, Fault::NoMemory);
    };
    match err.write(line.as_slice()) {
        Ok(()) => 1,
        Err(_) => 6,
    }
}

// The row that is bad, by its place from 0, counted from 1.
fn push_row(text: &mut Vec<u8>, place: usize) -> Result<(), AllocError>
    ensures { OnOk result (text.new.items ≡
        text.old.items ++ (codes "row " ++ (decimal (place + 1) ++ codes " is bad"))) }
{
    let mut buffer = Buffer::new();
    text.extend_from_slice(b"row ")?;
    text.extend_from_slice(buffer.format(place as u128 + 1).as_bytes())?;
    text.extend_from_slice(b" is bad")
}

// What is wrong with a file.
fn push_fault(text: &mut Vec<u8>, fault: &TableFault) -> Result<(), AllocError>
    ensures { OnOk result (text.new.items ≡ text.old.items ++ fault_reason fault.now) }
{
    match *fault {
        TableFault::TooLarge => text.extend_from_slice(b"the file is too large"),
        TableFault::NotToml => text.extend_from_slice(b"the file is not TOML"),
        TableFault::NotTable => text.extend_from_slice(b"the file is not a table"),
        TableFault::TooManyRows => text.extend_from_slice(b"too many rows"),
        TableFault::BadRow(place) => push_row(text, place),
        TableFault::NoMemory => text.extend_from_slice(b"out of memory"),
    }
}

fn push_reason(text: &mut Vec<u8>, why: &Unmade) -> Result<(), AllocError>
    ensures { OnOk result (text.new.items ≡ text.old.items ++ reason why.now) }
{
    match why {
        Unmade::NoFile => text.extend_from_slice(b"no such file"),
        Unmade::Unreadable => text.extend_from_slice(b"the file could not be read"),
        Unmade::Faulty(fault) => push_fault(text, fault),
    }
}

// The line that tells why the application could not be made.
fn line_for(alloc: Global, why: &Unmade) -> Result<Vec<u8>, AllocError>
    ensures { IfOk result (λ line. line.items ≡ unmade_line (reason why.now)) }
{
    let mut line = Vec::from_slice(
        alloc,
        b"waitress-serve: the application could not be made: ",
    )?;
    push_reason(&mut line, why)?;
    line.extend_from_slice(b"\n")?;
    Ok(line)
}

/// Writes why the application could not be made, and answers 2; or reports that memory was refused
/// for the text, or answers 6 where it cannot be written.
pub(crate) fn report_unmade<C: Sink>(alloc: Global, err: &mut C, why: &Unmade) -> u8
    ensures later { C.faults err.old ≤ C.faults err.new }
    ensures status { Written 2 result (C.faults err.old) (C.faults err.new)
        ⊎ Written 5 result (C.faults err.old) (C.faults err.new)
        ⊎ Unwritten result (C.faults err.old) (C.faults err.new) }
    ensures text { IsTrue C.tells →
        Leaves (unmade_line (reason why.now)) 2 result (C.written err.old) (C.written err.new)
        ⊎ Leaves (text_of Fault.NoMemory) 5 result (C.written err.old) (C.written err.new) }
{
    let Ok(line) = line_for(alloc, why) else {
        return report(err, Fault::NoMemory);
    };
    match err.write(line.as_slice()) {
        Ok(()) => 2,
        Err(_) => 6,
    }
}
