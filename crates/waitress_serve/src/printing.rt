//! What is printed to `out`.
ghost use Rattle.std.specs.Prelude.{◌≡◌, ◌++◌, ◌⊎◌, IfOk, IsTrue, OnOk, Ok as ok};
ghost use Rattle.outside.specs.Causes.{Rose};
ghost use Rattle.waitress_serve.specs.Reading.{prints};
ghost use Rattle.waitress_serve.specs.Status.{WritesPart, printed, serving_line, serving_lines};

use adjust::{Command, check_text, help_text, push_listen};
use outside::{Bytes, Listen, Sink};
use std::alloc::{AllocError, Global};

// Writes the line that tells an address.
fn push_line(text: &mut Vec<u8>, listen: &Listen) -> Result<(), AllocError>
    ensures { OnOk result (text.new.items ≡ text.old.items ++ serving_line listen.now) }
{
    text.extend_from_slice(b"Serving on http://")?;
    push_listen(text, listen)?;
    text.extend_from_slice(b"\n")
}

/// What is printed before serving: a line for each address.
pub(crate) fn lines_of(alloc: Global, listen: &[Listen]) -> Result<Bytes, AllocError>
    ensures { IfOk result (λ text. text ≡ serving_lines listen.now) }
{
    let mut text = Vec::new(alloc);
    for one in listen {
        push_line(&mut text, one)?;
    }
    Ok(Bytes::from_vec(text))
}

// What a command prints that does nothing else.
fn text_of(alloc: Global, command: &Command) -> Result<Bytes, AllocError>
    requires { IsTrue (prints (ok command.now)) }
    ensures { IfOk result (λ text. text ≡ printed (ok command.now)) }
{
    match command {
        Command::Check(options) => check_text(alloc, options),
        Command::Help => help_text(alloc),
        Command::Serve(_, _) | Command::Rehearse(_) => unreachable!(),
    }
}

/// Prints the options, or how the program is called. Answers the status: 0 where all is printed, 5
/// where memory was refused, and 6 where `out` failed.
pub fn check<C: Sink>(alloc: Global, command: &Command, out: &mut C) -> u8
    requires prints { IsTrue (prints (ok command.now)) }
    ensures zero { result ≡ 0 → C.faults out.new ≡ C.faults out.old }
    ensures whole { IsTrue C.tells → result ≡ 0 →
        C.written out.new ≡ C.written out.old ++ printed (ok command.now) }
    ensures five { result ≡ 5 → C.faults out.new ≡ C.faults out.old }
    ensures nothing { IsTrue C.tells → result ≡ 5 → C.written out.new ≡ C.written out.old }
    ensures six { result ≡ 6 → Rose (C.faults out.old) (C.faults out.new) }
    ensures part { IsTrue C.tells →
        WritesPart (printed (ok command.now)) (C.written out.old) (C.written out.new) }
    ensures no_other { (result ≡ 0) ⊎ (result ≡ 5) ⊎ (result ≡ 6) }
{
    let Ok(text) = text_of(alloc, command) else {
        return 5;
    };
    match out.write(text.as_slice()) {
        Ok(()) => 0,
        Err(_) => 6,
    }
}
