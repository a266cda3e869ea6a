//! What is printed of a rehearsal.
ghost use Rattle.std.specs.Prelude.{◌≡◌, ◌++◌, ◌⊎◌, IsTrue};
ghost use Rattle.outside.specs.Causes.{Rose};
ghost use Rattle.rehearsal.specs.Summary.{summary_text};
ghost use Rattle.rehearsal.specs.Sums.{sums_of};
ghost use Rattle.rehearse.specs.Rehearsed.{WritesPart};

use outside::{MemLink, Retired, Sink};
use rehearsal::summary;
use std::alloc::Global;

/// Prints the sums. Answers 0 where all is printed, 5 where memory was refused, and 6 where `out`
/// failed.
pub(crate) fn print<C: Sink>(alloc: Global, entries: &[Retired<MemLink>], out: &mut C) -> u8
    ensures zero { result ≡ 0 → C.faults out.new ≡ C.faults out.old }
    ensures whole { IsTrue C.tells → result ≡ 0 →
        C.written out.new ≡ C.written out.old ++ summary_text (sums_of entries.now) }
    ensures five { result ≡ 5 → C.faults out.new ≡ C.faults out.old }
    ensures nothing { IsTrue C.tells → result ≡ 5 → C.written out.new ≡ C.written out.old }
    ensures six { result ≡ 6 → Rose (C.faults out.old) (C.faults out.new) }
    ensures part { IsTrue C.tells → result ≡ 6 →
        WritesPart (summary_text (sums_of entries.now)) (C.written out.old) (C.written out.new) }
    ensures no_other { (result ≡ 0) ⊎ (result ≡ 5) ⊎ (result ≡ 6) }
{
    let Ok(text) = summary(alloc, entries) else {
        return 5;
    };
    match out.write(text.as_slice()) {
        Ok(()) => 0,
        Err(_) => 6,
    }
}
