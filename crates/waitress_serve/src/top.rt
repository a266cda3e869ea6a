//! The top call.
ghost use Rattle.std.specs.Prelude.{◌≡◌, ◌≢◌, ◌<◌, ◌≤◌, ◌⊎◌, ◌&&◌, ◌||◌, IsTrue, false, ◌++◌, Some};
ghost use Rattle.adjust.specs.Command.{command};
ghost use Rattle.adjust.specs.CommandLine.{words_of};
ghost use Rattle.channel.specs.Views.{telling};
ghost use Rattle.outside.specs.Causes.{Rose};
ghost use Rattle.poll_loop.specs.Accounts.{Stops};
ghost use Rattle.poll_loop.specs.Entries.{EntryHolds};
ghost use Rattle.waitress_serve.specs.Completeness.{Completes, IsBrief, IsStill};
ghost use Rattle.waitress_serve.specs.Headline.{Added, KeepsLimit, RetiresGiven, SettlesRuns};
ghost use Rattle.waitress_serve.specs.Headline.{SettlesSpills, ShutLast, WentDown, grounds};
ghost use Rattle.waitress_serve.specs.Made.{CannotMake, can_serve, reads_files, reads_table};
ghost use Rattle.waitress_serve.specs.Owed.{is_told, owed, service};
ghost use Rattle.waitress_serve.specs.Reading.{is_faulty, is_unbuilt, prints, serves};
ghost use Rattle.waitress_serve.specs.Reports.{Reports, Writes, WritesSome};
ghost use Rattle.waitress_serve.specs.Status.{MeetsLimit, WritesPart, limit_by, listen_by, printed};
ghost use Rattle.waitress_serve.specs.Status.{timeout_by};
ghost use Rattle.waitress_serve.specs.declared.made.Unmade.{Unmade};

use crate::conclusion::Conclusion;
use crate::starting::run_words;
use crate::texts::{Fault, report, report_unmade, report_usage};
use outside::{Net, Sink, Spills, Tree, Trigger};
use std::alloc::Global;
use std::sync::Wait;
use std::thread::Threads;

/// Does all that the program does, and answers its status.
pub fn run<W: Threads + Wait + Sync, N: Net, T: Tree, P: Spills, C: Sink, G: Trigger>(
    rt: &W,
    alloc: Global,
    words: &[String],
    net: &mut N,
    tree: &mut T,
    spills: &mut P,
    out: &mut C,
    err: &mut C,
    trigger: &G,
) -> u8
    // Each connection was sent a prefix of what it is owed for what arrived, and its end has its
    // cause. No run breaks of an application that reads no files.
    ensures headline { IsTrue N.tells → Added
        (EntryHolds (service (telling N.Link.tells P.Spill.tells
        (is_told (words_of words.now) P.Spill.tells (T.tells && T.Entry.tells)))
        (words_of words.now) (T.files tree.old))
        (grounds (WentDown result (N.state net.old) (N.state net.new) (C.faults err.old)
        (C.faults err.new))
        (IsTrue (reads_files (command (words_of words.now)))))
        N.Link.state N.Link.faults (N.state net.new))
        (N.state net.old).closed (N.state net.new).closed }

    // Who was shut down comes last; no more were than were open at the last poll, or came since.
    ensures shut_last { IsTrue N.tells → ((N.state net.new).closed ≡ (N.state net.old).closed)
        ⊎ ShutLast (N.state net.old) (N.state net.new) }

    // No more came than are to be served. Each that came was retired, and none that was open
    // before.
    ensures limited { IsTrue N.tells →
        KeepsLimit (limit_by (command (words_of words.now))) (N.state net.old) (N.state net.new) }
    ensures given { IsTrue N.tells → RetiresGiven N.Link.plan (N.state net.old) (N.state net.new) }
    ensures live { IsTrue N.tells → (N.state net.new).live ≡ (N.state net.old).live }
    ensures quiet { IsTrue N.tells → (N.state net.new).quiet ≡ (N.state net.old).quiet }
    ensures plan { N.plan net.new ≡ N.plan net.old }
    ensures bound { IsTrue N.tells → (N.state net.old).polls < (N.state net.new).polls →
        (N.state net.new).bound ≡ Some (listen_by (command (words_of words.now))) }

    // The files stay as they are. The tree's count rose at least as often as a connection ended for
    // a fault of the application. Without runs that read files it rises only where the file of a
    // table could not be read, and then nothing else is done.
    ensures files { IsTrue T.tells → T.files tree.new ≡ T.files tree.old }
    ensures tree { T.faults tree.old ≤ T.faults tree.new }
    ensures fell { IsTrue N.tells → SettlesRuns (T.faults tree.old) (T.faults tree.new)
        (N.state net.old).closed (N.state net.new).closed }
    ensures tree_kept { (reads_files (command (words_of words.now)) || reads_table
        (command (words_of words.now))) ≡ false →
        T.faults tree.new ≡ T.faults tree.old }
    ensures tree_failed { reads_files (command (words_of words.now)) ≡ false →
        T.faults tree.old < T.faults tree.new →
        (result ≡ 2) ⊎ (result ≡ 5) ⊎ ((result ≡ 6) × Rose (C.faults err.old) (C.faults err.new)) }
    ensures unread { reads_files (command (words_of words.now)) ≡ false →
        T.faults tree.old < T.faults tree.new →
        (N.bind_faults net.new ≡ N.bind_faults net.old) ×
        (N.poll_faults net.new ≡ N.poll_faults net.old) ×
        (C.faults out.new ≡ C.faults out.old) }
    ensures unread_net { IsTrue N.tells → reads_files (command (words_of words.now)) ≡ false →
        T.faults tree.old < T.faults tree.new → N.state net.new ≡ N.state net.old }

    // A connection that a spill's fault ended had its spill settled, which counts it.
    ensures spills { P.faults spills.old ≤ P.faults spills.new }
    ensures settled { IsTrue N.tells → SettlesSpills (P.faults spills.old) (P.faults spills.new)
        (N.state net.old).closed (N.state net.new).closed }

    // Over a quiet net, where all tells, no count of faults rises and no longer goes by than the
    // timeout, the status is 0 or 5; with 0 each connection whose link didn't fail was answered
    // whole, or refused memory.
    ensures complete { IsTrue N.tells → IsTrue N.Link.tells → IsTrue P.Spill.tells →
        IsTrue (is_told (words_of words.now) P.Spill.tells (T.tells && T.Entry.tells)) →
        IsTrue (can_serve T.tells (T.files tree.old) (command (words_of words.now))) →
        IsTrue (N.state net.old).quiet →
        IsBrief (timeout_by (command (words_of words.now))) (N.state net.new) →
        IsStill (N.bind_faults net.old) (N.bind_faults net.new) →
        IsStill (N.poll_faults net.old) (N.poll_faults net.new) →
        IsStill (P.faults spills.old) (P.faults spills.new) →
        IsStill (T.faults tree.old) (T.faults tree.new) →
        IsStill (C.faults out.old) (C.faults out.new) → IsStill (C.faults err.old)
        (C.faults err.new) →
        Completes N.Link.state N.Link.faults (owed (words_of words.now) (T.files tree.old)) result
        (N.state net.old).closed (N.state net.new).closed }

    // 0: the last poll told to stop, or so many connections came and were retired as the serve
    // limit says; or all was printed.
    ensures zero { result ≡ 0 →
        IsTrue (can_serve T.tells (T.files tree.old) (command (words_of words.now))
        || prints (command (words_of words.now))) }
    ensures printing { IsTrue (prints (command (words_of words.now))) →
        (result ≡ 0) ⊎ (result ≡ 5) ⊎ (result ≡ 6) }
    ensures stopped { IsTrue N.tells → IsTrue (serves (command (words_of words.now))) → result ≡ 0 →
        Stops (N.state net.old) (N.state net.new)
        ⊎ MeetsLimit (limit_by (command (words_of words.now))) (N.state net.old) (N.state net.new) }

    // 1: the words are faulty. 2: what they ask for isn't built, or the application can't be made.
    ensures one { result ≡ 1 → IsTrue (is_faulty (command (words_of words.now))) }
    ensures faulty { IsTrue (is_faulty (command (words_of words.now))) →
        (result ≡ 1) ⊎ (result ≡ 5) ⊎ ((result ≡ 6) × Rose (C.faults err.old) (C.faults err.new)) }
    ensures two { result ≡ 2 → IsTrue (is_unbuilt (command (words_of words.now)))
        ⊎ ((why : Unmade) ×
        CannotMake T.tells (T.faults tree.old) (T.faults tree.new) (T.files tree.old)
        (command (words_of words.now)) why) }
    ensures unbuilt { IsTrue (is_unbuilt (command (words_of words.now))) →
        (result ≡ 2) ⊎ (result ≡ 5) ⊎ ((result ≡ 6) × Rose (C.faults err.old) (C.faults err.new)) }
    ensures unmade { IsTrue (serves (command (words_of words.now))) →
        can_serve T.tells (T.files tree.old) (command (words_of words.now)) ≡ false →
        (result ≡ 2) ⊎ (result ≡ 5) ⊎ ((result ≡ 6) × Rose (C.faults err.old) (C.faults err.new)) }

    // 3, 4 and 6: a bind, a poll or accept, or a sink failed. 5: want of memory. Where a poll or
    // accept failed, none told to stop.
    ensures three { result ≡ 3 → Rose (N.bind_faults net.old) (N.bind_faults net.new) }
    ensures four { result ≡ 4 → Rose (N.poll_faults net.old) (N.poll_faults net.new) }
    ensures four_last { IsTrue N.tells → result ≡ 4 →
        IsTrue (N.state net.new).stopped → IsTrue (N.state net.old).stopped }
    ensures six { result ≡ 6 →
        Rose (C.faults out.old) (C.faults out.new) ⊎ Rose (C.faults err.old) (C.faults err.new) }
    ensures no_other { (result ≡ 0) ⊎ (result ≡ 1) ⊎ (result ≡ 2) ⊎ (result ≡ 3) ⊎ (result ≡ 4)
        ⊎ (result ≡ 5) ⊎ (result ≡ 6) }

    // A fault of a sink goes before one of the net, and that of a bind before that of a poll.
    ensures out_failed { C.faults out.old < C.faults out.new → result ≡ 6 }
    ensures err_failed { C.faults err.old < C.faults err.new → result ≡ 6 }
    ensures bind_failed { N.bind_faults net.old < N.bind_faults net.new →
        (result ≡ 3) ⊎ (result ≡ 5) ⊎ (result ≡ 6) }
    ensures poll_failed { N.poll_faults net.old < N.poll_faults net.new →
        (result ≡ 4) ⊎ (result ≡ 5) ⊎ (result ≡ 6) }

    // The causes come in this order, and nothing behind one: the words, the application, the bind,
    // the line.
    ensures idle { can_serve T.tells (T.files tree.old) (command (words_of words.now)) ≡ false →
        (N.bind_faults net.new ≡ N.bind_faults net.old) ×
        (N.poll_faults net.new ≡ N.poll_faults net.old) }
    ensures idle_net { IsTrue N.tells →
        can_serve T.tells (T.files tree.old) (command (words_of words.now)) ≡ false →
        N.state net.new ≡ N.state net.old }
    ensures silent { IsTrue (is_faulty (command (words_of words.now)) || is_unbuilt
        (command (words_of words.now))) →
        C.faults out.new ≡ C.faults out.old }
    ensures idle_out { IsTrue (serves (command (words_of words.now))) →
        can_serve T.tells (T.files tree.old) (command (words_of words.now)) ≡ false →
        C.faults out.new ≡ C.faults out.old }
    ensures unbound { IsTrue N.tells → (result ≡ 1) ⊎ (result ≡ 2) ⊎ (result ≡ 3) →
        N.state net.new ≡ N.state net.old }
    ensures unbound_net { IsTrue N.tells → N.bind_faults net.old < N.bind_faults net.new →
        N.state net.new ≡ N.state net.old }
    ensures unbound_poll { N.bind_faults net.old < N.bind_faults net.new →
        N.poll_faults net.new ≡ N.poll_faults net.old }
    ensures unprinted { C.faults out.old < C.faults out.new →
        (N.poll_faults net.new ≡ N.poll_faults net.old) × (C.faults err.new ≡ C.faults err.old) }
    ensures unserved { IsTrue N.tells → C.faults out.old < C.faults out.new →
        ((N.state net.new).polls ≡ (N.state net.old).polls)
        × ((N.state net.new).closed ≡ (N.state net.old).closed) }

    // What is written to err: the text of the status, or a part of one where err failed.
    ensures err_text { IsTrue C.tells → result ≢ 6 → Writes
        (Reports T.tells (T.faults tree.old) (T.faults tree.new) (T.files tree.old)
        (command (words_of words.now)) result)
        (C.written err.old) (C.written err.new) }
    ensures err_cut { IsTrue C.tells → result ≡ 6 → WritesSome
        (Reports T.tells (T.faults tree.old) (T.faults tree.new) (T.files tree.old)
        (command (words_of words.now)))
        (C.written err.old) (C.written err.new) }
    ensures err_none { IsTrue C.tells → C.faults out.old < C.faults out.new →
        C.written err.new ≡ C.written err.old }

    // What is written to out: what the words print, which stands there before anything is served.
    ensures out_text { IsTrue C.tells → WritesPart (printed (command (words_of words.now)))
        (C.written out.old) (C.written out.new) }
    ensures out_none { IsTrue C.tells → N.bind_faults net.old < N.bind_faults net.new →
        C.written out.new ≡ C.written out.old }
    ensures out_unmade { IsTrue C.tells → result ≡ 2 → C.written out.new ≡ C.written out.old }
    ensures out_lines { IsTrue C.tells → (result ≡ 0) ⊎ (result ≡ 4) →
        C.written out.new ≡ C.written out.old ++ printed (command (words_of words.now)) }
    ensures out_served { IsTrue C.tells → IsTrue N.tells →
        (N.state net.old).polls < (N.state net.new).polls →
        C.written out.new ≡ C.written out.old ++ printed (command (words_of words.now)) }
    ensures out_whole { IsTrue C.tells → (result ≢ 6) ⊎ (C.faults err.old < C.faults err.new) →
        (C.written out.new ≡ C.written out.old)
        ⊎ (C.written out.new ≡ C.written out.old ++ printed (command (words_of words.now))) }
{
    match run_words(rt, alloc, words, out, net, tree, spills) {
        Conclusion::Done => 0,
        Conclusion::Usage(fault) => report_usage(alloc, err, &fault),
        Conclusion::NotBuilt => report(err, Fault::NotBuilt),
        Conclusion::Unmade(why) => report_unmade(alloc, err, &why),
        Conclusion::BindFailed => report(err, Fault::BindFailed),
        Conclusion::Unprinted => 6,
        Conclusion::PollFailed => report(err, Fault::PollFailed),
        Conclusion::NoMemory => report(err, Fault::NoMemory),
    }
}
