//! From a command to its end.
ghost use Rattle.std.specs.Prelude.{◌≡◌, ◌<◌, ◌≤◌, ◌⊎◌, ◌&&◌, ◌||◌, All, IsTrue, false, ◌++◌};
ghost use Rattle.std.specs.Prelude.{length, Some, Ok as ok};
ghost use Rattle.adjust.specs.Command.{command};
ghost use Rattle.adjust.specs.CommandLine.{words_of};
ghost use Rattle.adjust.specs.Names.{KeepsNames};
ghost use Rattle.adjust.specs.Ranges.{IsInRange, KeepsRanges};
ghost use Rattle.channel.specs.Views.{telling};
ghost use Rattle.poll_loop.specs.Connections.{HasBroken};
ghost use Rattle.poll_loop.specs.Entries.{EntryHolds};
ghost use Rattle.poll_loop.specs.Seat.{eyes_of};
ghost use Rattle.waitress_serve.specs.Completeness.{IsAnswered, IsBrief, IsStill};
ghost use Rattle.waitress_serve.specs.Conclusions.{BindCount, Concludes, DoneAdds, DoneStops};
ghost use Rattle.waitress_serve.specs.Conclusions.{FailsUnstopped, IsDownBy, IsOfPrinting};
ghost use Rattle.waitress_serve.specs.Conclusions.{IsOfServing, NetLeaves, OutCount, OutLeaves};
ghost use Rattle.waitress_serve.specs.Conclusions.{IsUnread, PollCount, Ran, RanOver, TableCount};
ghost use Rattle.waitress_serve.specs.Headline.{Added, KeepsLimit, RetiresGiven, SettlesRuns};
ghost use Rattle.waitress_serve.specs.Headline.{SettlesSpills, ShutLast, grounds};
ghost use Rattle.waitress_serve.specs.Made.{can_serve, reads_files, reads_table};
ghost use Rattle.waitress_serve.specs.Owed.{owed_by, service_for, service_with, told_by};
ghost use Rattle.waitress_serve.specs.Reading.{prints, serves};
ghost use Rattle.waitress_serve.specs.Status.{addresses_of, limit_by, listen_by, printed};
ghost use Rattle.waitress_serve.specs.Status.{serving_lines, timeout_by};

use crate::conclusion::Conclusion;
use crate::made::read_table;
use crate::printing::{check, lines_of};
use crate::service::prepare;
use crate::serving::{conclude, serve};
use crate::settling::settle;
use adjust::{Adjustments, AppName, Command, UsageFault, read};
use apps::Echo;
use dir_app::DirApp;
use outside::{Net, NoMemory, Sink, Spills, Tree};
use std::alloc::Global;
use std::sync::Wait;
use wsgi::App;

// Binds the addresses, prints a line for each, and serves. The runs that failed are handed out.
fn start<W: Wait, N: Net, P: Spills, C: Sink, A: App<P::Spill> + Drop>(
    rt: &W,
    alloc: Global,
    options: Adjustments,
    app: A,
    net: &mut N,
    spills: &mut P,
    out: &mut C,
) -> (Conclusion, Vec<A::Run>)
    requires in_range { IsInRange options }
    ensures why { IsOfServing result.0 }
    ensures broke { All (λ run. 0 < A.Run.faults run) result.1.items }
    ensures binds { BindCount result.0 (N.bind_faults net.old) (N.bind_faults net.new) }
    ensures polls { PollCount result.0 (N.poll_faults net.old) (N.poll_faults net.new) }
    ensures ran { IsTrue N.tells → Ran
        (service_with (telling N.Link.tells P.Spill.tells A.tells) options (A.script app))
        (HasBroken A.Run.faults) (length result.1.items)
        (eyes_of N.Link.Link)
        (addresses_of options) result.0 (P.faults spills.old) (P.faults spills.new)
        (N.state net.old) (N.state net.new) }
    ensures stops { IsTrue N.tells →
        DoneStops options.serve_limit result.0 (N.state net.old) (N.state net.new) }
    ensures limited { IsTrue N.tells → KeepsLimit options.serve_limit (N.state net.old)
        (N.state net.new) }
    ensures plan { N.plan net.new ≡ N.plan net.old }
    ensures spills { P.faults spills.old ≤ P.faults spills.new }
    ensures outs { OutCount result.0 (C.faults out.old) (C.faults out.new) }
    ensures text { IsTrue C.tells → OutLeaves (serving_lines (addresses_of options)) result.0
        (C.written out.old) (C.written out.new) }
    ensures printed { IsTrue C.tells → IsTrue N.tells →
        (N.state net.old).polls < (N.state net.new).polls →
        C.written out.new ≡ C.written out.old ++ serving_lines (addresses_of options) }
{
    let Ok((listen, settings)) = prepare(alloc, options) else {
        return (Conclusion::NoMemory, Vec::new(alloc));
    };
    let Ok(lines) = lines_of(alloc, listen.as_slice()) else {
        return (Conclusion::NoMemory, Vec::new(alloc));
    };
    if net.bind(listen.as_slice()).is_err() {
        return (Conclusion::BindFailed, Vec::new(alloc));
    }
    if out.write(lines.as_slice()).is_err() {
        return (Conclusion::Unprinted, Vec::new(alloc));
    }
    let (ended, failed) = serve(rt, alloc, &app, &settings, net, spills);
    (conclude(ended), failed)
}

// Prints what a command prints that does nothing else.
fn print<C: Sink>(alloc: Global, command: &Command, out: &mut C) -> Conclusion
    requires prints { IsTrue (prints (ok command.now)) }
    ensures why { IsOfPrinting result }
    ensures outs { OutCount result (C.faults out.old) (C.faults out.new) }
    ensures text { IsTrue C.tells → OutLeaves (printed (ok command.now)) result
        (C.written out.old) (C.written out.new) }
{
    match check(alloc, command, out) {
        0 => Conclusion::Done,
        5 => Conclusion::NoMemory,
        _ => Conclusion::Unprinted,
    }
}

// Does what a command asks for.
fn carry_out<W: Wait, N: Net, T: Tree, P: Spills, C: Sink>(
    rt: &W,
    alloc: Global,
    command: Command,
    net: &mut N,
    tree: &mut T,
    spills: &mut P,
    out: &mut C,
) -> Conclusion
    requires ranges { KeepsRanges command }
    requires names { KeepsNames command }
    ensures why { Concludes T.tells (T.faults tree.old) (T.faults tree.new) (T.files tree.old)
        (ok command) result }
    ensures binds { BindCount result (N.bind_faults net.old) (N.bind_faults net.new) }
    ensures polls { PollCount result (N.poll_faults net.old) (N.poll_faults net.new) }
    ensures idle { can_serve T.tells (T.files tree.old) (ok command) ≡ false →
        (N.bind_faults net.new ≡ N.bind_faults net.old) ×
        (N.poll_faults net.new ≡ N.poll_faults net.old) }
    ensures idle_net { IsTrue N.tells → can_serve T.tells (T.files tree.old) (ok command) ≡ false →
        N.state net.new ≡ N.state net.old }
    ensures ran { IsTrue N.tells → RanOver
        (service_for (telling N.Link.tells P.Spill.tells
        (told_by (ok command) P.Spill.tells (T.tells && T.Entry.tells))) (T.files tree.old)
        (ok command))
        (IsTrue (reads_files (ok command))) (T.faults tree.old) (T.faults tree.new)
        (eyes_of N.Link.Link)
        (listen_by (ok command)) result (P.faults spills.old) (P.faults spills.new)
        (N.state net.old) (N.state net.new) }
    ensures stops { IsTrue N.tells → IsTrue (serves (ok command)) →
        DoneStops (limit_by (ok command)) result (N.state net.old) (N.state net.new) }
    ensures limited { IsTrue N.tells → KeepsLimit (limit_by (ok command)) (N.state net.old)
        (N.state net.new) }
    ensures plan { N.plan net.new ≡ N.plan net.old }
    ensures spills { P.faults spills.old ≤ P.faults spills.new }
    ensures tree { T.faults tree.old ≤ T.faults tree.new }
    ensures files { IsTrue T.tells → T.files tree.new ≡ T.files tree.old }
    ensures tree_kept { (reads_files (ok command) || reads_table (ok command)) ≡ false →
        T.faults tree.new ≡ T.faults tree.old }
    ensures tree_read { reads_files (ok command) ≡ false →
        TableCount result (T.faults tree.old) (T.faults tree.new) }
    ensures idle_out { IsTrue (serves (ok command)) → can_serve T.tells (T.files tree.old)
        (ok command) ≡ false →
        C.faults out.new ≡ C.faults out.old }
    ensures outs { OutCount result (C.faults out.old) (C.faults out.new) }
    ensures text { IsTrue C.tells → OutLeaves (printed (ok command)) result
        (C.written out.old) (C.written out.new) }
    ensures printed { IsTrue C.tells → IsTrue N.tells →
        (N.state net.old).polls < (N.state net.new).polls →
        C.written out.new ≡ C.written out.old ++ printed (ok command) }
{
    match command {
        Command::Serve(options, app) => match app {
            AppName::Echo => start(rt, alloc, options, Echo, net, spills, out).0,
            AppName::Table(file) => match read_table(alloc, tree, file) {
                Ok(Ok(table)) => start(rt, alloc, options, table, net, spills, out).0,
                Ok(Err(why)) => Conclusion::Unmade(why),
                Err(NoMemory) => Conclusion::NoMemory,
            },
            AppName::Dir(root) => {
                let directory = DirApp::new(&*tree, root);
                let (ended, failed) = start(rt, alloc, options, directory, net, spills, out);
                settle(tree, failed);
                ended
            }
        },
        Command::Rehearse(_connections) => Conclusion::NotBuilt,
        other => print(alloc, &other, out),
    }
}

// How words end that could not be read.
fn unread(fault: UsageFault) -> Conclusion
    ensures { IsUnread fault result }
{
    match fault {
        UsageFault::NoMemory => Conclusion::NoMemory,
        other => Conclusion::Usage(other),
    }
}

/// Does what the words ask for.
pub(crate) fn run_words<W: Wait, N: Net, T: Tree, P: Spills, C: Sink>(
    rt: &W,
    alloc: Global,
    words: &[String],
    out: &mut C,
    net: &mut N,
    tree: &mut T,
    spills: &mut P,
) -> Conclusion
    ensures why { Concludes T.tells (T.faults tree.old) (T.faults tree.new) (T.files tree.old)
        (command (words_of words.now)) result }
    ensures binds { BindCount result (N.bind_faults net.old) (N.bind_faults net.new) }
    ensures polls { PollCount result (N.poll_faults net.old) (N.poll_faults net.new) }
    ensures net { IsTrue N.tells → NetLeaves result (N.state net.old) (N.state net.new) }
    ensures stops { IsTrue N.tells → IsTrue (serves (command (words_of words.now))) →
        DoneStops (limit_by (command (words_of words.now))) result (N.state net.old)
        (N.state net.new) }
    ensures limited { IsTrue N.tells →
        KeepsLimit (limit_by (command (words_of words.now))) (N.state net.old) (N.state net.new) }

    // Where nobody is to be served, nothing is done to the net.
    ensures idle { can_serve T.tells (T.files tree.old) (command (words_of words.now)) ≡ false →
        (N.bind_faults net.new ≡ N.bind_faults net.old) ×
        (N.poll_faults net.new ≡ N.poll_faults net.old) }
    ensures idle_net { IsTrue N.tells →
        can_serve T.tells (T.files tree.old) (command (words_of words.now)) ≡ false →
        N.state net.new ≡ N.state net.old }

    // What was retired, what was given and what stays of the net.
    ensures headline { IsTrue N.tells → Added
        (EntryHolds (service_for (telling N.Link.tells P.Spill.tells
        (told_by (command (words_of words.now)) P.Spill.tells (T.tells && T.Entry.tells)))
        (T.files tree.old) (command (words_of words.now)))
        (grounds (IsDownBy result (N.state net.old) (N.state net.new))
        (IsTrue (reads_files (command (words_of words.now)))))
        N.Link.state N.Link.faults (N.state net.new))
        (N.state net.old).closed (N.state net.new).closed }
    ensures shut_last { IsTrue N.tells → ((N.state net.new).closed ≡ (N.state net.old).closed)
        ⊎ ShutLast (N.state net.old) (N.state net.new) }
    ensures given { IsTrue N.tells → RetiresGiven N.Link.plan (N.state net.old) (N.state net.new) }
    ensures live { IsTrue N.tells → (N.state net.new).live ≡ (N.state net.old).live }
    ensures quiet { IsTrue N.tells → (N.state net.new).quiet ≡ (N.state net.old).quiet }
    ensures unstopped { IsTrue N.tells → FailsUnstopped result (N.state net.old) (N.state net.new) }
    ensures plan { N.plan net.new ≡ N.plan net.old }
    ensures bound { IsTrue N.tells → (N.state net.old).polls < (N.state net.new).polls →
        (N.state net.new).bound ≡ Some (listen_by (command (words_of words.now))) }
    ensures spills { P.faults spills.old ≤ P.faults spills.new }
    ensures settled { IsTrue N.tells → SettlesSpills (P.faults spills.old) (P.faults spills.new)
        (N.state net.old).closed (N.state net.new).closed }
    ensures fell { IsTrue N.tells → SettlesRuns (T.faults tree.old) (T.faults tree.new)
        (N.state net.old).closed (N.state net.new).closed }
    ensures complete { IsTrue N.tells → IsTrue N.Link.tells → IsTrue P.Spill.tells →
        IsTrue (told_by (command (words_of words.now)) P.Spill.tells (T.tells && T.Entry.tells)) →
        IsTrue (N.state net.old).quiet → IsStill (P.faults spills.old) (P.faults spills.new) →
        IsStill (T.faults tree.old) (T.faults tree.new) →
        IsBrief (timeout_by (command (words_of words.now))) (N.state net.new) →
        DoneAdds (IsAnswered N.Link.state N.Link.faults (owed_by (T.files tree.old)
        (command (words_of words.now)))) result
        (N.state net.old).closed (N.state net.new).closed }

    // The tree's count of faults rises where runs or the file of a table could not be read.
    ensures tree { T.faults tree.old ≤ T.faults tree.new }
    ensures files { IsTrue T.tells → T.files tree.new ≡ T.files tree.old }
    ensures tree_kept { (reads_files (command (words_of words.now)) || reads_table
        (command (words_of words.now))) ≡ false →
        T.faults tree.new ≡ T.faults tree.old }
    ensures tree_read { reads_files (command (words_of words.now)) ≡ false →
        TableCount result (T.faults tree.old) (T.faults tree.new) }

    // What is printed stands there before anybody is served.
    ensures idle_out { IsTrue (serves (command (words_of words.now))) →
        can_serve T.tells (T.files tree.old) (command (words_of words.now)) ≡ false →
        C.faults out.new ≡ C.faults out.old }
    ensures outs { OutCount result (C.faults out.old) (C.faults out.new) }
    ensures text { IsTrue C.tells → OutLeaves (printed (command (words_of words.now))) result
        (C.written out.old) (C.written out.new) }
    ensures printed { IsTrue C.tells → IsTrue N.tells →
        (N.state net.old).polls < (N.state net.new).polls →
        C.written out.new ≡ C.written out.old ++ printed (command (words_of words.now)) }
{
    match read(alloc, words) {
        Ok(command) => carry_out(rt, alloc, command, net, tree, spills, out),
        Err(fault) => unread(fault),
    }
}
