//! The program `waitress-serve`, over the net, the files and the console of the machine.
#![tactic(auto)]

ghost use Rattle.std.specs.Prelude.{◌≡◌, if◌then◌else◌};
ghost use Rattle.waitress_main.specs.Statuses.{status_for};

use net_real::{DiskTree, FileSpills, MioNet, StdSink};
use outside::NetFault;
use std::process::ExitCode;
use std::{env, io};
use waitress_serve::run;

/// Memory was refused.
const NO_MEMORY: u8 = 5;

/// The words, the temporary folder's name, the net or its trigger can't be had.
const NOT_HAD: u8 = 7;

// What the program ends with where a name can't be had.
fn status_by(no_memory: bool) -> u8
    ensures { result ≡ (if no_memory then 5 else 7) }
{
    if no_memory { NO_MEMORY } else { NOT_HAD }
}

fn name_status(fault: &io::Error) -> u8 {
    status_by(fault.kind() == io::ErrorKind::OutOfMemory)
}

// The words behind the program's name, or the status for want of them.
fn words<R: std::rt::Env + AllocGlobal>(rt: &R) -> Result<Vec<String>, u8> {
    let mut words = Vec::new(rt.alloc());
    let all = match env::args(rt) {
        Ok(all) => all,
        Err(fault) => return Err(name_status(&fault)),
    };
    for word in all.skip(1) {
        if words.push(word).is_err() {
            return Err(NO_MEMORY);
        }
    }
    Ok(words)
}

// What the program ends with where the net or its trigger can't be had.
fn status_of(fault: NetFault) -> u8
    ensures { result ≡ status_for fault }
{
    match fault {
        NetFault::NoMemory => NO_MEMORY,
        NetFault::Failed => NOT_HAD,
    }
}

fn main(rt: HostRuntime) -> ExitCode {
    let alloc = rt.alloc();
    let words = match words(&rt) {
        Ok(words) => words,
        Err(status) => return ExitCode::from(status),
    };
    let folder = match env::temp_dir(&rt) {
        Ok(folder) => folder,
        Err(fault) => return ExitCode::from(name_status(&fault)),
    };
    let mut net = match MioNet::new(alloc, rt) {
        Ok(net) => net,
        Err(fault) => return ExitCode::from(status_of(fault)),
    };
    let trigger = match net.trigger() {
        Ok(trigger) => trigger,
        Err(fault) => return ExitCode::from(status_of(fault)),
    };
    let mut tree = DiskTree::new(rt);
    let mut spills = FileSpills::new(alloc, rt, folder.as_str());
    let mut out = StdSink::out(rt);
    let mut err = StdSink::err(rt);
    ExitCode::from(run(
        &rt,
        alloc,
        &words,
        &mut net,
        &mut tree,
        &mut spills,
        &mut out,
        &mut err,
        &trigger,
    ))
}
