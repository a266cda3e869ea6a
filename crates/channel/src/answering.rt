//! The answer to a unit, one step at a time. Nothing here looks at what the sides share.
ghost use Rattle.std.specs.Prelude.{◌≡◌, ◌<◌, IfErr, IfOk, IsTrue};
ghost use Rattle.proxy_trust.specs.Rules.{IsSound};
ghost use Rattle.request_stream.specs.Asks.{asks};
ghost use Rattle.request_stream.specs.Units as asked;
ghost use Rattle.task_core.specs.Answer.{answer};
ghost use Rattle.task_core.specs.Steps.{text_of};
ghost use Rattle.channel.specs.Output.{answer_for};
ghost use Rattle.channel.specs.Stopping.{IsCaused, StepsOn};
ghost use Rattle.channel.specs.Writing.{Shuts, is_busy, is_settled, still_gives};

use crate::writing::{Script, Waiting, Writing};
use outside::{Bytes, NoMemory, Peer, Spill};
use proxy_trust::ProxyFault;
use request_stream::{Request, Unit};
use std::alloc::{AllocError, Global};
use task_core::{CONTINUE, Task, Wrote, error_answer, proxy_answer};
use wsgi::{App, AppRun, RunFault, Site, environ};

/// Why an answer breaks off. The run that failed is handed out.
#[derive(Drop)]
pub(crate) enum Stop<R> {
    Spill(R),
    App(R),
    NoMemory,
}

impl<R> From<AllocError> for Stop<R> {
    ghost use Rattle.std.specs.Prelude.{◌≡◌};
    ghost use Rattle.channel.specs.declared.answering.Stop.TheVariants as stop;

    ghost from_gives = { λ _ given. given ≡ stop.NoMemory };

    fn from(_: AllocError) -> Stop<R> {
        Stop::NoMemory
    }
}

impl<R> From<NoMemory> for Stop<R> {
    ghost use Rattle.std.specs.Prelude.{◌≡◌};
    ghost use Rattle.channel.specs.declared.answering.Stop.TheVariants as stop;

    ghost from_gives = { λ _ given. given ≡ stop.NoMemory };

    fn from(_: NoMemory) -> Stop<R> {
        Stop::NoMemory
    }
}

// The answer to a request. The application is not opened where a trusted proxy's header is
// malformed.
fn begin_request<S: Spill + Send + Drop, A: App<S>>(
    alloc: Global,
    app: &A,
    site: &Site,
    peer: &Peer,
    request: Request<S>,
) -> Result<Writing<A::Run>, NoMemory>
    requires sound { IsSound site.now.rules }
    ensures busy { IfOk result (λ w. IsTrue (is_busy w)) }
    ensures settled { IfOk result (λ w. IsTrue (is_settled w)) }
    ensures answer { IsTrue A.tells → IfOk result (λ w. answer_for site.now (A.script app.now)
        peer.now
        (asked.request request.head request.body.bytes request.moment) ≡ still_gives A.Run.rest w) }
    ensures shuts { IfOk result (λ w. IsTrue request.head.closes → Shuts w) }
{
    let Request {
        head,
        length,
        body,
        moment,
    } = request;
    match environ(alloc, site, peer, &head, length) {
        Ok(environ) => {
            let task = Task::new(alloc, &head, moment, &site.ident)?;
            let run = app.open(alloc, environ, body)?;
            Ok(Writing::Scripted(Script { task, run }))
        }
        Err(ProxyFault::Malformed(kind)) => {
            let text = proxy_answer(alloc, kind, &head, moment, &site.ident)?;
            Ok(Writing::Last(text, true))
        }
        Err(ProxyFault::NoMemory) => Err(NoMemory),
    }
}

fn continue_text(alloc: Global) -> Result<Bytes, NoMemory>
    ensures { IfOk result (λ text. text ≡ CONTINUE) }
{
    match Bytes::from_slice(alloc, &CONTINUE) {
        Ok(text) => Ok(text),
        Err(_) => Err(NoMemory),
    }
}

/// Begins the answer to a unit.
pub(crate) fn begin<S: Spill + Send + Drop, A: App<S>>(
    alloc: Global,
    app: &A,
    site: &Site,
    peer: &Peer,
    unit: Unit<S>,
) -> Result<Writing<A::Run>, NoMemory>
    requires sound { IsSound site.now.rules }
    ensures busy { IfOk result (λ w. IsTrue (is_busy w)) }
    ensures settled { IfOk result (λ w. IsTrue (is_settled w)) }
    ensures answer { IsTrue A.tells → IfOk result (λ w. answer_for site.now (A.script app.now)
        peer.now (asks unit)
        ≡ still_gives A.Run.rest w) }
    ensures shuts { IfOk result (λ w. IsTrue (asked.closing (asks unit)) → Shuts w) }
{
    match unit {
        Unit::Continue => Ok(Writing::Last(continue_text(alloc)?, false)),
        Unit::Refused(refused) => {
            let text = error_answer(alloc, &refused, &site.ident)?;
            Ok(Writing::Last(text, true))
        }
        Unit::Request(request) => begin_request(alloc, app, site, peer, request),
    }
}

// The text of a step, in one.
fn text_in_one(wrote: Wrote) -> Result<Bytes, AllocError>
    ensures { IfOk result (λ text. text ≡ text_of wrote) }
{
    let Wrote {
        head,
        body,
        ended: _,
    } = wrote;
    if head.is_empty() {
        return Ok(body);
    }
    let mut text = head.into_vec();
    text.extend_from_slice(body.as_slice())?;
    Ok(Bytes::from_vec(text))
}

// Makes a step of a script.
fn step_script<S: Spill, R: AppRun<S> + Drop>(
    alloc: Global,
    script: Script<R>,
) -> Result<Writing<R>, Stop<R>>
    ensures step { IfOk result (StepsOn R.tells R.rest R.left (Writing.Scripted script)) }
    ensures cause { IfErr result (IsCaused R.faults R.spill_faults) }
{
    let Script { mut task, mut run } = script;
    let step = match run.next(alloc) {
        Ok(step) => step,
        Err(RunFault::Outside) => return Err(Stop::App(run)),
        Err(RunFault::Spill) => return Err(Stop::Spill(run)),
        Err(RunFault::NoMemory) => return Err(Stop::NoMemory),
    };
    let wrote = task.step(alloc, step)?;
    let ended = wrote.ended;
    let text = text_in_one(wrote)?;
    match ended {
        Some(closes) => Ok(Writing::Last(text, closes)),
        None => {
            let script = Script { task, run };
            if text.is_empty() {
                return Ok(Writing::Scripted(script));
            }
            Ok(Writing::Waits(Waiting { text, script }))
        }
    }
}

/// Makes a step, unless a text waits.
pub(crate) fn step<S: Spill, R: AppRun<S> + Drop>(
    alloc: Global,
    writing: Writing<R>,
) -> Result<Writing<R>, Stop<R>>
    ensures step { IfOk result (StepsOn R.tells R.rest R.left writing) }
    ensures cause { IfErr result (IsCaused R.faults R.spill_faults) }
{
    match writing {
        Writing::Scripted(script) => step_script(alloc, script),
        Writing::Idle | Writing::Waits(_) | Writing::Last(_, _) => Ok(writing),
    }
}
