//! Until the head of a response is written.
ghost use Rattle.std.specs.Prelude.{◌≡◌, ◌&&◌, [], IfOk, IsTrue, if◌then◌else◌, is_some, not, true};
ghost use Rattle.task_core.specs.Answer as spec;
ghost use Rattle.task_core.specs.Steps.{Goes, byte_string};
ghost use Rattle.task_core.specs.Scripts.{has_bytes};
ghost use Rattle.task_core.specs.declared.task.State.TheVariants as state;
ghost use Rattle.wsgi.specs.declared.step.Step.TheVariants as step;

use crate::errors::{Cause, ErrorAnswer, error_text};
use crate::heads::response_head;
use crate::layout::Layout;
use crate::starts::Given;
use crate::task::{Request, State, Wrote};
use head_grammar::Field;
use outside::{Bytes, Items};
use std::alloc::{AllocError, Global};
use wsgi::Step;

// The application failed before its head.
fn fail(alloc: Global, request: &Request) -> Result<(Wrote, State), AllocError>
    ensures { IfOk result (λ r. (r.0 ≡ record {
      head = spec.failure_text request.now;
      body = [];
      ended = Some true;
    })
        × (r.1 ≡ state.Ended)) }
{
    let answer = ErrorAnswer {
        cause: Cause::Application,
        version: request.version,
        bodyless: request.is_head,
        moment: request.moment,
    };
    let text = error_text(alloc, &answer, request.ident.as_slice())?;
    Ok((Wrote::last(alloc, text, true), State::Ended))
}

// Nothing is written yet.
fn wait(alloc: Global, given: Option<Given>) -> (Wrote, State)
    ensures { (result.0 ≡ record { head = []; body = []; ended = None })
        × (result.1 ≡ state.Opening given) }
{
    let wrote = Wrote::of(Vec::new(alloc), Vec::new(alloc));
    (wrote, State::Opening(given))
}

// Whether a Start stands behind another one that it may not replace.
fn is_second(given: &Option<Given>, replace: bool) -> bool
    ensures { result ≡ (is_some given.now && not replace) }
{
    given.is_some() && !replace
}

fn start(
    alloc: Global,
    request: &Request,
    given: Option<Given>,
    status: Bytes,
    fields: Items<Field>,
    replace: bool,
) -> Result<(Wrote, State), AllocError>
    ensures { IfOk result (Goes request.now (state.Opening given)
        (Some (step.Start status fields replace))) }
{
    if is_second(&given, replace) {
        return fail(alloc, request);
    }
    match Given::new(status, fields) {
        Some(given) => Ok(wait(alloc, Some(given))),
        None => fail(alloc, request),
    }
}

// The one byte string of an iterable tells the length of the body.
fn length_told(whole: bool, size: u64) -> Option<u64>
    ensures { result ≡ (if whole then Some size else None) }
{
    if whole { Some(size) } else { None }
}

// The head, and the first bytes of the body behind it.
fn begin(
    alloc: Global,
    request: &Request,
    given: Given,
    bytes: Vec<u8>,
    whole: bool,
) -> Result<(Wrote, State), AllocError>
    requires { IsTrue (has_bytes bytes.items) }
    ensures { IfOk result (Goes request.now (state.Opening (Some given))
        (Some (byte_string whole bytes.items))) }
{
    let told = length_told(whole, bytes.len() as u64);
    let layout = Layout::new(request, given.status.as_slice(), given.declared, told);
    let mut head = response_head(alloc, request, given, layout)?;
    let mut bytes = bytes;
    let layout = layout.pass(&mut head, &mut bytes)?;
    Ok((Wrote::of(head, bytes), State::Sending(layout)))
}

fn fill(
    alloc: Global,
    request: &Request,
    given: Option<Given>,
    bytes: Bytes,
    whole: bool,
) -> Result<(Wrote, State), AllocError>
    ensures { IfOk result (Goes request.now (state.Opening given)
        (Some (byte_string whole bytes))) }
{
    if bytes.is_empty() {
        return Ok(wait(alloc, given));
    }
    match given {
        Some(given) => begin(alloc, request, given, bytes.into_vec(), whole),
        None => fail(alloc, request),
    }
}

// A body that has no bytes is told to have none, but for HEAD.
fn length_at_end(request: &Request) -> Option<u64>
    ensures { result ≡ spec.length_told request.now.is_head None }
{
    if request.is_head { None } else { Some(0) }
}

// The head at the script's end, and the end of a body that has no bytes.
fn finish(alloc: Global, request: &Request, given: Given) -> Result<(Wrote, State), AllocError>
    ensures { IfOk result (Goes request.now (state.Opening (Some given)) None) }
{
    let told = length_at_end(request);
    let layout = Layout::new(request, given.status.as_slice(), given.declared, told);
    let mut text = response_head(alloc, request, given, layout)?;
    text.extend_from_slice(layout.ending())?;
    Ok((
        Wrote::last(alloc, text, layout.closes(request)),
        State::Ended,
    ))
}

fn close(
    alloc: Global,
    request: &Request,
    given: Option<Given>,
) -> Result<(Wrote, State), AllocError>
    ensures { IfOk result (Goes request.now (state.Opening given) None) }
{
    match given {
        Some(given) => finish(alloc, request, given),
        None => fail(alloc, request),
    }
}

/// Takes a step before the head is written.
pub(crate) fn open(
    alloc: Global,
    request: &Request,
    given: Option<Given>,
    step: Option<Step>,
) -> Result<(Wrote, State), AllocError>
    ensures { IfOk result (Goes request.now (state.Opening given) step) }
{
    match step {
        Some(
            Step::Start {
                status,
                fields,
                replace,
            },
        ) => start(alloc, request, given, status, fields, replace),
        Some(Step::Piece(bytes)) => fill(alloc, request, given, bytes, false),
        Some(Step::Whole(bytes)) => fill(alloc, request, given, bytes, true),
        Some(Step::Fail) => fail(alloc, request),
        None => close(alloc, request, given),
    }
}
