//! Behind the head of a response.
ghost use Rattle.std.specs.Prelude.{◌≡◌, [], IfOk, true};
ghost use Rattle.task_core.specs.Sending as sending;
ghost use Rattle.task_core.specs.Steps.{Goes, text_of};
ghost use Rattle.task_core.specs.declared.task.State.TheVariants as state;

use crate::layout::Layout;
use crate::task::{Request, State, Wrote};
use outside::Bytes;
use std::alloc::{AllocError, Global};
use wsgi::Step;

// A piece is handed on.
fn pass(alloc: Global, layout: Layout, bytes: Bytes) -> Result<(Wrote, State), AllocError>
    ensures text { IfOk result (λ r. text_of r.0 ≡ sending.passed layout bytes) }
    ensures goes_on { IfOk result (λ r. r.0.ended ≡ None) }
    ensures left { IfOk result (λ r. r.1 ≡ state.Sending (sending.left_behind layout bytes)) }
{
    let mut head = Vec::new(alloc);
    let mut bytes = bytes.into_vec();
    let layout = layout.pass(&mut head, &mut bytes)?;
    Ok((Wrote::of(head, bytes), State::Sending(layout)))
}

// The text ends here, and the connection closes.
fn cut(alloc: Global) -> (Wrote, State)
    ensures { (result.0 ≡ record { head = []; body = []; ended = Some true })
        × (result.1 ≡ state.Ended) }
{
    (Wrote::last(alloc, Vec::new(alloc), true), State::Ended)
}

fn end(alloc: Global, request: &Request, layout: Layout) -> Result<(Wrote, State), AllocError>
    ensures { IfOk result (Goes request.now (state.Sending layout) None) }
{
    let text = Vec::from_slice(alloc, layout.ending())?;
    Ok((
        Wrote::last(alloc, text, layout.closes(request)),
        State::Ended,
    ))
}

/// Takes a step behind the head.
pub(crate) fn send(
    alloc: Global,
    request: &Request,
    layout: Layout,
    step: Option<Step>,
) -> Result<(Wrote, State), AllocError>
    ensures { IfOk result (Goes request.now (state.Sending layout) step) }
{
    match step {
        Some(Step::Piece(bytes)) => pass(alloc, layout, bytes),
        Some(Step::Whole(bytes)) => pass(alloc, layout, bytes),
        Some(Step::Start { .. }) => Ok(cut(alloc)),
        Some(Step::Fail) => Ok(cut(alloc)),
        None => end(alloc, request, layout),
    }
}
