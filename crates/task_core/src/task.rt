//! The response to one request: what it depends on, how far it has come, and what its steps write.
use crate::errors::is_head;
use crate::layout::Layout;
use crate::opening::open;
use crate::sending::send;
use crate::starts::Given;
use head_grammar::{Head, Version};
use outside::{Bytes, NoMemory};
use std::alloc::{AllocError, Global};
use std::mem;
use wsgi::Step;

/// The response to one request, under way.
#[derive(Debug, Drop)]
pub struct Task {
    request: Request,
    state: State,
}

impl Task {
    ghost use Rattle.std.specs.Prelude.{◌≡◌, List, IfOk, OnErr, IsTrue, false, is_some, not};
    ghost use Rattle.task_core.specs.Answer.{answer, request_of};
    ghost use Rattle.task_core.specs.Steps.{GoesBy, is_under_way, remaining};
    ghost use Rattle.wsgi.specs.declared.step.Step.{Step as AStep};

    /// The response to the request with this head, of which the last byte came at the moment, by a
    /// server of this name.
    #[tactic(auto, unfolding(crate::specs::Steps::is_under_way, crate::specs::Steps::remaining))]
    pub fn new(alloc: Global, head: &Head, moment: u64, ident: &Bytes) -> Result<Task, NoMemory>
        ensures under_way { IfOk result (λ task. IsTrue (is_under_way task)) }
        ensures answer { IfOk result (λ task. (script : List AStep)
            → remaining task script ≡ answer (request_of head.now moment ident.now) script) }
    {
        match Request::new(alloc, head, moment, ident) {
            Ok(request) => Ok(Task {
                request,
                state: State::Opening(None),
            }),
            Err(_) => Err(NoMemory),
        }
    }

    /// Takes a step of the script, or None for its end, and gives what is to be sent then.
    #[tactic(auto, unfolding(crate::specs::Steps::is_under_way, crate::specs::Steps::remaining))]
    pub fn step(&mut self, alloc: Global, step: Option<Step>) -> Result<Wrote, NoMemory>
        requires { IsTrue (is_under_way self.old) }
        ensures under_way { IfOk result (λ wrote. is_under_way self.new ≡ not
            (is_some wrote.ended)) }
        ensures answer { IfOk result (λ wrote. GoesBy (remaining self.old) step wrote
            (remaining self.new)) }
        ensures ended { OnErr result (is_under_way self.new ≡ false) }
    {
        let state = mem::replace(&mut self.state, State::Ended);
        match state.advance(alloc, &self.request, step) {
            Ok((wrote, state)) => {
                self.state = state;
                Ok(wrote)
            }
            Err(_) => Err(NoMemory),
        }
    }
}

/// Bytes of a response, head before body. A step may write none of either.
#[derive(Debug, Drop)]
pub struct Wrote {
    pub head: Bytes,
    pub body: Bytes,
    /// Where the response has ended: whether the connection closes behind it.
    pub ended: Option<bool>,
}

impl Wrote {
    ghost use Rattle.std.specs.Prelude.{◌≡◌, [], Some, None};

    pub(crate) fn of(head: Vec<u8>, body: Vec<u8>) -> Wrote
        ensures { result ≡ record { head = head.items; body = body.items; ended = None } }
    {
        Wrote {
            head: Bytes::from_vec(head),
            body: Bytes::from_vec(body),
            ended: None,
        }
    }

    pub(crate) fn last(alloc: Global, text: Vec<u8>, closes: bool) -> Wrote
        ensures { result ≡ record { head = text.items; body = []; ended = Some closes } }
    {
        Wrote {
            head: Bytes::from_vec(text),
            body: Bytes::from_vec(Vec::new(alloc)),
            ended: Some(closes),
        }
    }
}

/// What of a request its answer depends on, and the name of the server.
#[derive(Debug, Drop)]
pub(crate) struct Request {
    pub(crate) is_head: bool,
    pub(crate) version: Version,
    pub(crate) closes: bool,
    /// When its last byte came, in seconds since 1970.
    pub(crate) moment: u64,
    pub(crate) ident: Bytes,
}

impl Request {
    ghost use Rattle.std.specs.Prelude.{◌≡◌, IfOk};
    ghost use Rattle.task_core.specs.Answer.{request_of};

    pub(crate) fn new(
        alloc: Global,
        head: &Head,
        moment: u64,
        ident: &Bytes,
    ) -> Result<Request, AllocError>
        ensures { IfOk result (λ request. request ≡ request_of head.now moment ident.now) }
    {
        Ok(Request {
            is_head: is_head(head.method()),
            version: head.version(),
            closes: head.closes(),
            moment,
            ident: Bytes::from_slice(alloc, ident.as_slice())?,
        })
    }
}

/// How far a response has come.
#[derive(Debug, Drop)]
pub(crate) enum State {
    /// Its head isn't written. The last Start is kept.
    Opening(Option<Given>),
    /// Its body is sent.
    Sending(Layout),
    Ended,
}

impl State {
    ghost use Rattle.std.specs.Prelude.{◌≡◌, IfOk, false};
    ghost use Rattle.task_core.specs.Steps.{Goes, has_ended};

    /// Takes a step, and gives what is to be sent and how far the response has come then.
    pub(crate) fn advance(
        self,
        alloc: Global,
        request: &Request,
        step: Option<Step>,
    ) -> Result<(Wrote, State), AllocError>
        requires { has_ended self ≡ false }
        ensures { IfOk result (Goes request.now self step) }
    {
        match self {
            State::Opening(given) => open(alloc, request, given, step),
            State::Sending(layout) => send(alloc, request, layout, step),
            State::Ended => unreachable!(),
        }
    }
}
