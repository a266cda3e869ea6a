//! The application that gives the body of a request back.
ghost use Rattle.std.specs.Prelude.{◌≡◌, ◌<◌, ◌^◌, IsTrue, length, take, drop};
ghost use Rattle.std.specs.Prelude.{IfOk, IfSome, IsSome, OnOk, OnErr};
ghost use Rattle.spill_buffer.specs.Buffer.{IsToldAs};
ghost use Rattle.wsgi.specs.Run.{RunCause};
ghost use Rattle.apps.specs.Echo.{echo_script, echo_start};
ghost use Rattle.apps.specs.PieceLaws.{rest_is_counted};
ghost use Rattle.apps.specs.Pieces.{count_of, rest_of};

use crate::answers::{PIECE_SIZE, field, length_field};
use outside::{Bytes, Items, NoMemory, Spill};
use spill_buffer::OverflowBuffer;
use std::alloc::{AllocError, Global};
use wsgi::{App, AppRun, Environ, RunFault, Step};

/// Answers each request with its body.
#[derive(Clone, Copy, Debug)]
pub struct Echo;

/// A response of `Echo`.
#[derive(Debug, Drop)]
pub struct EchoRun<S: Spill> {
    start: Option<Step>,
    body: OverflowBuffer<S>,
}

impl<S: Spill + Send + Drop> App<S> for Echo {
    type Run = EchoRun<S>;

    ghost tells = { S.tells };

    ghost script = { λ _. echo_script };

    ghost run_tells = { λ told. told };

    fn begin(
        &self,
        alloc: Global,
        environ: Environ,
        body: &mut Option<OverflowBuffer<S>>,
    ) -> Result<EchoRun<S>, NoMemory>
        requires body { IsSome body.old }
        ensures script { IsTrue S.tells → IfSome body.old (λ body. IfOk result (λ run.
            rest_of run.start run.body.bytes ≡ echo_script environ body.bytes)) }
        ensures spill { IfSome body.old (λ body. IfOk result (λ run.
            S.faults run.body.spill ≡ S.faults body.spill)) }
    {
        let body = body.take().unwrap();
        match start(alloc, &environ, body.len()) {
            Ok(start) => Ok(EchoRun {
                start: Some(start),
                body,
            }),
            Err(_) => Err(NoMemory),
        }
    }
}

impl<S: Spill> AppRun<S> for EchoRun<S> {
    ghost tells = { S.tells };

    ghost rest = { λ run. rest_of run.start run.body.bytes };

    ghost left = { λ run. count_of run.start (length run.body.bytes) };

    ghost faults = { λ _. 0 };

    ghost spill_faults = { λ run. S.faults run.body.spill };

    ghost enough = { λ run told. rest_is_counted run.start run.body.bytes };

    fn next(&mut self, alloc: Global) -> Result<Option<Step>, RunFault> {
        if let Some(start) = self.start.take() {
            return Ok(Some(start));
        }
        if self.body.is_empty() {
            return Ok(None);
        }
        let piece = take_piece(alloc, &mut self.body)?;
        Ok(Some(Step::Piece(piece)))
    }

    fn left(&self) -> u64
        ensures left { result ≡ count_of self.now.start (length self.now.body.bytes) }
        ensures below { result < 2 ^ 62 }
    {
        u64::from(self.start.is_some()) + self.body.len().div_ceil(PIECE_SIZE)
    }

    fn into_spill(self) -> S {
        let EchoRun { start: _, body } = self;
        body.into_spill()
    }
}

#[tactic(auto, unfolding(crate::specs::Echo::echo_start, crate::specs::Echo::echo_type))]
fn start(alloc: Global, environ: &Environ, length: u64) -> Result<Step, AllocError>
    ensures { IfOk result (λ step. step ≡ echo_start environ.now length) }
{
    let content_type = environ
        .get(b"CONTENT_TYPE")
        .unwrap_or(b"application/octet-stream");
    let mut fields = Vec::new(alloc);
    fields.push(field(alloc, b"Content-Type", content_type)?)?;
    fields.push(length_field(alloc, length)?)?;
    Ok(Step::Start {
        status: Bytes::from_slice(alloc, b"200 OK")?,
        fields: Items::from_vec(fields),
        replace: false,
    })
}

fn take_piece<S: Spill>(alloc: Global, body: &mut OverflowBuffer<S>) -> Result<Bytes, RunFault>
    ensures piece { IsTrue S.tells → IfOk result (λ piece. piece ≡ take 32768 body.old.bytes) }
    ensures rest { OnOk result (IsToldAs S.tells body.new.bytes (drop 32768 body.old.bytes)) }
    ensures kept { OnErr result (IsToldAs S.tells body.new.bytes body.old.bytes) }
    ensures cause { RunCause result 0 0 (S.faults body.old.spill) (S.faults body.new.spill) }
{
    let size = body.len().min(PIECE_SIZE) as usize;
    let mut piece = vec![in alloc; 0; size]?;
    let count = body.front(&mut piece)?;
    body.skip(count as u64);
    Ok(Bytes::from_vec(piece))
}
