//! The steps of a file.
ghost use Rattle.std.specs.Prelude.{◌≡◌, ◌≤◌, ◌<◌, ◌-◌, ◌^◌, ◌+◌, ◌∷◌, ℕ, IsTrue, Some, min, take};
ghost use Rattle.std.specs.Prelude.{drop, IfOk, IfSome, length, option_map};
ghost use Rattle.std.specs.Option.{ForSome};
ghost use Rattle.wsgi.specs.Run.{FallsWithStep, RunCause, TakesStep};
ghost use Rattle.dir_app.specs.DirScript as script;
ghost use Rattle.dir_app.specs.FileSteps as spec;
ghost use Rattle.dir_app.specs.declared.file_steps.Progress.TheVariants.{Unseen};

use crate::text_steps::{Text, TextSteps};
use apps::{PIECE_SIZE, field, length_field};
use outside::{Bytes, Failed, Items, TreeEntry};
use std::alloc::{AllocError, Global};
use wsgi::{RunFault, Step};

/// What was found of a file, and how far its content was given.
#[derive(Clone, Copy, Debug)]
pub(crate) enum Progress {
    /// Nothing was looked at yet.
    Unseen,
    /// There is no file, so a text is given.
    Missing(TextSteps),
    /// The head was given, and the content up to a place.
    Found { at: u64, size: u64 },
}

/// The steps of the file at a name.
#[derive(Drop)]
pub(crate) struct FileSteps<E: TreeEntry> {
    pub(crate) entry: E,
    pub(crate) media: &'static str,
    /// Whether the content is left out.
    pub(crate) bodyless: bool,
    pub(crate) progress: Progress,
    pub ghost sized: { ForSome (spec.size_of progress) (λ size. E.sized entry ≡ Some size) },
    pub ghost within: { ForSome (spec.size_of progress) (λ size. spec.place_of progress ≤ size) },
    pub ghost told: { IsTrue E.tells → ForSome (spec.size_of progress) (λ size. option_map length (E.file entry) ≡ Some size) },
}

impl<E: TreeEntry> FileSteps<E> {
    /// The next step, or `None` behind the last one.
    pub(crate) fn next(&mut self, alloc: Global) -> Result<Option<Step>, RunFault>
        ensures cause { (s : ℕ) → RunCause result (E.faults self.old.entry)
            (E.faults self.new.entry) s s }
        ensures steps { IsTrue E.tells → TakesStep result
            (spec.file_rest self.old.bodyless self.old.media.now (E.file self.old.entry)
            self.old.progress)
            (spec.file_rest self.new.bodyless self.new.media.now (E.file self.new.entry)
            self.new.progress) }
        ensures left { FallsWithStep result (spec.file_left self.old.progress)
            (spec.file_left self.new.progress) }
    {
        match self.progress {
            Progress::Unseen => {
                let (step, progress) = look(alloc, &mut self.entry, self.media, self.bodyless)?;
                self.progress = progress;
                Ok(Some(step))
            }
            Progress::Missing(text) => {
                let mut text = text;
                let step = text.next(alloc)?;
                self.progress = Progress::Missing(text);
                Ok(step)
            }
            Progress::Found { at, size } => {
                if at == size {
                    return Ok(None);
                }
                let piece = read_piece(alloc, &mut self.entry, at, size)?;
                let at = at + piece.len() as u64;
                self.progress = Progress::Found { at, size };
                Ok(Some(Step::Piece(piece)))
            }
        }
    }

    /// How many steps may be left.
    #[tactic(auto, using(crate::proofs::FileLemmas::found_within))]
    pub(crate) fn left(&self) -> u64
        ensures left { result ≡ spec.file_left self.now.progress }
        ensures below { result < 2 ^ 62 }
    {
        match self.progress {
            Progress::Unseen => 1 + u64::MAX.div_ceil(PIECE_SIZE),
            Progress::Missing(text) => text.left(),
            Progress::Found { at, size } => (size - at).div_ceil(PIECE_SIZE),
        }
    }
}

// The first step of a file, and what was found.
fn look<E: TreeEntry>(
    alloc: Global,
    entry: &mut E,
    media: &'static str,
    bodyless: bool,
) -> Result<(Step, Progress), RunFault>
    ensures cause { (s : ℕ) → RunCause result (E.faults entry.old) (E.faults entry.new) s s }
    ensures file { IsTrue E.tells → E.file entry.new ≡ E.file entry.old }
    ensures sized { IfOk result (λ found. ForSome (spec.size_of found.1)
        (λ size. E.sized entry.new ≡ Some size)) }
    ensures within { IfOk result (λ found. ForSome (spec.size_of found.1)
        (λ size. spec.place_of found.1 ≤ size)) }
    ensures told { IsTrue E.tells → IfOk result (λ found.
        ForSome (spec.size_of found.1) (λ size. option_map length (E.file entry.old) ≡ Some size)) }
    ensures steps { IsTrue E.tells → IfOk result (λ found.
        script.file_script bodyless media.entry.now (script.sizable (E.file entry.old))
        ≡ found.0 ∷ spec.file_rest bodyless media.entry.now (E.file entry.old) found.1) }
    ensures left { IfOk result (λ found. spec.file_left found.1 < 2 ^ 49 + 1) }
{
    match entry.size() {
        Ok(Some(size)) => {
            let start = file_start(alloc, media, size)?;
            let at = if bodyless { size } else { 0 };
            Ok((start, Progress::Found { at, size }))
        }
        Ok(None) => {
            let (step, text) = TextSteps::begin(alloc, Text::NotFound)?;
            Ok((step, Progress::Missing(text)))
        }
        Err(Failed) => Err(RunFault::Outside),
    }
}

#[tactic(auto, unfolding(crate::specs::DirScript::file_start))]
fn file_start(alloc: Global, media: &str, size: u64) -> Result<Step, AllocError>
    ensures { IfOk result (λ step. step ≡ script.file_start media.now size) }
{
    let mut fields = Vec::new(alloc);
    fields.push(field(alloc, b"Content-Type", media.as_bytes())?)?;
    fields.push(length_field(alloc, size)?)?;
    Ok(Step::Start {
        status: Bytes::from_slice(alloc, b"200 OK")?,
        fields: Items::from_vec(fields),
        replace: false,
    })
}

// The content from a place on, as much as a piece has.
fn read_piece<E: TreeEntry>(
    alloc: Global,
    entry: &mut E,
    at: u64,
    size: u64,
) -> Result<Bytes, RunFault>
    requires sized { E.sized entry.old ≡ Some size }
    requires within { at ≤ size }
    ensures cause { (s : ℕ) → RunCause result (E.faults entry.old) (E.faults entry.new) s s }
    ensures file { IsTrue E.tells → E.file entry.new ≡ E.file entry.old }
    ensures sized { E.sized entry.new ≡ E.sized entry.old }
    ensures size { IfOk result (λ piece. length piece ≡ min 32768 (size - at)) }
    ensures piece { IsTrue E.tells → IfOk result (λ piece. IfSome (E.file entry.old) (λ bytes.
        piece ≡ take (min 32768 (size - at)) (drop at bytes))) }
{
    let count = (size - at).min(PIECE_SIZE) as usize;
    let mut piece = vec![in alloc; 0; count]?;
    match entry.read(at, &mut piece) {
        Ok(()) => Ok(Bytes::from_vec(piece)),
        Err(Failed) => Err(RunFault::Outside),
    }
}
