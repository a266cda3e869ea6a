//! A directory of files.
ghost use Rattle.std.specs.Prelude.{◌≡◌, ◌&&◌, None, Some, IsTrue, IsUtf8, string_bytes};
ghost use Rattle.std.specs.Prelude.{IfOk, IfSome, IsSome};
ghost use Rattle.std.specs.Option.{option_map_or};
ghost use Rattle.dir_app.specs.DirLaws.{second_tells};
ghost use Rattle.dir_app.specs.DirScript.{dir_script};
ghost use Rattle.dir_app.specs.FileSteps as file;
ghost use Rattle.dir_app.specs.Run.{answer_by};
ghost use Rattle.dir_app.specs.Texts as text;

use crate::file_steps::{FileSteps, Progress};
use crate::request::{Asked, asked_for};
use crate::run::{Answer, DirRun};
use crate::text_steps::TextSteps;
use outside::{Bytes, NoMemory, Spill, Tree};
use spill_buffer::OverflowBuffer;
use std::alloc::Global;
use wsgi::{App, Environ};

/// Answers with the files of a tree below a root.
#[derive(Drop)]
pub struct DirApp<'a, T> {
    tree: &'a T,
    root: String,
}

impl<'a, T: Tree> DirApp<'a, T> {
    /// A directory of the files whose names begin with the root and a slash.
    pub fn new(tree: &'a T, root: Bytes) -> DirApp<'a, T>
        requires { IsUtf8 root }
        ensures tree { result.tree.now ≡ tree.entry.now }
        ensures root { string_bytes result.root ≡ root }
    {
        let root = String::from_utf8(root.into_vec()).unwrap();
        DirApp { tree, root }
    }
}

impl<'a, T: Tree, S: Spill + Send + Drop> App<S> for DirApp<'a, T> {
    type Run = DirRun<T::Entry, S>;

    ghost tells = { T.tells && T.Entry.tells };

    ghost script = { λ directory. dir_script (T.files directory.tree.now)
        (string_bytes directory.root) };

    ghost run_tells = { λ told. second_tells T.tells T.Entry.tells told };

    fn begin(
        &self,
        alloc: Global,
        environ: Environ,
        body: &mut Option<OverflowBuffer<S>>,
    ) -> Result<DirRun<T::Entry, S>, NoMemory>
        requires body { IsSome body.old }
        ensures script { IsTrue (T.tells && T.Entry.tells) → IfSome body.old (λ body.
            IfOk result (λ run. answer_by text.rest_of
            (λ steps. file.file_rest steps.bodyless steps.media.now (T.Entry.file steps.entry)
            steps.progress) run.answer
            ≡ dir_script (T.files self.now.tree.now) (string_bytes self.now.root) environ
            body.bytes)) }
        ensures faultless { IfOk result (λ run.
            option_map_or T.Entry.faults (answer_by (λ _. None) (λ steps. Some steps.entry)
            run.answer) 0 ≡ 0) }
        ensures spill { IfSome body.old (λ body. IfOk result (λ run.
            S.faults run.spill ≡ S.faults body.spill)) }
    {
        let body = body.take().unwrap();
        let Ok(asked) = asked_for(alloc, self.root.as_str(), &environ) else {
            return Err(NoMemory);
        };
        let spill = body.into_spill();
        match asked {
            Asked::Text(text) => Ok(DirRun {
                answer: Answer::Text(TextSteps::new(text)),
                spill,
            }),
            Asked::File {
                name,
                media,
                bodyless,
            } => {
                let entry = self.tree.entry(alloc, name.as_str())?;
                Ok(DirRun {
                    answer: Answer::File(FileSteps {
                        entry,
                        media,
                        bodyless,
                        progress: Progress::Unseen,
                    }),
                    spill,
                })
            }
        }
    }
}
