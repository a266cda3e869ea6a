//! What a request asks a directory for.
ghost use Rattle.std.specs.Prelude.{◌≡◌, ℕ, List, [], IfOk};
ghost use Rattle.dir_app.specs.Asked.{asked_script};
ghost use Rattle.dir_app.specs.DirScript.{dir_script, name_script};

use crate::media::media_type;
use crate::names::{below_root, file_name, last_part, rooted};
use crate::text_steps::Text;
use apps::variable;
use std::alloc::{AllocError, Global};
use wsgi::Environ;

/// What a request asks for.
#[derive(Debug, Drop)]
pub(crate) enum Asked {
    Text(Text),
    File {
        name: String,
        media: &'static str,
        bodyless: bool,
    },
}

/// What a request asks a directory with this root for.
pub(crate) fn asked_for(alloc: Global, root: &str, environ: &Environ) -> Result<Asked, AllocError>
    ensures { IfOk result (λ asked. (files : List (List ℕ × List ℕ)) →
        asked_script files asked ≡ dir_script files root.now environ.now []) }
{
    let method = variable(environ, b"REQUEST_METHOD");
    let path = rooted(variable(environ, b"PATH_INFO"));
    if method == b"GET".as_slice() {
        asked_file(alloc, root, path, false)
    } else if method == b"HEAD".as_slice() {
        asked_file(alloc, root, path, true)
    } else {
        Ok(Asked::Text(Text::NotAllowed))
    }
}

fn asked_file(alloc: Global, root: &str, path: &[u8], bodyless: bool) -> Result<Asked, AllocError>
    ensures { IfOk result (λ asked. (files : List (List ℕ × List ℕ)) →
        asked_script files asked ≡ name_script files root.now bodyless path.now) }
{
    match below_root(path) {
        Some(path) => Ok(Asked::File {
            name: file_name(alloc, root, path)?,
            media: media_type(last_part(path.as_bytes())),
            bodyless,
        }),
        None => Ok(Asked::Text(Text::NotFound)),
    }
}
