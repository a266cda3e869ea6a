// Requests as they come, and the responses of a folder.
ghost use Rattle.std.specs.Prelude.{IfOk};
ghost use Rattle.proxy_trust.specs.Rules.{IsSound};

use crate::shown::add_steps;
use dir_app::{DirApp, DirRun};
use head_grammar::{Head, Parsed, head_end, read_head};
use outside::{Bytes, Items, MemSpill, MemSpills, MemTree, Peer, Spills, Tree};
use proxy_trust::ProxyRules;
use spill_buffer::OverflowBuffer;
use std::alloc::{AllocError, Global};
use wsgi::{App, Environ, Site, environ};

// A tree of files, each a line of its name and its content with `=` between them. A call on each
// entry fails by its number.
pub(crate) fn tree_of(
    alloc: Global,
    files: &str,
    fails: Option<u64>,
) -> Result<MemTree, AllocError> {
    let mut copies = Vec::new(alloc);
    let mut failing = Vec::new(alloc);
    for line in files.lines() {
        let (name, content) = line.split_once('=').ok_or(AllocError)?;
        let content = Bytes::from_slice(alloc, content.as_bytes())?;
        copies.push((Bytes::from_slice(alloc, name.as_bytes())?, content))?;
        if let Some(number) = fails {
            failing.push((Bytes::from_slice(alloc, name.as_bytes())?, number))?;
        }
    }
    Ok(MemTree::new(alloc, copies, failing))
}

fn site(alloc: Global) -> Result<Site, AllocError>
    ensures { IfOk result (λ site. IsSound site.rules) }
{
    Ok(Site {
        server_name: Bytes::from_slice(alloc, b"waitress.invalid")?,
        ident: Bytes::from_slice(alloc, b"waitress")?,
        url_scheme: Bytes::from_slice(alloc, b"http")?,
        url_prefix: Bytes::from_slice(alloc, b"")?,
        rules: ProxyRules {
            proxy: None,
            count: 1,
            kinds: Items::from_vec(Vec::new(alloc)),
            clear: true,
        },
    })
}

#[tactic(auto, unfolding(head_grammar::specs::Ends::head_end))]
fn head(alloc: Global, text: &[u8]) -> Result<Head, AllocError> {
    let end = head_end(text, 0).ok_or(AllocError)?;
    match read_head(alloc, &text[..end], 10_000) {
        Ok(Parsed::Good(head)) => Ok(head),
        _ => Err(AllocError),
    }
}

// The environ of a request with no fields.
pub(crate) fn request(alloc: Global, method: &str, target: &str) -> Result<Environ, AllocError> {
    let mut text = Vec::new(alloc);
    text.extend_from_slice(method.as_bytes())?;
    text.push(b' ')?;
    text.extend_from_slice(target.as_bytes())?;
    text.extend_from_slice(b" HTTP/1.0\r\n\r\n")?;
    let peer = Peer {
        addr: Bytes::from_slice(alloc, b"10.0.0.9")?,
        port: 5000,
        local_port: 8080,
    };
    let head = head(alloc, text.as_slice())?;
    environ(alloc, &site(alloc)?, &peer, &head, 0).map_err(|_| AllocError)
}

// An environ of this path alone.
pub(crate) fn path_alone(alloc: Global, path: &[u8]) -> Result<Environ, AllocError> {
    let mut pairs = Vec::new(alloc);
    for (name, value) in [
        (b"REQUEST_METHOD".as_slice(), b"GET".as_slice()),
        (b"PATH_INFO".as_slice(), path),
    ] {
        let name = Bytes::from_slice(alloc, name)?;
        pairs.push((name, Bytes::from_slice(alloc, value)?))?;
    }
    Environ::of(alloc, pairs.as_slice())
}

// The response of the folder `site` to a request without a body.
pub(crate) fn open<T: Tree>(
    alloc: Global,
    tree: &T,
    environ: Environ,
) -> Result<DirRun<T::Entry, MemSpill>, AllocError> {
    let spill = MemSpills::new(alloc, Vec::new(alloc)).make();
    let body = OverflowBuffer::new(alloc, spill, 1);
    let directory = DirApp::new(tree, Bytes::from_slice(alloc, b"site")?);
    directory.open(alloc, environ, body).map_err(|_| AllocError)
}

// What the folder `site` gives, and at the end how often its entry failed, if it has one.
pub(crate) fn answer(
    alloc: Global,
    tree: &MemTree,
    environ: Environ,
) -> Result<Vec<u8>, AllocError> {
    let mut run = open(alloc, tree, environ)?;
    let mut text = Vec::new(alloc);
    add_steps(alloc, &mut text, &mut run)?;
    match run.into_entry() {
        Some(entry) => {
            let faults = format!(in alloc; "|faults {}", entry.faults())?;
            text.extend_from_slice(faults.as_bytes())?;
        }
        None => text.extend_from_slice(b"|no entry")?,
    }
    Ok(text)
}

// What the folder `site` gives to a request.
pub(crate) fn asked(
    alloc: Global,
    tree: &MemTree,
    method: &str,
    target: &str,
) -> Result<Vec<u8>, AllocError> {
    answer(alloc, tree, request(alloc, method, target)?)
}
