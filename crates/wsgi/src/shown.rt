//! Environs as text.
ghost use Rattle.std.specs.Prelude.{◌≡◌};
ghost use Rattle.std.specs.Bool.{OnTrue};
ghost use Rattle.proxy_trust.specs.Headers.{is_listed};
ghost use Rattle.proxy_trust.specs.Rules.{IsSound};

use crate::{Environ, Site, environ};
use head_grammar::{Head, Parsed, head_end, read_head};
use outside::{Bytes, Items, Kind, Peer};
use proxy_trust::{ProxyFault, ProxyRules};
use std::alloc::{AllocError, Global};

#[derive(Clone, Copy)]
pub(crate) struct Rules {
    proxy: &'static str,
    count: u32,
    kinds: &'static [Kind],
    clear: bool,
    prefix: &'static str,
}

pub(crate) const LOCAL: Rules = Rules {
    proxy: "127.0.0.1",
    count: 1,
    kinds: &[Kind::For, Kind::Proto],
    clear: true,
    prefix: "/app",
};

pub(crate) const TWO: Rules = Rules {
    proxy: "*",
    count: 2,
    kinds: &[Kind::For],
    ..LOCAL
};

pub(crate) const EVERY: Rules = Rules {
    proxy: "*",
    count: 1,
    kinds: &[Kind::For, Kind::Host, Kind::Proto, Kind::Port, Kind::By],
    ..LOCAL
};

pub(crate) const BARE: Rules = Rules {
    clear: false,
    prefix: "",
    ..LOCAL
};

fn is_in(kind: Kind, kinds: &[Kind]) -> bool
    ensures { result ≡ is_listed kind kinds.now }
{
    kinds.contains(&kind)
}

fn are_sound(rules: &ProxyRules) -> bool
    ensures { OnTrue result (IsSound rules.now) }
{
    rules.count >= 1 && !is_in(Kind::Forwarded, rules.kinds.as_slice())
}

fn site(alloc: Global, rules: Rules) -> Result<Site, AllocError> {
    Ok(Site {
        server_name: Bytes::from_slice(alloc, b"waitress.invalid")?,
        ident: Bytes::from_slice(alloc, b"waitress")?,
        url_scheme: Bytes::from_slice(alloc, b"http")?,
        url_prefix: Bytes::from_slice(alloc, rules.prefix.as_bytes())?,
        rules: ProxyRules {
            proxy: Some(Bytes::from_slice(alloc, rules.proxy.as_bytes())?),
            count: rules.count,
            kinds: Items::from_vec(Vec::from_slice(alloc, rules.kinds)?),
            clear: rules.clear,
        },
    })
}

#[tactic(auto, unfolding(head_grammar::specs::Ends::head_end))]
fn head(alloc: Global, text: &str) -> Result<Head, AllocError> {
    let end = head_end(text.as_bytes(), 0).ok_or(AllocError)?;
    match read_head(alloc, &text.as_bytes()[..end], 1000) {
        Ok(Parsed::Good(head)) => Ok(head),
        _ => Err(AllocError),
    }
}

// The values of the named variables, each behind a `|`, and `-` for one that is not there.
fn values(alloc: Global, environ: &Environ, names: &str) -> Result<Vec<u8>, AllocError> {
    let mut text = Vec::new(alloc);
    for name in names.split(' ') {
        text.push(b'|')?;
        text.extend_from_slice(environ.get(name.as_bytes()).unwrap_or(b"-"))?;
    }
    Ok(text)
}

// The environ's variables in order, or the named ones alone.
fn shown(alloc: Global, environ: &Environ, names: &str) -> Result<Vec<u8>, AllocError> {
    if !names.is_empty() {
        return values(alloc, environ, names);
    }
    let mut text = Vec::new(alloc);
    for (name, value) in environ.iter() {
        text.extend_from_slice(name)?;
        text.push(b'=')?;
        text.extend_from_slice(value)?;
        text.push(b'\n')?;
    }
    Ok(text)
}

// What is shown of the environ of a request with a body of 11 bytes.
fn answer(
    alloc: Global,
    rules: Rules,
    addr: &str,
    text: &str,
    names: &str,
) -> Result<Vec<u8>, AllocError> {
    let site = site(alloc, rules)?;
    let peer = Peer {
        addr: Bytes::from_slice(alloc, addr.as_bytes())?,
        port: 5000,
        local_port: 8080,
    };
    if !are_sound(&site.rules) {
        return Err(AllocError);
    }
    match environ(alloc, &site, &peer, &head(alloc, text)?, 11) {
        Ok(environ) => shown(alloc, &environ, names),
        Err(ProxyFault::Malformed(Kind::For)) => Vec::from_slice(alloc, b"malformed for"),
        Err(_) => Err(AllocError),
    }
}

/// Whether this is shown.
pub(crate) fn holds(
    alloc: Global,
    rules: Rules,
    addr: &str,
    lines: &str,
    names: &str,
    want: &str,
) -> bool {
    match answer(alloc, rules, addr, lines, names) {
        Ok(text) => text.as_slice() == want.as_bytes(),
        Err(_) => false,
    }
}
