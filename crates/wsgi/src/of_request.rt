//! The environ that a request makes.
ghost use Rattle.std.specs.Prelude.{◌≡◌, ◌++◌, IfOk, OnOk, codes, unwrap_or};
ghost use Rattle.proxy_trust.specs.Answers.{Answers};
ghost use Rattle.proxy_trust.specs.Rules.{IsSound};
ghost use Rattle.wsgi.specs.Environ as spec;

use crate::of_fields::add_fields;
use crate::{Environ, Site};
use head_grammar::{Framing, Head, Version};
use itoa::Buffer;
use outside::{Bytes, Peer};
use proxy_trust::{ProxyFault, Trusted, trust};
use std::alloc::{AllocError, Global};

/// How many variables there are at most beside those of fields.
const OWN_VARIABLES: usize = 15;

/// How long their names are with what isn't counted of their values, and no less.
const OWN_SIZE: usize = 256;

/// How much longer than the name of a field that of its variable is.
const PREFIX_SIZE: usize = 5;

fn is_rooted(bytes: &[u8]) -> bool
    ensures { result ≡ spec.is_rooted bytes.now }
{
    matches!(bytes.first(), None | Some(b'/'))
}

fn path_info<'a>(prefix: &[u8], path: &'a [u8]) -> &'a [u8]
    ensures { result.now ≡ spec.path_info prefix.now path.now }
{
    match path.strip_prefix(prefix) {
        Some(rest) if is_rooted(rest) => rest,
        _ => path,
    }
}

fn protocol(version: Version) -> &'static [u8]
    ensures { result.now ≡ spec.protocol version }
{
    match version {
        Version::Old => b"HTTP/1.0",
        Version::New => b"HTTP/1.1",
    }
}

// What a proxy told, or else what is known without it.
fn told_or<'a>(told: &'a Option<Bytes>, known: &'a [u8]) -> &'a [u8]
    ensures { result.now ≡ unwrap_or told.now known.now }
{
    match told {
        Some(value) => value.as_slice(),
        None => known,
    }
}

fn add_line(environ: &mut Environ, prefix: &[u8], head: &Head) -> Result<(), AllocError>
    ensures { OnOk result (environ.new
        ≡ environ.old ++ spec.line_variables prefix.now head.now) }
{
    environ.add(b"REQUEST_METHOD", head.method())?;
    environ.add(b"SCRIPT_NAME", prefix)?;
    environ.add(b"PATH_INFO", path_info(prefix, head.path()))?;
    environ.add(b"REQUEST_URI", head.target())?;
    environ.add(b"QUERY_STRING", head.query())
}

fn add_length(environ: &mut Environ, head: &Head, length: u64) -> Result<(), AllocError>
    ensures { OnOk result (environ.new
        ≡ environ.old ++ spec.optional (codes "CONTENT_LENGTH")
        (spec.content_length head.now.framing head.now.fields length)) }
{
    const NAME: &[u8] = b"CONTENT_LENGTH";
    match head.framing() {
        Framing::Chunked => environ.add(NAME, Buffer::new().format(length).as_bytes()),
        Framing::Empty | Framing::Fixed(_) => {
            environ.add_optional(NAME, head.fields().value_of(b"content-length"))
        }
    }
}

fn add_body(environ: &mut Environ, head: &Head, length: u64) -> Result<(), AllocError>
    ensures { OnOk result (environ.new
        ≡ environ.old ++ spec.body_variables head.now length) }
{
    let content_type = head.fields().value_of(b"content-type");
    environ.add_optional(b"CONTENT_TYPE", content_type)?;
    add_length(environ, head, length)
}

fn add_server(
    environ: &mut Environ,
    site: &Site,
    peer: &Peer,
    version: Version,
    told: &Trusted<'_>,
) -> Result<(), AllocError>
    ensures { OnOk result (environ.new
        ≡ environ.old ++ spec.server_variables site.now peer.now version told.now) }
{
    let mut digits = Buffer::new();
    let local_port = digits.format(peer.local_port).as_bytes();
    let name = told_or(&told.server_name, site.server_name.as_slice());
    environ.add(b"SERVER_NAME", name)?;
    environ.add(b"SERVER_PORT", told_or(&told.server_port, local_port))?;
    environ.add(b"SERVER_PROTOCOL", protocol(version))?;
    environ.add(b"SERVER_SOFTWARE", site.ident.as_slice())
}

fn add_client(
    environ: &mut Environ,
    site: &Site,
    peer: &Peer,
    told: &Trusted<'_>,
) -> Result<(), AllocError>
    ensures { OnOk result (environ.new
        ≡ environ.old ++ spec.client_variables site.now peer.now told.now) }
{
    let mut digits = Buffer::new();
    let port = digits.format(peer.port).as_bytes();
    let addr = told_or(&told.addr, peer.addr.as_slice());
    let scheme = told_or(&told.scheme, site.url_scheme.as_slice());
    environ.add(b"REMOTE_ADDR", addr)?;
    environ.add(b"REMOTE_HOST", addr)?;
    environ.add(b"REMOTE_PORT", told_or(&told.port, port))?;
    environ.add(b"wsgi.url_scheme", scheme)
}

// About how long the names and values of all variables are together.
fn expected_size(site: &Site, peer: &Peer, head: &Head, told: &Trusted<'_>) -> usize {
    let addr = told_or(&told.addr, peer.addr.as_slice()).len();
    let mut size = OWN_SIZE;
    for text in [
        head.method().len(),
        site.url_prefix.len(),
        head.path().len(),
        head.target().len(),
        head.query().len(),
        told_or(&told.server_name, site.server_name.as_slice()).len(),
        site.ident.len(),
        addr,
        addr,
        told_or(&told.scheme, site.url_scheme.as_slice()).len(),
    ] {
        size = size.saturating_add(text);
    }
    for field in told.fields.as_slice() {
        let name = PREFIX_SIZE.saturating_add(field.name().len());
        size = size
            .saturating_add(name)
            .saturating_add(field.value().len());
    }
    size
}

// The environ where proxies tell this.
fn environ_with(
    alloc: Global,
    site: &Site,
    peer: &Peer,
    head: &Head,
    length: u64,
    told: &Trusted<'_>,
) -> Result<Environ, AllocError>
    ensures { IfOk result (λ environ. environ
        ≡ spec.environ_with site.now peer.now head.now length told.now) }
{
    let pairs = told.fields.len().saturating_add(OWN_VARIABLES);
    let size = expected_size(site, peer, head, told);
    let mut environ = Environ::with_room(alloc, pairs, size)?;
    add_line(&mut environ, site.url_prefix.as_slice(), head)?;
    add_body(&mut environ, head, length)?;
    add_server(&mut environ, site, peer, head.version(), told)?;
    add_client(&mut environ, site, peer, told)?;
    add_fields(&mut environ, told.fields.as_slice())?;
    Ok(environ)
}

/// The environ of a request with this head, from this peer. The length is that of the body, once
/// it is decoded.
#[tactic(auto, unfolding(crate::specs::Environ::environ_of))]
pub fn environ(
    alloc: Global,
    site: &Site,
    peer: &Peer,
    head: &Head,
    length: u64,
) -> Result<Environ, ProxyFault>
    requires sound { IsSound site.now.rules }
    ensures { Answers result (spec.environ_of site.now peer.now head.now length) }
{
    let told = trust(alloc, &site.rules, peer, &head.fields())?;
    Ok(environ_with(alloc, site, peer, head, length, &told)?)
}
