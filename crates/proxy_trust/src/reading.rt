//! What each proxy header says.
ghost use Rattle.std.specs.Prelude.{◌≡◌, option_copied};
ghost use Rattle.outside.specs.declared.types.Kind.TheVariants.{For, Host, Proto, Port, By};
ghost use Rattle.proxy_trust.specs.Answers.{Answers};
ghost use Rattle.proxy_trust.specs.Rules.{IsSound};
ghost use Rattle.proxy_trust.specs.Trust as spec;

use crate::endpoint::{Endpoint, is_port, read_endpoint};
use crate::headers::used;
use crate::lists::read_list;
use crate::{ProxyFault, ProxyRules};
use head_grammar::Fields;
use outside::{Bytes, Kind, Peer};
use std::alloc::Global;

/// What `X-Forwarded-For` says: the list as it is kept, and where the request came from.
#[derive(Debug, Drop)]
pub(crate) struct ClientList {
    pub(crate) kept: Bytes,
    pub(crate) from: Endpoint,
}

/// What `X-Forwarded-Host` says: the list as it is kept, the value of the Host field that the
/// first proxy got, and its parts.
#[derive(Debug, Drop)]
pub(crate) struct HostList {
    pub(crate) kept: Bytes,
    pub(crate) field: Bytes,
    pub(crate) host: Endpoint,
}

#[derive(Clone, Copy, Debug, PartialEq, Eq)]
pub(crate) enum Scheme {
    Http,
    Https,
}

/// What `X-Forwarded-Proto` says: the scheme as it was sent, and which one it is.
#[derive(Debug, Drop)]
pub(crate) struct SentScheme {
    pub(crate) kept: Bytes,
    pub(crate) scheme: Scheme,
}

/// What all proxy headers say that are believed.
#[derive(Debug, Drop)]
pub(crate) struct ProxyHeaders {
    pub(crate) clients: Option<ClientList>,
    pub(crate) hosts: Option<HostList>,
    pub(crate) proto: Option<SentScheme>,
    pub(crate) port: Option<Bytes>,
    pub(crate) by: Option<Bytes>,
}

fn read_clients(
    alloc: Global,
    value: Option<&[u8]>,
    count: u32,
) -> Result<Option<ClientList>, ProxyFault>
    ensures { Answers result (spec.read For (spec.clients count) (option_copied value.entry)) }
{
    let Some(value) = value else {
        return Ok(None);
    };
    let Some(list) = read_list(alloc, value, count)? else {
        return Err(ProxyFault::Malformed(Kind::For));
    };
    let Some(from) = read_endpoint(alloc, list.chosen)? else {
        return Err(ProxyFault::Malformed(Kind::For));
    };
    Ok(Some(ClientList {
        kept: list.kept,
        from,
    }))
}

fn read_hosts(
    alloc: Global,
    value: Option<&[u8]>,
    count: u32,
) -> Result<Option<HostList>, ProxyFault>
    ensures { Answers result (spec.read Host (spec.hosts count) (option_copied value.entry)) }
{
    let Some(value) = value else {
        return Ok(None);
    };
    let Some(list) = read_list(alloc, value, count)? else {
        return Err(ProxyFault::Malformed(Kind::Host));
    };
    let Some(host) = read_endpoint(alloc, list.chosen)? else {
        return Err(ProxyFault::Malformed(Kind::Host));
    };
    Ok(Some(HostList {
        field: Bytes::from_slice(alloc, list.chosen)?,
        kept: list.kept,
        host,
    }))
}

fn scheme_of(value: &[u8]) -> Option<Scheme>
    ensures { result ≡ spec.scheme value.now }
{
    if value.eq_ignore_ascii_case(b"http") {
        Some(Scheme::Http)
    } else if value.eq_ignore_ascii_case(b"https") {
        Some(Scheme::Https)
    } else {
        None
    }
}

fn read_proto(alloc: Global, value: Option<&[u8]>) -> Result<Option<SentScheme>, ProxyFault>
    ensures { Answers result (spec.read Proto spec.proto (option_copied value.entry)) }
{
    let Some(value) = value else {
        return Ok(None);
    };
    let Some(scheme) = scheme_of(value) else {
        return Err(ProxyFault::Malformed(Kind::Proto));
    };
    Ok(Some(SentScheme {
        kept: Bytes::from_slice(alloc, value)?,
        scheme,
    }))
}

fn read_port(alloc: Global, value: Option<&[u8]>) -> Result<Option<Bytes>, ProxyFault>
    ensures { Answers result (spec.read Port spec.port (option_copied value.entry)) }
{
    let Some(value) = value else {
        return Ok(None);
    };
    if !is_port(value) {
        return Err(ProxyFault::Malformed(Kind::Port));
    }
    Ok(Some(Bytes::from_slice(alloc, value)?))
}

fn read_by(alloc: Global, value: Option<&[u8]>, count: u32) -> Result<Option<Bytes>, ProxyFault>
    ensures { Answers result (spec.read By (spec.by count) (option_copied value.entry)) }
{
    let Some(value) = value else {
        return Ok(None);
    };
    match read_list(alloc, value, count)? {
        Some(list) => Ok(Some(list.kept)),
        None => Err(ProxyFault::Malformed(Kind::By)),
    }
}

/// What all proxy headers say that are believed, or the first malformed one.
pub(crate) fn read_all(
    alloc: Global,
    rules: &ProxyRules,
    peer: &Peer,
    fields: &Fields<'_>,
) -> Result<ProxyHeaders, ProxyFault>
    requires { IsSound rules.now }
    ensures { Answers result (spec.read_all rules.now peer.now fields.now) }
{
    let count = rules.count;
    Ok(ProxyHeaders {
        clients: read_clients(alloc, used(rules, peer, fields, Kind::For), count)?,
        hosts: read_hosts(alloc, used(rules, peer, fields, Kind::Host), count)?,
        proto: read_proto(alloc, used(rules, peer, fields, Kind::Proto))?,
        port: read_port(alloc, used(rules, peer, fields, Kind::Port))?,
        by: read_by(alloc, used(rules, peer, fields, Kind::By), count)?,
    })
}
