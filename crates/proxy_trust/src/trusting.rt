//! What becomes of a request that came through proxies.
ghost use Rattle.std.specs.Prelude.{◌≡◌, option_map, option_and_then, IfOk};
ghost use Rattle.proxy_trust.specs.Answers.{Answers};
ghost use Rattle.proxy_trust.specs.Rules.{IsSound};
ghost use Rattle.proxy_trust.specs.Trust as spec;

use crate::endpoint::Endpoint;
use crate::keeping::{HOST, add_new, keep_fields};
use crate::reading::{ClientList, HostList, ProxyHeaders, Scheme, SentScheme, read_all};
use crate::{ProxyFault, ProxyRules, Trusted};
use head_grammar::Fields;
use outside::{Bytes, Kind, Peer};
use std::alloc::{AllocError, Global};

// The list as it is kept, the address and the port.
fn client_parts(clients: Option<ClientList>) -> (Option<Bytes>, Option<Bytes>, Option<Bytes>)
    ensures kept { result.0 ≡ option_map (λ clients. clients.kept) clients }
    ensures address { result.1 ≡ option_map (λ clients. clients.from.address) clients }
    ensures port { result.2 ≡ option_and_then (λ clients. clients.from.port) clients }
{
    match clients {
        None => (None, None, None),
        Some(ClientList { kept, from }) => {
            let Endpoint { address, port } = from;
            (Some(kept), Some(address), port)
        }
    }
}

// The list as it is kept, the Host field, the address and the port.
fn host_parts(
    hosts: Option<HostList>,
) -> (Option<Bytes>, Option<Bytes>, Option<Bytes>, Option<Bytes>)
    ensures kept { result.0 ≡ option_map (λ hosts. hosts.kept) hosts }
    ensures field { result.1 ≡ option_map (λ hosts. hosts.field) hosts }
    ensures address { result.2 ≡ option_map (λ hosts. hosts.host.address) hosts }
    ensures port { result.3 ≡ option_and_then (λ hosts. hosts.host.port) hosts }
{
    match hosts {
        None => (None, None, None, None),
        Some(HostList { kept, field, host }) => {
            let Endpoint { address, port } = host;
            (Some(kept), Some(field), Some(address), port)
        }
    }
}

// The scheme as it was sent, and which one it is.
fn proto_parts(proto: Option<SentScheme>) -> (Option<Bytes>, Option<Scheme>)
    ensures kept { result.0 ≡ option_map (λ proto. proto.kept) proto }
    ensures scheme { result.1 ≡ option_map (λ proto. proto.scheme) proto }
{
    match proto {
        None => (None, None),
        Some(SentScheme { kept, scheme }) => (Some(kept), Some(scheme)),
    }
}

impl Scheme {
    fn name(self) -> &'static [u8]
        ensures { result.now ≡ spec.scheme_name self }
    {
        match self {
            Scheme::Http => b"http",
            Scheme::Https => b"https",
        }
    }

    fn default_port(self) -> &'static [u8]
        ensures { result.now ≡ spec.default_port self }
    {
        match self {
            Scheme::Http => b"80",
            Scheme::Https => b"443",
        }
    }
}

fn scheme_name(alloc: Global, scheme: Option<Scheme>) -> Result<Option<Bytes>, AllocError>
    ensures { IfOk result (λ name. name ≡ option_map spec.scheme_name scheme) }
{
    match scheme {
        None => Ok(None),
        Some(scheme) => Ok(Some(Bytes::from_slice(alloc, scheme.name())?)),
    }
}

// Of the port that is told, that of the host and the scheme's, the first that is there.
fn server_port(
    alloc: Global,
    told: &Option<Bytes>,
    host: Option<Bytes>,
    scheme: Option<Scheme>,
) -> Result<Option<Bytes>, AllocError>
    ensures { IfOk result (λ port. port ≡ spec.server_port told.now host scheme) }
{
    match (told, host, scheme) {
        (Some(port), _, _) => Ok(Some(Bytes::from_slice(alloc, port.as_slice())?)),
        (None, Some(port), _) => Ok(Some(port)),
        (None, None, Some(scheme)) => { Ok(Some(Bytes::from_slice(alloc, scheme.default_port())?)) }
        (None, None, None) => Ok(None),
    }
}

fn take_headers<'a>(
    alloc: Global,
    clear: bool,
    fields: &Fields<'a>,
    headers: ProxyHeaders,
) -> Result<Trusted<'a>, AllocError>
    ensures { IfOk result (λ trusted. trusted ≡ spec.taken clear fields.now headers) }
{
    let (clients, addr, port) = client_parts(headers.clients);
    let (hosts, host, server_name, host_port) = host_parts(headers.hosts);
    let (proto, scheme) = proto_parts(headers.proto);
    let server_port = server_port(alloc, &headers.port, host_port, scheme)?;
    let mut news = Vec::new(alloc);
    add_new(&mut news, Kind::For.name(), clients)?;
    add_new(&mut news, Kind::Host.name(), hosts)?;
    add_new(&mut news, Kind::Proto.name(), proto)?;
    add_new(&mut news, Kind::Port.name(), headers.port)?;
    add_new(&mut news, Kind::By.name(), headers.by)?;
    add_new(&mut news, HOST, host)?;
    Ok(Trusted {
        fields: keep_fields(alloc, fields, news, clear)?,
        addr,
        port,
        server_name,
        server_port,
        scheme: scheme_name(alloc, scheme)?,
    })
}

/// What the proxies tell of a request with these fields, whose names are in lower case: the
/// fields that stay, which aren't copied, and what they replace.
#[tactic(auto, unfolding(crate::specs::Trust::trusted))]
pub fn trust<'a>(
    alloc: Global,
    rules: &ProxyRules,
    peer: &Peer,
    fields: &Fields<'a>,
) -> Result<Trusted<'a>, ProxyFault>
    requires sound { IsSound rules.now }
    ensures { Answers result (spec.trusted rules.now peer.now fields.now) }
{
    let headers = read_all(alloc, rules, peer, fields)?;
    Ok(take_headers(alloc, rules.clear, fields, headers)?)
}
