//! Who answers, and whom.
ghost use Rattle.std.specs.Prelude.{IfOk};
ghost use Rattle.proxy_trust.specs.Rules.{IsSound};

use outside::{Bytes, Items, Kind, Peer};
use proxy_trust::ProxyRules;
use std::alloc::{AllocError, Global};
use wsgi::Site;

/// A server that believes every peer what it tells of the scheme.
pub fn site(alloc: Global) -> Result<Site, AllocError>
    ensures { IfOk result (λ site. IsSound site.rules) }
{
    Ok(Site {
        server_name: Bytes::from_slice(alloc, b"waitress.invalid")?,
        ident: Bytes::from_slice(alloc, b"waitress")?,
        url_scheme: Bytes::from_slice(alloc, b"http")?,
        url_prefix: Bytes::from_vec(Vec::new(alloc)),
        rules: ProxyRules {
            proxy: Some(Bytes::from_slice(alloc, b"*")?),
            count: 1,
            kinds: Items::from_vec(Vec::from_slice(alloc, &[Kind::Proto])?),
            clear: true,
        },
    })
}

/// Where the requests come from.
pub fn peer(alloc: Global) -> Result<Peer, AllocError> {
    Ok(Peer {
        addr: Bytes::from_slice(alloc, b"10.0.0.9")?,
        port: 5000,
        local_port: 8080,
    })
}
