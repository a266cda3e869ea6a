//! The proxy headers, and which of them are used.
ghost use Rattle.std.specs.Prelude.{◌≡◌, option_copied};
ghost use Rattle.proxy_trust.specs.Headers as spec;
ghost use Rattle.proxy_trust.specs.Rules as rule;

use crate::ProxyRules;
use head_grammar::Fields;
use outside::{Bytes, Kind, Peer};

const KINDS: [Kind; 6] = [
    Kind::Forwarded,
    Kind::For,
    Kind::Host,
    Kind::Proto,
    Kind::Port,
    Kind::By,
];

/// Whether a name is that of a proxy header.
pub(crate) fn is_proxy_name(name: &[u8]) -> bool
    ensures { result ≡ spec.is_proxy_name name.now }
{
    KINDS.iter().any(|kind| name == kind.name())
}

/// Whether a kind stands in the list.
pub(crate) fn is_listed(kind: Kind, kinds: &[Kind]) -> bool
    ensures { result ≡ spec.is_listed kind kinds.now }
{
    kinds.contains(&kind)
}

fn is_proxy(proxy: &Option<Bytes>, address: &[u8]) -> bool
    ensures { result ≡ rule.is_proxy proxy.now address.now }
{
    match proxy {
        None => false,
        Some(proxy) => proxy.as_slice() == b"*".as_slice() || proxy.as_slice() == address,
    }
}

/// The value of a header that is believed, where there is one.
pub(crate) fn used<'a>(
    rules: &ProxyRules,
    peer: &Peer,
    fields: &Fields<'a>,
    kind: Kind,
) -> Option<&'a [u8]>
    ensures { option_copied result ≡ rule.used rules.now peer.now fields.now kind }
{
    let believed = is_proxy(&rules.proxy, peer.addr.as_slice())
        && is_listed(kind, rules.kinds.as_slice());
    if !believed {
        return None;
    }
    fields.value_of(kind.name())
}
