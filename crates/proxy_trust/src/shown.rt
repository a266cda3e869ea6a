//! Rows of rules, fields and answers. A name that begins with `~` stands for `x-forwarded-`.
ghost use Rattle.std.specs.Bool.{OnTrue};
ghost use Rattle.proxy_trust.specs.Rules.{IsSound};

use crate::headers::is_listed;
use crate::{ProxyFault, ProxyRules, Trusted, trust};
use head_grammar::{Field, FieldList};
use outside::{Bytes, Items, Kind, Peer};
use std::alloc::{AllocError, Global};

const ALL: &[Kind] = &[Kind::By, Kind::Port, Kind::Proto, Kind::Host, Kind::For];

#[derive(Clone, Copy)]
pub(crate) struct Rules {
    proxy: &'static str,
    count: u32,
    kinds: &'static [Kind],
    clear: bool,
}

// Every peer is believed, in all that it tells.
pub(crate) const EVERY: Rules = Rules {
    proxy: "*",
    count: 1,
    kinds: ALL,
    clear: true,
};

pub(crate) const LOCAL: Rules = Rules {
    proxy: "127.0.0.1",
    count: 1,
    kinds: &[Kind::For, Kind::Proto],
    clear: true,
};

pub(crate) const KEEPING: Rules = Rules {
    proxy: "127.0.0.1",
    count: 1,
    kinds: &[Kind::For, Kind::Proto],
    clear: false,
};

pub(crate) const KEEPING_ALL: Rules = Rules {
    proxy: "*",
    count: 1,
    kinds: ALL,
    clear: false,
};

pub(crate) const NOBODY: Rules = Rules {
    proxy: "",
    count: 1,
    kinds: ALL,
    clear: true,
};

pub(crate) fn counting(count: u32) -> Rules {
    Rules {
        proxy: "*",
        count,
        kinds: ALL,
        clear: true,
    }
}

fn rules_of(alloc: Global, rules: Rules) -> Result<ProxyRules, AllocError> {
    let proxy = match rules.proxy {
        "" => None,
        proxy => Some(Bytes::from_slice(alloc, proxy.as_bytes())?),
    };
    Ok(ProxyRules {
        proxy,
        count: rules.count,
        kinds: Items::from_vec(Vec::from_slice(alloc, rules.kinds)?),
        clear: rules.clear,
    })
}

fn full_name(alloc: Global, name: &str) -> Result<Bytes, AllocError> {
    let mut text = Vec::new(alloc);
    match name.strip_prefix('~') {
        Some(rest) => {
            text.extend_from_slice(b"x-forwarded-")?;
            text.extend_from_slice(rest.as_bytes())?;
        }
        None => text.extend_from_slice(name.as_bytes())?,
    }
    Ok(Bytes::from_vec(text))
}

fn fields_of(alloc: Global, text: &str) -> Result<Vec<Field>, AllocError> {
    let mut fields = Vec::new(alloc);
    for line in text.split('|') {
        if let Some((name, value)) = line.split_once('=') {
            fields.push(Field {
                name: full_name(alloc, name)?,
                value: Bytes::from_slice(alloc, value.as_bytes())?,
            })?;
        }
    }
    Ok(fields)
}

fn show_name(text: &mut Vec<u8>, name: &[u8]) -> Result<(), AllocError> {
    match name.strip_prefix(b"x-forwarded-") {
        Some(rest) => {
            text.extend_from_slice(b"~")?;
            text.extend_from_slice(rest)
        }
        None => text.extend_from_slice(name),
    }
}

fn show_part(text: &mut Vec<u8>, part: &Option<Bytes>) -> Result<(), AllocError> {
    match part {
        Some(bytes) => text.extend_from_slice(bytes.as_slice())?,
        None => text.extend_from_slice(b"-")?,
    }
    text.extend_from_slice(b" ")
}

// The client's address and port, the server's name and port, the scheme, and the fields.
fn show(alloc: Global, trusted: &Trusted<'_>) -> Result<Vec<u8>, AllocError> {
    let mut text = Vec::new(alloc);
    show_part(&mut text, &trusted.addr)?;
    show_part(&mut text, &trusted.port)?;
    show_part(&mut text, &trusted.server_name)?;
    show_part(&mut text, &trusted.server_port)?;
    show_part(&mut text, &trusted.scheme)?;
    for field in trusted.fields.as_slice() {
        text.extend_from_slice(b"|")?;
        show_name(&mut text, field.name())?;
        text.extend_from_slice(b"=")?;
        text.extend_from_slice(field.value())?;
    }
    Ok(text)
}

fn are_sound(rules: &ProxyRules) -> bool
    ensures { OnTrue result (IsSound rules.now) }
{
    rules.count >= 1 && !is_listed(Kind::Forwarded, rules.kinds.as_slice())
}

fn answer(alloc: Global, rules: Rules, addr: &str, fields: &str) -> Result<Vec<u8>, AllocError> {
    let mut text = Vec::new(alloc);
    let rules = rules_of(alloc, rules)?;
    if !are_sound(&rules) {
        return Ok(text);
    }
    let peer = Peer {
        addr: Bytes::from_slice(alloc, addr.as_bytes())?,
        port: 5000,
        local_port: 8080,
    };
    let fields = FieldList::of(alloc, &fields_of(alloc, fields)?)?;
    match trust(alloc, &rules, &peer, &fields.fields()) {
        Ok(trusted) => return show(alloc, &trusted),
        Err(ProxyFault::Malformed(kind)) => show_name(&mut text, kind.name())?,
        Err(ProxyFault::NoMemory) => {}
    }
    Ok(text)
}

pub(crate) fn holds(alloc: Global, rules: Rules, addr: &str, fields: &str, want: &str) -> bool {
    match answer(alloc, rules, addr, fields) {
        Ok(text) => text.as_slice() == want.as_bytes(),
        Err(_) => false,
    }
}
