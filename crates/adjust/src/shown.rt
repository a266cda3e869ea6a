//! The adjustments as they are printed.
ghost use Rattle.std.specs.Prelude.{◌≡◌, ◌++◌, ◌∷◌, ◌==◌, IfOk, OnOk, map};
ghost use Rattle.std.specs.List.{concat, list_any};
ghost use Rattle.outside.specs.Kinds.{kind_name};
ghost use Rattle.adjust.specs.Options.{row_of};
ghost use Rattle.adjust.specs.Texts as spec;

use crate::Adjustments;
use crate::options::{Field, OptionRow, rows};
use crate::texts::push_number;
use outside::{Bytes, Kind, Listen};
use std::alloc::{AllocError, Global};

fn has_colon(host: &[u8]) -> bool
    ensures { result ≡ list_any (λ b. b == 58) host.now }
{
    host.contains(&b':')
}

fn push_host(text: &mut Vec<u8>, host: &[u8]) -> Result<(), AllocError>
    ensures { OnOk result (text.new.items ≡ text.old.items ++ spec.host_text host.now) }
{
    if !has_colon(host) {
        return text.extend_from_slice(host);
    }
    text.extend_from_slice(b"[")?;
    text.extend_from_slice(host)?;
    text.extend_from_slice(b"]")
}

/// Writes an address at the end, as `host:port`: an address of version 6 stands in brackets. Where
/// memory is refused, a part of it may stand there.
pub fn push_listen(text: &mut Vec<u8>, listen: &Listen) -> Result<(), AllocError>
    ensures { OnOk result (text.new.items ≡ text.old.items ++ spec.listen_text listen.now) }
{
    push_host(text, listen.host.as_slice())?;
    text.extend_from_slice(b":")?;
    push_number(text, u64::from(listen.port))
}

fn push_listen_behind(text: &mut Vec<u8>, listen: &Listen) -> Result<(), AllocError>
    ensures { OnOk result (text.new.items ≡ text.old.items ++ (32 ∷ spec.listen_text listen.now)) }
{
    text.extend_from_slice(b" ")?;
    push_listen(text, listen)
}

fn push_other_listens(text: &mut Vec<u8>, entries: &[Listen]) -> Result<(), AllocError>
    ensures { OnOk result (text.new.items ≡ text.old.items ++ concat
        (map (λ y. 32 ∷ spec.listen_text y) entries.now)) }
{
    for entry in entries {
        push_listen_behind(text, entry)?;
    }
    Ok(())
}

fn push_listens(text: &mut Vec<u8>, entries: &[Listen]) -> Result<(), AllocError>
    ensures { OnOk result (text.new.items ≡ text.old.items ++ spec.list_text spec.listen_text 32
        entries.now) }
{
    let Some((first, others)) = entries.split_first() else {
        return text.extend_from_slice(b"none");
    };
    push_listen(text, first)?;
    push_other_listens(text, others)
}

fn push_kind_behind(text: &mut Vec<u8>, kind: Kind) -> Result<(), AllocError>
    ensures { OnOk result (text.new.items ≡ text.old.items ++ (44 ∷ kind_name kind)) }
{
    text.extend_from_slice(b",")?;
    text.extend_from_slice(kind.name())
}

fn push_other_kinds(text: &mut Vec<u8>, kinds: &[Kind]) -> Result<(), AllocError>
    ensures { OnOk result (text.new.items ≡ text.old.items ++ concat
        (map (λ y. 44 ∷ kind_name y) kinds.now)) }
{
    for kind in kinds {
        push_kind_behind(text, *kind)?;
    }
    Ok(())
}

fn push_kinds(text: &mut Vec<u8>, kinds: &[Kind]) -> Result<(), AllocError>
    ensures { OnOk result (text.new.items ≡ text.old.items ++ spec.list_text kind_name 44
        kinds.now) }
{
    let Some((first, others)) = kinds.split_first() else {
        return text.extend_from_slice(b"none");
    };
    text.extend_from_slice(first.name())?;
    push_other_kinds(text, others)
}

fn push_flag(text: &mut Vec<u8>, flag: bool) -> Result<(), AllocError>
    ensures { OnOk result (text.new.items ≡ text.old.items ++ spec.flag_text flag) }
{
    match flag {
        true => text.extend_from_slice(b"on"),
        false => text.extend_from_slice(b"off"),
    }
}

fn push_optional(text: &mut Vec<u8>, value: &Option<Bytes>) -> Result<(), AllocError>
    ensures { OnOk result (text.new.items ≡ text.old.items ++ spec.optional_text value.now) }
{
    match value {
        Some(value) => text.extend_from_slice(value.as_slice()),
        None => text.extend_from_slice(b"none"),
    }
}

fn push_limit(text: &mut Vec<u8>, limit: Option<u64>) -> Result<(), AllocError>
    ensures { OnOk result (text.new.items ≡ text.old.items ++ spec.optional_number limit) }
{
    match limit {
        Some(limit) => push_number(text, limit),
        None => text.extend_from_slice(b"none"),
    }
}

fn push_field(text: &mut Vec<u8>, of: &Adjustments, field: Field) -> Result<(), AllocError>
    ensures { OnOk result (text.new.items ≡ text.old.items ++ spec.field_text of.now field) }
{
    match field {
        Field::NotShown => Ok(()),
        Field::Host => push_host(text, of.host.as_slice()),
        Field::Listen => push_listens(text, of.listen.as_slice()),
        Field::TrustedProxy => push_optional(text, &of.trusted_proxy),
        Field::TrustedProxyHeaders => push_kinds(text, of.trusted_proxy_headers.as_slice()),
        Field::ClearUntrustedProxyHeaders => push_flag(text, of.clear_untrusted_proxy_headers),
        Field::UrlScheme => text.extend_from_slice(of.url_scheme.as_slice()),
        Field::UrlPrefix => text.extend_from_slice(of.url_prefix.as_slice()),
        Field::ServerName => text.extend_from_slice(of.server_name.as_slice()),
        Field::Ident => text.extend_from_slice(of.ident.as_slice()),
        Field::ServeLimit => push_limit(text, of.serve_limit),
        Field::Port => push_number(text, of.port),
        Field::Threads => push_number(text, of.threads),
        Field::TrustedProxyCount => push_number(text, of.trusted_proxy_count),
        Field::Backlog => push_number(text, of.backlog),
        Field::RecvBytes => push_number(text, of.recv_bytes),
        Field::InbufOverflow => push_number(text, of.inbuf_overflow),
        Field::OutbufOverflow => push_number(text, of.outbuf_overflow),
        Field::OutbufHighWatermark => push_number(text, of.outbuf_high_watermark),
        Field::ConnectionLimit => push_number(text, of.connection_limit),
        Field::CleanupInterval => push_number(text, of.cleanup_interval),
        Field::ChannelTimeout => push_number(text, of.channel_timeout),
        Field::MaxRequestHeaderSize => push_number(text, of.max_request_header_size),
        Field::MaxRequestBodySize => push_number(text, of.max_request_body_size),
        Field::ChannelRequestLookahead => push_number(text, of.channel_request_lookahead),
    }
}

fn is_shown(field: Field) -> bool
    ensures { result ≡ spec.is_shown field }
{
    field != Field::NotShown
}

fn push_line(text: &mut Vec<u8>, of: &Adjustments, row: &OptionRow) -> Result<(), AllocError>
    ensures { OnOk result (text.new.items ≡ text.old.items ++ spec.check_line of.now
        (row_of row.now)) }
{
    if !is_shown(row.field) {
        return Ok(());
    }
    text.extend_from_slice(row.name.as_bytes())?;
    text.extend_from_slice(b" = ")?;
    push_field(text, of, row.field)?;
    text.extend_from_slice(b"\n")
}

fn push_lines(text: &mut Vec<u8>, of: &Adjustments, rows: &[OptionRow]) -> Result<(), AllocError>
    ensures { OnOk result (text.new.items ≡ text.old.items
        ++ concat (map (λ row. spec.check_line of.now (row_of row)) rows.now)) }
{
    for row in rows {
        push_line(text, of, row)?;
    }
    Ok(())
}

/// The options as they are adjusted, a line for each.
#[tactic(auto, unfolding(crate::specs::Texts::check_text_of))]
pub fn check_text(alloc: Global, adjustments: &Adjustments) -> Result<Bytes, AllocError>
    ensures { IfOk result (λ text. text ≡ spec.check_text_of adjustments.now) }
{
    let mut text = Vec::new(alloc);
    push_lines(&mut text, adjustments, rows())?;
    Ok(Bytes::from_vec(text))
}
