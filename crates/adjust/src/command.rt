//! What a command line asks for.
ghost use Rattle.std.specs.Prelude.{◌≡◌, ◌≢◌, IfOk, IfSome, IsUtf8, None, codes, true};
ghost use Rattle.adjust.specs.Command as spec;
ghost use Rattle.adjust.specs.CommandLine.{words_of};
ghost use Rattle.adjust.specs.Names.{IsNamed, KeepsNames};
ghost use Rattle.adjust.specs.Ranges.{KeepsRanges};

use crate::addresses::read_listen;
use crate::definition::find_given;
use crate::faults::first_fault;
use crate::given::Given;
use crate::kinds::read_kinds;
use crate::values::{read_host, read_number, read_path};
use crate::{Adjustments, AppName, Command, UsageFault};
use outside::{Bytes, Items, Kind};
use std::alloc::{AllocError, Global};

fn host_of(alloc: Global, text: &[u8]) -> Result<Bytes, AllocError>
    ensures { IfOk result (λ host. host ≡ spec.host_of text.now) }
{
    match read_host(text) {
        Some(host) => Bytes::from_slice(alloc, host),
        None => Ok(Bytes::from_vec(Vec::new(alloc))),
    }
}

fn trusted_proxy(alloc: Global, given: &Given<'_>) -> Result<Option<Bytes>, AllocError>
    ensures { IfOk result (λ proxy. proxy ≡ spec.trusted_proxy given.now) }
{
    match given.value("trusted-proxy") {
        Some(proxy) => Ok(Some(Bytes::from_slice(alloc, proxy)?)),
        None => Ok(None),
    }
}

fn default_kinds(alloc: Global, trusted: bool) -> Result<Items<Kind>, AllocError>
    ensures { IfOk result (λ kinds. kinds ≡ spec.default_kinds trusted) }
{
    let mut kinds = Vec::new(alloc);
    if trusted {
        kinds.push(Kind::Proto)?;
    }
    Ok(Items::from_vec(kinds))
}

fn trusted_kinds(alloc: Global, given: &Given<'_>) -> Result<Items<Kind>, AllocError>
    ensures { IfOk result (λ kinds. kinds ≡ spec.trusted_kinds given.now) }
{
    match given.value("trusted-proxy-headers") {
        Some(text) => read_kinds(alloc, text),
        None => default_kinds(alloc, given.is_given("trusted-proxy")),
    }
}

fn serve_limit(given: &Given<'_>) -> Option<u64>
    ensures { result ≡ spec.serve_limit given.now }
{
    read_number(given.value("serve-limit")?)
}

fn text_of(alloc: Global, given: &Given<'_>, name: &str) -> Result<Bytes, AllocError>
    ensures { IfOk result (λ text. text ≡ spec.text given.now name.now) }
{
    Bytes::from_slice(alloc, given.text(name))
}

#[tactic(auto, unfolding(crate::specs::Command::adjustments_of))]
fn adjustments(alloc: Global, given: &Given<'_>) -> Result<Adjustments, AllocError>
    ensures { IfOk result (λ adjustments. adjustments ≡ spec.adjustments_of given.now) }
{
    Ok(Adjustments {
        host: host_of(alloc, given.text("host"))?,
        port: given.number("port"),
        listen: read_listen(alloc, given.text("listen"))?,
        threads: given.number("threads"),
        trusted_proxy: trusted_proxy(alloc, given)?,
        trusted_proxy_count: given.number("trusted-proxy-count"),
        trusted_proxy_headers: trusted_kinds(alloc, given)?,
        clear_untrusted_proxy_headers: !given.is_on("no-clear-untrusted-proxy-headers"),
        url_scheme: text_of(alloc, given, "url-scheme")?,
        url_prefix: read_path(alloc, given.text("url-prefix"))?,
        server_name: text_of(alloc, given, "server-name")?,
        ident: text_of(alloc, given, "ident")?,
        backlog: given.number("backlog"),
        recv_bytes: given.number("recv-bytes"),
        inbuf_overflow: given.number("inbuf-overflow"),
        outbuf_overflow: given.number("outbuf-overflow"),
        outbuf_high_watermark: given.number("outbuf-high-watermark"),
        connection_limit: given.number("connection-limit"),
        cleanup_interval: given.number("cleanup-interval"),
        channel_timeout: given.number("channel-timeout"),
        max_request_header_size: given.number("max-request-header-size"),
        max_request_body_size: given.number("max-request-body-size"),
        channel_request_lookahead: given.number("channel-request-lookahead"),
        serve_limit: serve_limit(given),
    })
}

// The operand of an application that has one.
fn operand(alloc: Global, text: Option<&str>) -> Result<Option<Bytes>, AllocError>
    ensures operand { IfOk result (λ operand. operand ≡ spec.operand (spec.now_of text.entry)) }
    ensures text { IfOk result (λ operand. IfSome operand IsUtf8) }
{
    match text {
        Some(text) => {
            if text.is_empty() {
                Ok(None)
            } else {
                Ok(Some(Bytes::from_slice(alloc, text.as_bytes())?))
            }
        }
        None => Ok(None),
    }
}

fn application(
    alloc: Global,
    name: &[u8],
    text: Option<&str>,
) -> Result<Result<AppName, UsageFault>, AllocError>
    ensures app { IfOk result (λ app. app ≡ spec.application name.now (spec.now_of text.entry)) }
    ensures named { IfOk result (λ app. IfOk app IsNamed) }
{
    if name == b"echo".as_slice() {
        return match text {
            Some(_) => Ok(Err(UsageFault::Operands)),
            None => Ok(Ok(AppName::Echo)),
        };
    }
    if name == b"table".as_slice() {
        return match operand(alloc, text)? {
            Some(file) => Ok(Ok(AppName::Table(file))),
            None => Ok(Err(UsageFault::Operands)),
        };
    }
    if name == b"dir".as_slice() {
        return match operand(alloc, text)? {
            Some(root) => Ok(Ok(AppName::Dir(root))),
            None => Ok(Err(UsageFault::Operands)),
        };
    }
    Ok(Err(UsageFault::BadApplication))
}

fn application_of(
    alloc: Global,
    given: &Given<'_>,
) -> Result<Result<AppName, UsageFault>, AllocError>
    ensures app { IfOk result (λ app. app ≡ spec.application_of given.now) }
    ensures named { IfOk result (λ app. IfOk app IsNamed) }
{
    match given.value("APP") {
        Some(name) => application(alloc, name, given.operand("ARG")),
        None => Ok(Err(UsageFault::NoApplication)),
    }
}

fn served(alloc: Global, given: &Given<'_>) -> Result<Result<Command, UsageFault>, AllocError>
    ensures command { IfOk result (λ command. command ≡ spec.served given.now
        (spec.application_of given.now)) }
    ensures names { IfOk result (λ command. IfOk command KeepsNames) }
{
    match application_of(alloc, given)? {
        Ok(app) => Ok(Ok(Command::Serve(adjustments(alloc, given)?, app))),
        Err(fault) => Ok(Err(fault)),
    }
}

// No rehearsal has more connections than its option's range lets it.
fn connections(given: &Given<'_>) -> u32
    requires faultless { spec.first_fault given.now ≡ None }
    requires rehearses { spec.is_given given.now (codes "rehearse") ≡ true }
    ensures { result ≡ spec.number_at given.now (codes "rehearse") }
{
    given.number("rehearse") as u32
}

#[tactic(auto, unfolding(crate::specs::Command::asked))]
fn asked(alloc: Global, given: &Given<'_>) -> Result<Result<Command, UsageFault>, AllocError>
    requires { spec.first_fault given.now ≡ None }
    ensures command { IfOk result (λ command. command ≡ spec.asked given.now) }
    ensures names { IfOk result (λ command. IfOk command KeepsNames) }
{
    if given.is_on("check") {
        return Ok(Ok(Command::Check(adjustments(alloc, given)?)));
    }
    if given.is_given("rehearse") {
        return Ok(Ok(Command::Rehearse(connections(given))));
    }
    served(alloc, given)
}

#[tactic(auto, unfolding(crate::specs::Command::decided))]
fn decided(alloc: Global, given: &Given<'_>) -> Result<Result<Command, UsageFault>, AllocError>
    ensures command { IfOk result (λ command. command ≡ spec.decided given.now) }
    ensures names { IfOk result (λ command. IfOk command KeepsNames) }
{
    if given.is_on("help") {
        return Ok(Ok(Command::Help));
    }
    match first_fault(given) {
        Some(fault) => Ok(Err(fault)),
        None => asked(alloc, given),
    }
}

#[tactic(auto, unfolding(crate::specs::Command::command))]
fn command(alloc: Global, words: &[String]) -> Result<Result<Command, UsageFault>, AllocError>
    ensures command { IfOk result (λ command. command ≡ spec.command (words_of words.now)) }
    ensures names { IfOk result (λ command. IfOk command KeepsNames) }
{
    match find_given(alloc, words)? {
        Some(matches) => decided(alloc, &Given { matches }),
        None => Ok(Err(UsageFault::Words)),
    }
}

/// What the words behind the program's name ask for. Where memory is refused, `NoMemory` may
/// stand for any other answer.
pub fn read(alloc: Global, words: &[String]) -> Result<Command, UsageFault>
    ensures command { spec.IsOrLacksMemory (spec.command (words_of words.now)) result }
    ensures memory { spec.command (words_of words.now) ≢ Err UsageFault.NoMemory }
    ensures ranges { IfOk result KeepsRanges }
    ensures names { IfOk result KeepsNames }
{
    match command(alloc, words) {
        Ok(command) => command,
        Err(_) => Err(UsageFault::NoMemory),
    }
}
