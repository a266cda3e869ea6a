//! What a server serves by.
ghost use Rattle.std.specs.Prelude.{◌≡◌, IfOk};
ghost use Rattle.adjust.specs.Ranges.{IsInRange};
ghost use Rattle.poll_loop.specs.Settings.{AreUsable};
ghost use Rattle.waitress_serve.specs.Settings.{settings_for};
ghost use Rattle.waitress_serve.specs.Status.{addresses_of, addresses_or};

use adjust::Adjustments;
use channel::Window;
use outside::{Items, Listen};
use poll_loop::Settings;
use proxy_trust::ProxyRules;
use request_stream::Limits;
use std::alloc::{AllocError, Global};
use wsgi::Site;

// The addresses that are listed, or this one where none is.
fn addresses(alloc: Global, one: Listen, listed: Items<Listen>) -> Result<Items<Listen>, AllocError>
    ensures { IfOk result (λ listen. listen ≡ addresses_or one listed) }
{
    if !listed.is_empty() {
        return Ok(listed);
    }
    let mut listen = Vec::new(alloc);
    listen.push(one)?;
    Ok(Items::from_vec(listen))
}

fn limits_for(options: &Adjustments) -> Limits
    ensures { result ≡ (settings_for options.now).limits }
{
    Limits {
        max_head: options.max_request_header_size,
        max_body: options.max_request_body_size,
        inbuf_overflow: options.inbuf_overflow,
    }
}

fn window_for(options: &Adjustments) -> Window
    ensures { result ≡ (settings_for options.now).window }
{
    Window {
        recv_bytes: options.recv_bytes,
        outbuf_overflow: options.outbuf_overflow,
        high_watermark: options.outbuf_high_watermark,
        lookahead: options.channel_request_lookahead,
        timeout: options.channel_timeout,
    }
}

/// Where a server with these options listens, and what it goes by.
pub(crate) fn prepare(
    alloc: Global,
    options: Adjustments,
) -> Result<(Items<Listen>, Settings), AllocError>
    requires in_range { IsInRange options }
    ensures addresses { IfOk result (λ r. r.0 ≡ addresses_of options) }
    ensures settings { IfOk result (λ r. r.1 ≡ settings_for options) }
    ensures usable { IfOk result (λ r. AreUsable r.1) }
{
    let limits = limits_for(&options);
    let window = window_for(&options);
    let one = Listen {
        host: options.host,
        port: options.port as u16,
    };
    let listen = addresses(alloc, one, options.listen)?;
    let settings = Settings {
        limits,
        window,
        site: Site {
            server_name: options.server_name,
            ident: options.ident,
            url_scheme: options.url_scheme,
            url_prefix: options.url_prefix,
            rules: ProxyRules {
                proxy: options.trusted_proxy,
                count: options.trusted_proxy_count as u32,
                kinds: options.trusted_proxy_headers,
                clear: options.clear_untrusted_proxy_headers,
            },
        },
        connection_limit: options.connection_limit,
        cleanup_interval: options.cleanup_interval,
        serve_limit: options.serve_limit,
    };
    Ok((listen, settings))
}
