//! The table of options.
ghost use Rattle.std.specs.Prelude.{◌≡◌, map};
ghost use Rattle.adjust.specs.Options.{option_rows, row_of};

use Form::{Addresses, FieldText, Flag, Host, Kinds, Name, Number, Path, Proxy, Scheme};

/// What the value of an option has to be.
#[derive(Clone, Copy, Debug, PartialEq, Eq)]
pub(crate) enum Form {
    Host,
    /// A whole number from `low` to `high`.
    Number { low: u64, high: u64 },
    Addresses,
    Proxy,
    Kinds,
    Scheme,
    Path,
    Name,
    FieldText,
    /// The option has no value.
    Flag,
}

/// The field of the adjustments that an option shows as.
#[derive(Clone, Copy, Debug, PartialEq, Eq)]
pub(crate) enum Field {
    NotShown,
    Host,
    Port,
    Listen,
    Threads,
    TrustedProxy,
    TrustedProxyCount,
    TrustedProxyHeaders,
    ClearUntrustedProxyHeaders,
    UrlScheme,
    UrlPrefix,
    ServerName,
    Ident,
    Backlog,
    RecvBytes,
    InbufOverflow,
    OutbufOverflow,
    OutbufHighWatermark,
    ConnectionLimit,
    CleanupInterval,
    ChannelTimeout,
    MaxRequestHeaderSize,
    MaxRequestBodySize,
    ChannelRequestLookahead,
    ServeLimit,
}

/// An option. Its default is written as a value would be, and is empty where there is none.
#[derive(Clone, Copy, Debug)]
pub(crate) struct OptionRow {
    pub name: &'static str,
    pub form: Form,
    pub field: Field,
    pub default: &'static str,
}

macro_rules! option_rows {
    ($($name:literal: $form:expr, $field:expr, $default:literal;)*) => {
        [$(OptionRow { name: $name, form: $form, field: $field, default: $default }),*]
    };
}

static ROWS: [OptionRow; 28] = option_rows! {
    "host": Host, Field::Host, "0.0.0.0";
    "port": Number { low: 1, high: 65535 }, Field::Port, "8080";
    "listen": Addresses, Field::Listen, "";
    "threads": Number { low: 0, high: 64 }, Field::Threads, "4";
    "trusted-proxy": Proxy, Field::TrustedProxy, "";
    "trusted-proxy-count": Number { low: 1, high: 100 }, Field::TrustedProxyCount, "1";
    "trusted-proxy-headers": Kinds, Field::TrustedProxyHeaders, "";
    "clear-untrusted-proxy-headers": Flag, Field::ClearUntrustedProxyHeaders, "";
    "no-clear-untrusted-proxy-headers": Flag, Field::NotShown, "";
    "url-scheme": Scheme, Field::UrlScheme, "http";
    "url-prefix": Path, Field::UrlPrefix, "";
    "server-name": Name, Field::ServerName, "waitress.invalid";
    "ident": FieldText, Field::Ident, "waitress";
    "backlog": Number { low: 1, high: 65535 }, Field::Backlog, "1024";
    "recv-bytes": Number { low: 1, high: 1048576 }, Field::RecvBytes, "8192";
    "inbuf-overflow": Number { low: 1, high: 1073741824 }, Field::InbufOverflow, "524288";
    "outbuf-overflow": Number { low: 1, high: 1073741824 }, Field::OutbufOverflow, "1048576";
    "outbuf-high-watermark": Number { low: 0, high: 1073741824 }, Field::OutbufHighWatermark, "16777216";
    "connection-limit": Number { low: 1, high: 1000 }, Field::ConnectionLimit, "100";
    "cleanup-interval": Number { low: 1, high: 86400 }, Field::CleanupInterval, "30";
    "channel-timeout": Number { low: 1, high: 86400 }, Field::ChannelTimeout, "120";
    "max-request-header-size": Number { low: 16, high: 16777216 }, Field::MaxRequestHeaderSize, "262144";
    "max-request-body-size": Number { low: 1, high: 1099511627776 }, Field::MaxRequestBodySize, "1073741824";
    "channel-request-lookahead": Number { low: 0, high: 1000 }, Field::ChannelRequestLookahead, "0";
    "serve-limit": Number { low: 1, high: 1000000000 }, Field::ServeLimit, "";
    "rehearse": Number { low: 1, high: 20000 }, Field::NotShown, "";
    "check": Flag, Field::NotShown, "";
    "help": Flag, Field::NotShown, "";
};

/// The options, in the order in which they are checked and printed.
#[tactic(auto, unfolding(crate::specs::Options::option_rows))]
pub(crate) fn rows() -> &'static [OptionRow]
    ensures { map row_of result.now ≡ option_rows }
{
    &ROWS
}
