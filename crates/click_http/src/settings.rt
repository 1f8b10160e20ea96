//! The number of connections, and the limits of each.

ghost use Rattle.std.specs.Prelude.{◌≡◌};
ghost use Rattle.std.specs.Duration.{as_nanos};
ghost use Rattle.click_http.specs.Leading.{page_config};
ghost use Rattle.click_http.specs.Accepting.{tick_nanos};

use http_server::Config;
use std::time::Duration;

/// The maximum number of connections at the same time. A further one is refused with status 503.
pub const MAX_CONNECTIONS: usize = 32;

/// The maximum number of bytes of a request's body.
pub(crate) const MAX_BODY_BYTES: u64 = 1_048_576;

/// Returns the maximum duration of a sleep, after which the server checks `stop` and the time
/// limits.
pub(crate) fn tick() -> Duration
    ensures { as_nanos result ≡ tick_nanos }
{
    Duration::from_millis(100)
}

/// Returns the limits of each connection: a head of at most 65,536 bytes and a body of at most
/// 1,048,576.
///
/// A connection answers one request at a time, and the next one only after the peer took that
/// response. So a peer that sends many requests at once does not occupy the service for longer than
/// others.
pub(crate) fn page_limits() -> Config
    ensures { result ≡ page_config }
{
    let mut config = Config::default();
    config.limits.max_head_len = 65_536;
    config.max_body_len = 1_048_576;
    config.max_pending = 0;
    config
}
