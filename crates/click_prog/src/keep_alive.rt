//! Keepalive of TCP sessions.

use libc::net::{
    IPPROTO_TCP, SO_KEEPALIVE, SOL_SOCKET, TCP_KEEPCNT, TCP_KEEPIDLE, TCP_KEEPINTVL, setsockopt,
};
use std::net::TcpListener;
use std::os::fd::AsRawFd;

/// The time without a byte after which a peer is probed, in seconds.
const IDLE_SECONDS: i32 = 60;

/// The time between two probes, in seconds.
const INTERVAL_SECONDS: i32 = 15;

/// The number of probes without an answer after which a connection fails.
const PROBES: i32 = 4;

/// Has the system find out which peers of this listener's connections have gone away (RFC 9293,
/// section 3.8.4). Their connections then fail.
///
/// On Linux each connection has the options of the listener that accepts it. Returns whether the
/// system took all options.
pub fn keep_alive(listener: &TcpListener) -> bool {
    let fd = listener.as_raw_fd();
    // Each call names its option, so that the check can tell that setsockopt takes it. A call reads
    // the first 4 bytes of the value, and keeps no reference to it.
    let found = unsafe {
        [
            setsockopt(fd, SOL_SOCKET, SO_KEEPALIVE, &value_of(1), 4),
            setsockopt(fd, IPPROTO_TCP, TCP_KEEPIDLE, &value_of(IDLE_SECONDS), 4),
            setsockopt(
                fd,
                IPPROTO_TCP,
                TCP_KEEPINTVL,
                &value_of(INTERVAL_SECONDS),
                4,
            ),
            setsockopt(fd, IPPROTO_TCP, TCP_KEEPCNT, &value_of(PROBES), 4),
        ]
    };
    found == [0; 4]
}

/// Returns the value of an option that is a number.
fn value_of(number: i32) -> [u8; 16] {
    let mut value = [0; 16];
    value[..4].copy_from_slice(&number.to_ne_bytes());
    value
}
