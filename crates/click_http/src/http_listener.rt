//! The listener of a page, on this machine only.

ghost use Rattle.std.specs.Prelude.{◌≡◌, IfOk};
ghost use Rattle.std.specs.Net.Socket.{v4_port};
ghost use Rattle.click_http.specs.Addresses.{IsLoopback};

use crate::sockets::Sockets;
use mio::net::TcpListener;
use std::alloc::Global;
use std::io;
use std::marker::Model;
use std::net::{Ipv4Addr, Net, SocketAddr, SocketAddrV4};
use std::random::RandomSource;

/// A listener on this machine only, with the slots of its connections.
///
/// After it is opened, only connections allocate memory.
#[derive(Drop)]
pub struct HttpListener {
    port: u16,
    pub(crate) sockets: Sockets,
}

impl Model for HttpListener {
    ghost use Rattle.click_http.specs.Leading.{HttpListenerState};

    ghost Value = { HttpListenerState };

    ghost view = { λ f. record { port = f.port } };
}

impl HttpListener {
    /// Returns the port that was asked for.
    pub fn port(&self) -> u16
        ensures { result ≡ self.now.port }
    {
        self.port
    }
}

/// Returns the address at which a page is served: only on this machine.
fn address_of(port: u16) -> SocketAddrV4
    ensures address { IsLoopback result }
    ensures port { v4_port result ≡ port }
{
    SocketAddrV4::new(Ipv4Addr::LOCALHOST, port)
}

/// Listens at an address that only this machine reaches.
fn listen<R: Net>(rt: &R, address: SocketAddrV4) -> io::Result<TcpListener>
    requires { IsLoopback address }
{
    TcpListener::bind(rt, SocketAddr::V4(address))
}

/// Listens on this port of 127.0.0.1 only. For port 0 the system chooses a port.
///
/// The address that it gives to the system is proved. No contract says that the system listens
/// there.
pub fn open_http_listener<R: Net + RandomSource>(
    rt: &R,
    alloc: Global,
    port: u16,
) -> io::Result<HttpListener>
    ensures { IfOk result (λ http_listener. http_listener.port ≡ port) }
{
    let address = address_of(port);
    let listener = listen(rt, address)?;
    Ok(HttpListener {
        port: address.port(),
        sockets: Sockets::open(rt, alloc, listener)?,
    })
}
