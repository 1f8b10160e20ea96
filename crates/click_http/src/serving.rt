//! The server loop.

ghost use Rattle.std.specs.Prelude.{◌≡◌, ◌≢◌, List, Some, IfSome, IsTrue, IsFalse};
ghost use Rattle.http_server.specs.Exchange.{Call, Chain};
ghost use Rattle.click_http.specs.Ends.{ended_by};
ghost use Rattle.click_http.specs.Leading.{Leads};
ghost use Rattle.click_http.specs.Phases.{IsInTime};

use crate::http_listener::HttpListener;
use crate::peer::Peer;
use http_server::Service;
use std::alloc::Global;
use std::io;
use std::io::ErrorKind;
use std::sync::Wait;
use std::sync::atomic::{AtomicBool, Ordering};
use std::time::{Clock, Instant};

/// The reason why a server ended.
#[derive(Clone, Copy, Debug, PartialEq, Eq)]
pub enum Ended {
    /// `stop` was set.
    Stopped,
    /// The system failed to wait for sockets or to read the clock.
    Failed(ErrorKind),
}

/// Gives the connection in a slot its turn. If it has ended, the slot is free then.
fn give_turn<S: Service>(place: &mut Option<Peer>, service: &mut S, now: Instant)
    ensures { Leads S.answers service.old service.new }
{
    let Some(peer) = place else {
        return;
    };
    if !peer.turn(service, now) {
        *place = None;
    }
}

/// Ends the turn of the connection in a slot, which began at `begun`. If it has exceeded its time,
/// the slot is free then.
fn end_turn(place: &mut Option<Peer>, begun: Instant, now: Instant)
    ensures { IfSome place.new (λ peer. IsInTime peer.timer now) }
{
    let Some(peer) = place else {
        return;
    };
    peer.note_turn(begun, now);
    if !peer.is_in_time(now) {
        *place = None;
    }
}

/// Gives each connection its turn. The time that the service takes in a turn counts for no limit of
/// its connection.
fn serve_places<S: Service, C: Clock>(
    clock: &C,
    places: &mut [Option<Peer>],
    service: &mut S,
) -> io::Result<()>
    ensures { Leads S.answers service.old service.new }
{
    for place in places.iter_mut() {
        let begun = Instant::now(clock)?;
        give_turn(place, service, begun);
        let ended = Instant::now(clock)?;
        end_turn(place, begun, ended);
    }
    Ok(())
}

/// Waits for sockets, gives each connection its turn, and then accepts new ones into free slots.
fn serve_round<S: Service, C: Clock>(
    clock: &C,
    alloc: Global,
    http_listener: &mut HttpListener,
    service: &mut S,
) -> io::Result<()>
    ensures { Leads S.answers service.old service.new }
{
    http_listener.sockets.wait()?;
    serve_places(clock, &mut http_listener.sockets.places, service)?;
    let now = Instant::now(clock)?;
    http_listener.sockets.accept_connections(alloc, now);
    Ok(())
}

/// Returns why serving ends after a round, if it does.
fn end_of(round: io::Result<()>) -> Option<Ended>
    ensures { result ≡ ended_by round }
{
    match round {
        Ok(()) => None,
        Err(fault) => Some(Ended::Failed(fault.kind())),
    }
}

/// Serves one round, unless `stopped`. Returns why serving ends, if it does.
fn serve_unless<S: Service, C: Clock>(
    stopped: bool,
    clock: &C,
    alloc: Global,
    http_listener: &mut HttpListener,
    service: &mut S,
) -> Option<Ended>
    ensures leads { Leads S.answers service.old service.new }
    ensures stopped { IsTrue stopped → (result ≡ Some Ended.Stopped) × (service.new ≡ service.old) }
    ensures failed { IsFalse stopped → result ≢ Some Ended.Stopped }
{
    if stopped {
        Some(Ended::Stopped)
    } else {
        end_of(serve_round(clock, alloc, http_listener, service))
    }
}

/// Serves until `stop` is set or the system fails.
///
/// It sees `stop` within 100 milliseconds if the service takes less time than this. At the end it
/// writes pending output once more, without blocking, and closes all connections.
///
/// The service is called only with requests that were read, each of which it answered, and nothing
/// else changes it. This holds whatever connections come, and in whatever order they are ready. Out
/// of memory ends a connection, but never the server.
pub fn serve_until<S: Service, R: Wait, C: Clock>(
    rt: &R,
    clock: &C,
    alloc: Global,
    http_listener: HttpListener,
    service: &mut S,
    stop: &AtomicBool,
) -> Ended
    ensures led { (calls : List Call) × Chain S.answers service.old calls service.new }
    ensures leads { Leads S.answers service.old service.new }
{
    let mut http_listener = http_listener;
    for _ in rt.forever() {
        let stopped = stop.load(Ordering::SeqCst);
        let ended = serve_unless(stopped, clock, alloc, &mut http_listener, service);
        if let Some(ended) = ended {
            close(http_listener);
            return ended;
        }
    }
    unreachable!()
}

/// Writes pending output of each connection once, and closes all.
fn close(http_listener: HttpListener) {
    let mut http_listener = http_listener;
    for place in http_listener.sockets.places.iter_mut() {
        if let Some(peer) = place.take() {
            peer.write_last();
        }
    }
}
