//! The sockets of a listener and of its connections.

ghost use Rattle.std.specs.Prelude.{◌≡◌, ◌≤◌, ◌↔◌, length, vec_len, fold, MatchOption, OnOk, OnErr, IsTrue, Any};
ghost use Rattle.std.specs.Duration.{as_nanos};
ghost use Rattle.mio.specs.Events.{items};
ghost use Rattle.click_http.specs.Accepting.{IsAsked, tick_nanos};
ghost use Rattle.click_http.specs.Readiness.{IsPlaceReady, HasWork, woken_place, noted_state, noted_places};
ghost use Rattle.click_http.specs.Waiting.{IsClosed, IsFree, IsFreed, IsLongest, NoneIsFree, NoneWaits, waited_in};

use crate::accept_state::AcceptState;
use crate::peer::{Peer, refuse};
use crate::settings::{MAX_CONNECTIONS, tick};
use mio::event::Event;
use mio::net::{TcpListener, TcpStream};
use mio::{Events, Interest, Poll, Token};
use std::alloc::{AllocError, Global};
use std::hash::RandomState;
use std::io;
use std::net::Net;
use std::random::RandomSource;
use std::time::{Duration, Instant};

/// The token of the listener. The token of a connection is the index of its slot.
const LISTENER_TOKEN: usize = MAX_CONNECTIONS;

/// The maximum number of events that the system reports at once. It is more than there are sockets.
const EVENTS: usize = 64;

/// The maximum number of connections that are accepted in one round.
const MAX_ACCEPTS: u32 = 64;

/// A listening socket, with the slots of its connections.
///
/// After it is opened, only connections allocate memory.
#[derive(Drop)]
pub(crate) struct Sockets {
    listener: TcpListener,
    accept_state: AcceptState,
    poll: Poll,
    events: Events<Global>,
    keys: RandomState,
    pub(crate) places: Vec<Option<Peer>>,
}

/// Returns the index of the first free slot, or `None` if none is free.
fn free_place(places: &[Option<Peer>]) -> Option<usize>
    ensures { MatchOption result (NoneIsFree places.now) (λ place. IsFree places.now place) }
{
    for place in 0..places.len() {
        if places[place].is_none() {
            return Some(place);
        }
    }
    None
}

/// Returns how long the connection in a slot has only waited for a request, in nanoseconds.
fn waited_in(place: &Option<Peer>, now: Instant) -> u128
    ensures { result ≡ waited_in place.now now }
{
    match place {
        Some(peer) => peer.waited(now),
        None => 0,
    }
}

/// Returns the index of the slot whose connection has waited longest for a request, or `None` if no
/// connection waits.
fn longest_waiting(places: &[Option<Peer>], now: Instant) -> Option<usize>
    ensures { MatchOption result (NoneWaits places.now now) (λ place. IsLongest places.now now place) }
{
    let mut longest = 0;
    let mut found = None;
    for at in 0..places.len() {
        let waited = waited_in(&places[at], now);
        if longest < waited {
            longest = waited;
            found = Some(at);
        }
    }
    found
}

/// Closes the connection that has waited longest for a request, if any waits. Returns the index of
/// its slot.
fn close_longest(places: &mut [Option<Peer>], now: Instant) -> Option<usize>
    ensures freed { MatchOption result ((places.new ≡ places.old) × NoneWaits places.old now) (IsClosed places.old places.new now) }
    ensures count { length places.new ≡ length places.old }
{
    match longest_waiting(places, now) {
        Some(place) => {
            places[place] = None;
            Some(place)
        }
        None => None,
    }
}

/// Returns the index of a free slot. If there is none, closes the connection that has waited
/// longest for a request, if any waits.
fn freed_place(places: &mut [Option<Peer>], now: Instant) -> Option<usize>
    ensures freed { MatchOption result ((places.new ≡ places.old) × NoneWaits places.old now × NoneIsFree places.old) (IsFreed places.old places.new now) }
    ensures count { length places.new ≡ length places.old }
{
    match free_place(places) {
        Some(place) => Some(place),
        None => close_longest(places, now),
    }
}

fn empty_places(alloc: Global) -> Result<Vec<Option<Peer>>, AllocError> {
    let mut places = Vec::new(alloc);
    for _ in 0..MAX_CONNECTIONS {
        places.push(None)?;
    }
    Ok(places)
}

/// Returns whether a slot has a connection that can do something without waiting.
fn is_place_ready(place: &Option<Peer>) -> bool
    ensures { IsTrue result ↔ IsPlaceReady place.now }
{
    match place {
        Some(peer) => peer.is_ready(),
        None => false,
    }
}

/// Returns whether any connection can do something without waiting.
fn is_any_ready(places: &[Option<Peer>]) -> bool
    ensures { IsTrue result ↔ Any IsPlaceReady places.now }
{
    places.iter().any(|place| is_place_ready(place))
}

/// Returns how long to wait for the system: not at all while there is something to do.
fn pause(accept_state: AcceptState, places: &[Option<Peer>]) -> Duration
    ensures busy { HasWork accept_state places.now → as_nanos result ≡ 0 }
    ensures calm { ¬ (HasWork accept_state places.now) → as_nanos result ≡ tick_nanos }
{
    if accept_state.is_open() || is_any_ready(places) {
        Duration::ZERO
    } else {
        tick()
    }
}

/// Records in a slot what the system reported of its connection.
fn wake_place(place: &mut Option<Peer>, event: &Event)
    ensures { place.new ≡ woken_place place.old event.now }
{
    if let Some(peer) = place {
        let broken = event.is_error() || event.is_read_closed() || event.is_write_closed();
        peer.wake(event.is_readable() || broken, event.is_writable() || broken);
    }
}

/// Records what the system reported of the listener or of a connection.
fn note_event(accept_state: &mut AcceptState, places: &mut [Option<Peer>], event: &Event)
    ensures state { accept_state.new ≡ noted_state accept_state.old event.now }
    ensures places { length places.old ≤ MAX_CONNECTIONS → places.new ≡ noted_places places.old event.now }
{
    let Token(token) = event.token();
    if token == LISTENER_TOKEN {
        *accept_state = AcceptState::Open;
    } else if token < places.len() {
        wake_place(&mut places[token], event);
    }
}

/// Records all that the system reported.
fn note_events(accept_state: &mut AcceptState, places: &mut [Option<Peer>], events: &Events<Global>)
    ensures state { accept_state.new ≡ fold noted_state accept_state.old (items events.now) }
    ensures places { length places.old ≤ MAX_CONNECTIONS → places.new ≡ fold noted_places places.old (items events.now) }
{
    for event in events.iter() {
        note_event(accept_state, places, event);
    }
}

impl Sockets {
    /// Prepares a listening socket for its connections.
    pub(crate) fn open<R: Net + RandomSource>(
        rt: &R,
        alloc: Global,
        listener: TcpListener,
    ) -> io::Result<Sockets> {
        let mut listener = listener;
        let poll = Poll::new(rt)?;
        poll.registry()
            .register(&mut listener, Token(LISTENER_TOKEN), Interest::READABLE)?;
        Ok(Sockets {
            listener,
            accept_state: AcceptState::Quiet,
            poll,
            events: Events::with_capacity(alloc, EVENTS)?,
            keys: RandomState::new(rt)?,
            places: empty_places(alloc)?,
        })
    }

    /// Blocks until the system reports a socket or one tick is over, and records what it reports.
    pub(crate) fn wait(&mut self) -> io::Result<()>
        ensures reported { OnOk result (self.new.accept_state ≡ fold noted_state self.old.accept_state (items self.new.events)) }
        ensures woken { OnOk result (vec_len self.old.places ≤ MAX_CONNECTIONS → self.new.places.items ≡ fold noted_places self.old.places.items (items self.new.events)) }
        ensures failed { OnErr result ((self.new.accept_state ≡ self.old.accept_state) × (self.new.places ≡ self.old.places)) }
    {
        let pause = pause(self.accept_state, &self.places);
        self.poll.poll(&mut self.events, Some(pause))?;
        note_events(&mut self.accept_state, &mut self.places, &self.events);
        Ok(())
    }

    /// Gives a connection a free slot, or refuses it. If no slot is free, the connection that has
    /// waited longest for a request is closed first.
    fn admit(&mut self, alloc: Global, stream: TcpStream, now: Instant)
        ensures { self.new.accept_state ≡ self.old.accept_state }
    {
        let mut stream = stream;
        let Some(place) = freed_place(&mut self.places, now) else {
            return refuse(stream);
        };
        // Without it, the second part of a response would be held back until the peer acknowledges
        // the first.
        let _ = stream.set_nodelay(true);
        let both = Interest::READABLE | Interest::WRITABLE;
        let registered = self
            .poll
            .registry()
            .register(&mut stream, Token(place), both);
        if registered.is_ok() {
            self.places[place] = Some(Peer::new(alloc, self.keys, stream, now));
        }
    }

    /// Accepts the connections that wait, up to the maximum of one round.
    pub(crate) fn accept_connections(&mut self, alloc: Global, now: Instant)
        ensures { IsAsked self.old.accept_state self.new.accept_state now }
    {
        self.accept_state = self.accept_state.at(now);
        for _ in 0..MAX_ACCEPTS {
            if !self.accept_state.is_open() {
                return;
            }
            match self.listener.accept() {
                Ok((stream, _)) => self.admit(alloc, stream, now),
                Err(fault) => self.accept_state = AcceptState::after(&fault, now),
            }
        }
    }
}
