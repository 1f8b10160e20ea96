//! Device drivers in threads of their own, in parallel with a seat that polls their feeds.

ghost use Rattle.std.specs.Prelude.{◌≡◌, IfSome};
ghost use Rattle.std.specs.Thread.{IsSync};

use crate::cases::{Case, assert_case};
use crate::desks::{Opened, close, last_seat, open};
use crate::drivers::{Driver, settle_all};
use click_desk::{Desk, Seat};
use click_router::Handlers;
use std::alloc::Global;
use std::sync::Wait;
use std::test::Fail;
use std::thread::{self, Threads};

/// The sources of sixteen devices.
const SOURCES: &[u8] = b"
    FromDevice(a) -> Discard; FromDevice(b) -> Discard; FromDevice(c) -> Discard;
    FromDevice(d) -> Discard; FromDevice(e) -> Discard; FromDevice(f) -> Discard;
    FromDevice(g) -> Discard; FromDevice(h) -> Discard; FromDevice(i) -> Discard;
    FromDevice(j) -> Discard; FromDevice(k) -> Discard; FromDevice(l) -> Discard;
    FromDevice(m) -> Discard; FromDevice(n) -> Discard; FromDevice(o) -> Discard;
    FromDevice(p) -> Discard;";

/// The greatest number of packets that a driver puts.
const PACKETS: u16 = 1000;

/// The devices that have drivers, by their letters, the number of times that each device is polled,
/// and the number of times that each driver tries to put a packet.
pub(crate) struct Drive {
    letters: &'static [u8],
    polls: usize,
    tries: u64,
}

pub(crate) const ONE: Drive = Drive {
    letters: b"a",
    polls: 10_000,
    tries: 10_000_000,
};

pub(crate) const SIXTEEN: Drive = Drive {
    letters: b"abcdefghijklmnop",
    polls: 1000,
    tries: 100_000,
};

/// Puts the packets of each driver, in a thread of its own.
fn drive_all<R: Threads + Sync>(
    rt: &R,
    alloc: Global,
    drivers: Vec<Driver>,
    tries: u64,
) -> Option<Vec<Driver>>
    ensures { IfSome result (λ d. d.items ≡ drivers.items) }
{
    let driven = thread::map_vec(
        rt,
        drivers,
        &|driver: Driver| -> Driver
            ensures { result ≡ driver }
        { driver.drive(alloc, PACKETS, tries) },
    );
    match driven {
        Ok(drivers) => Some(drivers),
        Err(_) => None,
    }
}

/// Polls each device once.
fn poll_each<T: Handlers, R: Wait>(rt: &R, desk: &Desk<T, &R>, seat: &mut Seat<T>, letters: &[u8])
    requires { seat.old.desk ≡ desk.now }
    ensures { (seat.new.desk ≡ seat.old.desk) × (seat.new.feeds ≡ seat.old.feeds) }
{
    for letter in letters {
        let _reply = desk.poll(rt, seat, &[*letter], 32);
    }
}

/// Polls the devices again and again.
fn poll_all<T: Handlers, R: Wait>(
    rt: &R,
    desk: &Desk<T, &R>,
    mut seat: Seat<T>,
    drive: &Drive,
) -> Seat<T>
    requires { seat.desk ≡ desk.now }
    ensures { (result.desk ≡ seat.desk) × (result.feeds ≡ seat.feeds) }
{
    for _ in 0..drive.polls {
        poll_each(rt, desk, &mut seat, drive.letters);
    }
    seat
}

/// Drives all devices, while the seat polls them.
fn drive_and_poll<T: Handlers + Send + Drop, R: Threads + Wait + Sync>(
    rt: &R,
    alloc: Global,
    desk: &Desk<T, &R>,
    seat: Seat<T>,
    drivers: Vec<Driver>,
    drive: &Drive,
) -> (Option<Vec<Driver>>, Seat<T>)
    requires { seat.desk ≡ desk.now }
    ensures seat { (result.1.desk ≡ seat.desk) × (result.1.feeds ≡ seat.feeds) }
    ensures drivers { IfSome result.0 (λ d. d.items ≡ drivers.items) }
{
    thread::join(
        rt,
        move || -> Option<Vec<Driver>>
            requires { IsSync R.row }
            ensures { IfSome result (λ d. d.items ≡ drivers.items) }
        { drive_all(rt, alloc, drivers, drive.tries) },
        move || -> Seat<T>
            requires { IsSync R.row × (seat.desk ≡ desk.now) }
            ensures { (result.desk ≡ seat.desk) × (result.feeds ≡ seat.feeds) }
        { poll_all(rt, desk, seat, drive) },
    )
}

/// Opens a desk whose only seat polls the devices while their drivers put packets, and settles it.
pub(crate) fn driven<T: Handlers + Send + Drop, R: Threads + Wait + Sync>(
    rt: &R,
    alloc: Global,
    table: T,
    drive: &Drive,
) -> Option<bool> {
    let Opened {
        desk,
        seats,
        views: _,
        drivers,
    } = open(rt, alloc, table, SOURCES, 1, 0, drive.letters)?;
    let (seat, _none) = last_seat(&desk, &drivers, seats)?;
    let (driven, seat) = drive_and_poll(rt, alloc, &desk, seat, drivers, drive);
    let drivers = driven?;
    let mut book = close(rt, alloc, desk, &drivers, seat)?;
    let good = settle_all(alloc, &mut book, drivers)?;
    Some(good == drive.letters.len())
}

/// A device driver in a thread puts up to 1,000 packets while a seat polls, and each packet is
/// polled or left, exactly once and in order.
#[test]
fn one_driver_loses_nothing(rt: HostRuntime) -> Result<(), Fail> {
    assert_case(&rt, rt.alloc(), None, Case::OneFeed)
}

/// Sixteen device drivers in threads put up to 1,000 packets each while a seat polls, and each
/// packet is polled or left, exactly once and in order.
#[test]
fn sixteen_drivers_lose_nothing(rt: HostRuntime) -> Result<(), Fail> {
    assert_case(&rt, rt.alloc(), None, Case::SixteenFeeds)
}
