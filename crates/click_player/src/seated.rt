//! A desk with its seats, views and device drivers, all of which belong to it.

ghost use Rattle.std.specs.Prelude.{◌≡◌, ◌≤◌, ◌<◌, true, false, IfOk, IfSome, IfErr, length};
ghost use Rattle.std.specs.List.{All};
ghost use Rattle.click_rings.specs.Feeds.{have_distinct_devices};
ghost use Rattle.click_router.specs.Polls.{is_poll};
ghost use Rattle.click_player.specs.Belonging.{Belongs};

use crate::closed::Closed;
use crate::feeds::{Driver, driver_at, finish_all};
use crate::links::{LinkEnds, datagrams_of, receive_all};
use crate::script::{Step, Trouble};
use crate::sessions::{Said, serve};
use click_desk::{CloseRefused, Desk, DeskFault, Notice, Seat, View};
use click_links::{ReceiverReport, SweepResult, Turn, forward, sweep};
use click_router::{Call, Check, Handlers, Reply};
use std::alloc::{AllocError, Global};
use std::marker::Model;
use std::sync::Wait;

/// An open desk with its seats, its views, the drivers that were not dropped, a notice, and links.
#[derive(Drop)]
pub struct Seated<'a, T: Drop, R: Wait> {
    desk: Desk<T, &'a R>,
    seats: Vec<Seat<T>>,
    views: Vec<View>,
    drivers: Vec<Driver>,
    notice: Option<Notice>,
    links: Option<LinkEnds>,
}

impl<'a, T: Drop, R: Wait> Model for Seated<'a, T, R> {
    ghost use Rattle.std.specs.Prelude.{◌≡◌, IfSome};
    ghost use Rattle.std.specs.List.{All};
    ghost use Rattle.click_desk.specs.SeatStates.{DeskName};
    ghost use Rattle.click_player.specs.Belonging.{Belongs};

    ghost Value = { DeskName };

    ghost view = { λ s. s.desk };

    ghost invariant = { λ s. All (Belongs s.desk s.drivers.items) s.seats.items × All (λ v. v.board ≡ s.desk.options.origin) s.views.items × IfSome s.notice (λ n. n.board ≡ s.desk.options.origin) };
}

/// The outcome of a close.
#[derive(Drop)]
pub enum Close<'a, T: Drop, R: Wait> {
    Done(Closed<T>),
    SeatsMissing(Seated<'a, T, R>),
}

/// Returns the index of the seat of this number.
fn place_of<T: Drop>(seats: &Vec<Seat<T>>, number: usize) -> Result<usize, Trouble>
    ensures { IfOk result (λ place. place < length seats.now.items) }
{
    for (place, seat) in seats.iter().enumerate() {
        if seat.number() == number {
            return Ok(place);
        }
    }
    Err(Trouble::Malformed)
}

impl<'a, T: Drop, R: Wait> Seated<'a, T, R> {
    /// Joins a desk with its seats, its views and the drivers of its feeds.
    pub fn new(
        desk: Desk<T, &'a R>,
        seats: Vec<Seat<T>>,
        views: Vec<View>,
        drivers: Vec<Driver>,
    ) -> Self
        requires seats { All (λ s. s.desk ≡ desk) seats.items }
        requires fed { All (λ s. s.feeds ≡ drivers.items) seats.items }
        requires apart { have_distinct_devices drivers.items ≡ true }
        requires views { All (λ v. v.board ≡ desk.options.origin) views.items }
    {
        Seated {
            desk,
            seats,
            views,
            drivers,
            notice: None,
            links: None,
        }
    }

    /// Returns the number of calls that the seat of this number stores.
    pub fn kept_calls(&self, number: usize) -> Result<usize, Trouble> {
        let place = place_of(&self.seats, number)?;
        Ok(self.seats[place].calls().len())
    }

    /// Returns the number of views.
    pub fn view_count(&self) -> usize {
        self.views.len()
    }

    /// Puts a packet of these hex digits into the feed of a device, and returns whether it was
    /// taken.
    pub fn put(&mut self, alloc: Global, device: &[u8], digits: &[u8]) -> Result<bool, Trouble> {
        let place = driver_at(&self.drivers, device)?;
        self.drivers[place].put(alloc, digits)
    }

    /// Drops the driver's end of the feed of a device.
    pub fn drop_feed(&mut self, device: &[u8]) -> Result<(), Trouble> {
        let place = driver_at(&self.drivers, device)?;
        let _dropped = self.drivers.remove(place);
        Ok(())
    }

    /// Stores the notice of the seat of this number.
    pub fn keep_notice(&mut self, number: usize) -> Result<(), Trouble> {
        let place = place_of(&self.seats, number)?;
        self.notice = Some(self.seats[place].notice().again());
        Ok(())
    }

    /// Makes a view learn the notice of the seat of this number.
    pub fn learn(&mut self, view: usize, number: usize) -> Result<(), Trouble> {
        let place = place_of(&self.seats, number)?;
        if view >= self.views.len() {
            return Err(Trouble::Malformed);
        }
        self.views[view].learn(self.seats[place].notice());
        Ok(())
    }

    /// Makes a view learn the stored notice.
    pub fn learn_kept(&mut self, view: usize) -> Result<(), Trouble> {
        if view >= self.views.len() {
            return Err(Trouble::Malformed);
        }
        match &self.notice {
            Some(notice) => {
                self.views[view].learn(notice);
                Ok(())
            }
            None => Err(Trouble::Malformed),
        }
    }

    /// Returns a view's check of reading a handler or, if `writes`, of writing it.
    pub fn check(&mut self, view: usize, writes: bool, name: &[u8]) -> Result<Check, Trouble> {
        if view >= self.views.len() {
            return Err(Trouble::Malformed);
        }
        if writes {
            Ok(self.views[view].check_write(name))
        } else {
            Ok(self.views[view].check_read(name))
        }
    }

    /// Returns the names that a view shows, or None if out of memory.
    pub fn names(&mut self, alloc: Global, view: usize) -> Result<Option<Vec<Vec<u8>>>, Trouble> {
        if view >= self.views.len() {
            return Err(Trouble::Malformed);
        }
        Ok(self.views[view].names(alloc).ok())
    }

    /// Replaces the links.
    pub fn set_links(&mut self, links: LinkEnds) {
        self.links = Some(links);
    }

    /// Borrows the links.
    pub fn links(&self) -> Result<&LinkEnds, Trouble> {
        match &self.links {
            Some(links) => Ok(links),
            None => Err(Trouble::Malformed),
        }
    }

    /// Receives datagrams, as `datagrams_of` reads them, into the feed of a device that has a link.
    pub fn receive(
        &mut self,
        alloc: Global,
        device: &[u8],
        datagrams: &[u8],
    ) -> Result<ReceiverReport, Trouble> {
        let link = datagrams_of(alloc, datagrams)?;
        let Some(links) = &self.links else {
            return Err(Trouble::Malformed);
        };
        let at = links.device_at(device)?;
        let place = driver_at(&self.drivers, device)?;
        let driver = self.drivers.remove(place);
        let (driver, received) = receive_all(alloc, driver, link, &links.devices[at]);
        self.drivers.push(driver)?;
        Ok(received)
    }
}

impl<'a, T: Handlers + Drop, R: Wait> Seated<'a, T, R> {
    /// Makes a call by the seat of this number.
    pub fn call<S: Wait>(
        &mut self,
        rt: &S,
        number: usize,
        call: Call,
    ) -> Result<Result<Reply, DeskFault>, Trouble>
        requires { is_poll call ≡ false }
    {
        let place = place_of(&self.seats, number)?;
        Ok(self.desk.call(rt, &mut self.seats[place], call))
    }

    /// Polls up to `most` packets by the seat of this number.
    pub fn poll<S: Wait>(
        &mut self,
        rt: &S,
        number: usize,
        device: &[u8],
        most: usize,
    ) -> Result<Result<Reply, DeskFault>, Trouble> {
        if most == 0 || most > 32 {
            return Err(Trouble::Malformed);
        }
        let place = place_of(&self.seats, number)?;
        Ok(self.desk.poll(rt, &mut self.seats[place], device, most))
    }

    /// Makes a Round by the seat of this number, as a driver does.
    pub fn round<S: Wait>(
        &mut self,
        rt: &S,
        number: usize,
    ) -> Result<Result<u64, DeskFault>, Trouble> {
        let place = place_of(&self.seats, number)?;
        Ok(self.desk.round(rt, &mut self.seats[place]))
    }

    /// Serves a session at the seat of this number.
    pub fn session(
        &mut self,
        rt: &'a R,
        alloc: Global,
        number: usize,
        step: &Step<'_>,
        pieces: usize,
    ) -> Result<Said, Trouble> {
        let place = place_of(&self.seats, number)?;
        let seat = self.seats.remove(place);
        let (said, seat) = serve(rt, alloc, &self.desk, seat, step, pieces);
        self.seats.push(seat)?;
        said
    }

    /// Makes a device turn by the seat of this number.
    pub fn forward(
        &mut self,
        rt: &'a R,
        alloc: Global,
        number: usize,
        device: &[u8],
    ) -> Result<Result<Turn, DeskFault>, Trouble> {
        let place = place_of(&self.seats, number)?;
        let Some(links) = &mut self.links else {
            return Err(Trouble::Malformed);
        };
        let at = links.device_at(device)?;
        Ok(forward(
            rt,
            alloc,
            &self.desk,
            &mut self.seats[place],
            &links.devices[at],
            &mut links.sender,
        ))
    }

    /// Makes a sweep of all links by the seat of this number.
    pub fn sweep(
        &mut self,
        rt: &'a R,
        alloc: Global,
        number: usize,
    ) -> Result<Result<SweepResult, DeskFault>, Trouble> {
        let place = place_of(&self.seats, number)?;
        let Some(links) = &mut self.links else {
            return Err(Trouble::Malformed);
        };
        Ok(sweep(
            rt,
            alloc,
            &self.desk,
            &mut self.seats[place],
            links.devices.as_slice(),
            &mut links.sender,
        ))
    }
}

/// Moves the seats of these numbers out of the others.
fn part<T: Drop, B: Wait + Drop>(
    alloc: Global,
    desk: &Desk<T, B>,
    drivers: &Vec<Driver>,
    mut seats: Vec<Seat<T>>,
    numbers: &[usize],
) -> Result<(Vec<Seat<T>>, Vec<Seat<T>>), AllocError>
    requires { All (Belongs desk.now drivers.now.items) seats.items }
    ensures { IfOk result (λ r. All (Belongs desk.now drivers.now.items) r.0.items × All (Belongs desk.now drivers.now.items) r.1.items) }
{
    let mut given = Vec::new(alloc);
    let mut kept = Vec::new(alloc);
    while let Some(seat) = seats.pop() {
        if numbers.contains(&seat.number()) {
            given.push(seat)?;
        } else {
            kept.push(seat)?;
        }
    }
    Ok((given, kept))
}

/// Moves all seats to the others.
fn join<T: Drop, B: Wait + Drop>(
    desk: &Desk<T, B>,
    drivers: &Vec<Driver>,
    mut seats: Vec<Seat<T>>,
    mut others: Vec<Seat<T>>,
) -> Result<Vec<Seat<T>>, AllocError>
    requires { All (Belongs desk.now drivers.now.items) seats.items × All (Belongs desk.now drivers.now.items) others.items }
    ensures { IfOk result (λ r. All (Belongs desk.now drivers.now.items) r.items) }
{
    while let Some(seat) = others.pop() {
        seats.push(seat)?;
    }
    Ok(seats)
}

impl<'a, T: Drop, R: Wait> Seated<'a, T, R> {
    /// Closes the desk with the seats of these numbers, at least one, and then finishes its feeds.
    pub fn close<S: Wait>(
        self,
        rt: &S,
        alloc: Global,
        numbers: &[usize],
    ) -> Result<Close<'a, T, R>, Trouble> {
        let Seated {
            desk,
            seats,
            views,
            drivers,
            notice,
            links,
        } = self;
        let (given, kept) = part(alloc, &desk, &drivers, seats, numbers)?;
        if given.is_empty() {
            return Err(Trouble::Malformed);
        }
        match desk.close(rt, given) {
            Ok(book) => {
                let finished = finish_all(alloc, drivers)?;
                Ok(Close::Done(Closed::new(book, views, finished)))
            }
            Err(refused) => {
                let CloseRefused {
                    desk,
                    seats: back,
                    fault: _,
                } = refused;
                let seats = join(&desk, &drivers, back, kept)?;
                Ok(Close::SeatsMissing(Seated {
                    desk,
                    seats,
                    views,
                    drivers,
                    notice,
                    links,
                }))
            }
        }
    }
}
