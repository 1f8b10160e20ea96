//! The device drivers of a desk's feeds.

ghost use Rattle.std.specs.Prelude.{◌≡◌, ◌<◌, ◌∷◌, IfOk, IfSome, length, slice_index_or, vec_len};
ghost use Rattle.click_rings.specs.Feeds.{FeedName};

use crate::calls::stored_packet;
use crate::script::{Trouble, cut, number_of};
use click_base::sequence::Sequence;
use click_lines::hex_text;
use click_rings::opening::feed as make_feed;
use click_rings::{Feed, FeedEnd, FeedFault, Inlet};
use std::alloc::{AllocError, AllocFailed, Global};
use std::marker::Model;

/// A device driver: a device, and the sending end of its feed.
#[derive(Drop)]
pub struct Driver {
    pub device: Sequence<u8>,
    pub feed: Feed,
}

impl Model for Driver {
    ghost use Rattle.click_rings.specs.Feeds.{FeedName};

    ghost Value = { FeedName };

    ghost view = { λ d. record { device = d.device; ring = d.feed.ring } };
}

/// A device and the end of its feed, which has finished.
#[derive(Drop)]
pub struct Finished {
    pub device: Sequence<u8>,
    pub end: FeedEnd,
}

impl Model for Finished {
    ghost use Rattle.click_rings.specs.Feeds.{FeedName};

    ghost Value = { FeedName };

    ghost view = { λ f. record { device = f.device; ring = f.end.ring } };
}

/// Why feeds cannot be made: the step cannot be played, or a feed is refused.
#[derive(Clone, Copy, Debug, PartialEq, Eq)]
pub enum NoFeeds {
    Trouble(Trouble),
    Feed(FeedFault),
}

impl From<AllocError> for NoFeeds {
    fn from(_error: AllocError) -> NoFeeds {
        NoFeeds::Trouble(Trouble::NoMemory)
    }
}

impl<T: Drop> From<AllocFailed<T>> for NoFeeds {
    fn from(_refused: AllocFailed<T>) -> NoFeeds {
        NoFeeds::Trouble(Trouble::NoMemory)
    }
}

/// Returns the drivers and the inlets of the feeds in a list of devices and places, as `a:4,b:8`.
pub fn feeds_of(alloc: Global, words: &[u8]) -> Result<(Vec<Driver>, Vec<Inlet>), NoFeeds>
    ensures { IfOk result (λ r. r.0.items ≡ r.1.items) }
{
    let mut drivers = Vec::new(alloc);
    let mut inlets = Vec::new(alloc);
    if words.is_empty() {
        return Ok((drivers, inlets));
    }
    for word in words.split(|byte| *byte == b',') {
        let (driver, inlet) = feed_of(alloc, word)?;
        drivers.push(driver)?;
        inlets.push(inlet)?;
    }
    Ok((drivers, inlets))
}

/// Returns the driver and the inlet of a feed, as `a:4`.
pub fn feed_of(alloc: Global, word: &[u8]) -> Result<(Driver, Inlet), NoFeeds>
    ensures { IfOk result (λ r. r.0 ≡ r.1) }
{
    let (name, places) = cut(word, b':');
    let places = match number_of(places) {
        Ok(places) => places,
        Err(trouble) => return Err(NoFeeds::Trouble(trouble)),
    };
    let device = Sequence::copy_of(alloc, name)?;
    match make_feed(alloc, name, places) {
        Ok((feed, inlet)) => Ok((Driver { device, feed }, inlet)),
        Err(fault) => Err(NoFeeds::Feed(fault)),
    }
}

/// Returns the index of the driver of the device.
pub fn driver_at(drivers: &Vec<Driver>, device: &[u8]) -> Result<usize, Trouble>
    ensures { IfOk result (λ place. place < length drivers.now.items) }
{
    for (place, driver) in drivers.iter().enumerate() {
        if driver.device.as_slice() == device {
            return Ok(place);
        }
    }
    Err(Trouble::Malformed)
}

/// Returns the index of the finished feed of the device.
pub fn finished_at(finished: &Vec<Finished>, device: &[u8]) -> Result<usize, Trouble>
    ensures place { IfOk result (λ place. place < length finished.now.items) }
    ensures named { IfOk result (λ place. (f : FeedName) → (slice_index_or finished.now.items place f).device ≡ device.now) }
{
    for (place, one) in finished.iter().enumerate() {
        if one.device.as_slice() == device {
            return Ok(place);
        }
    }
    Err(Trouble::Malformed)
}

impl Driver {
    /// Puts a packet of these hex digits, and returns whether the feed took it.
    ///
    /// If the feed is full, the packet that it returns has to be the same.
    pub fn put(&mut self, alloc: Global, digits: &[u8]) -> Result<bool, Trouble>
        ensures { self.new ≡ self.old }
    {
        let packet = stored_packet(alloc, digits)?;
        match self.feed.put(packet) {
            Ok(()) => Ok(true),
            Err(back) => {
                if hex_text(alloc, back.bytes())?.as_slice() == digits {
                    Ok(false)
                } else {
                    Err(Trouble::Malformed)
                }
            }
        }
    }
}

/// Returns whether these are the inlets of the drivers, in order.
pub fn are_inlets_of(drivers: &Vec<Driver>, inlets: &Vec<Inlet>) -> bool {
    let same = drivers.iter().zip(inlets.iter()).all(|(driver, inlet)| driver.device.as_slice()
        == inlet.device());
    same & (drivers.len() == inlets.len())
}

/// Finishes the feed of the first driver.
fn finish_first(drivers: &mut Vec<Driver>) -> Option<Finished>
    requires { 0 < vec_len drivers.old }
    ensures { IfSome result (λ first. first ∷ drivers.new.items ≡ drivers.old.items) }
{
    let Driver { device, feed } = drivers.remove(0);
    let end = feed.finish()?;
    Some(Finished { device, end })
}

/// Finishes the feeds of these drivers.
pub fn finish_all(alloc: Global, mut drivers: Vec<Driver>) -> Result<Vec<Finished>, Trouble>
    ensures { IfOk result (λ all. all.items ≡ drivers.items) }
{
    let mut all = Vec::new(alloc);
    while !drivers.is_empty() {
        let Some(first) = finish_first(&mut drivers) else {
            return Err(Trouble::NoMemory);
        };
        all.push(first)?;
    }
    Ok(all)
}
