//! The links of a run, which are added one by one.

ghost use Rattle.std.specs.Prelude.{◌≡◌, ◌++◌, ◌∷◌, [], map, IfOk};
ghost use Rattle.std.specs.List.{All};
ghost use Rattle.click_links.specs.Ends.{IsNewFeed, link_places};
ghost use Rattle.click_links.specs.Turns.{names_of};

use crate::device::Device;
use crate::recorded_feed::RecordedFeed;
use crate::run::Receiver;
use click_base::sequence::Sequence;
use click_rings::opening::{FeedFault, feed};
use click_rings::{Feed, Inlet};
use std::alloc::{AllocError, Global};

/// The number of packets that may wait in the feed of a link.
const PLACES: usize = 1024;

/// The links of a run: a receiver and an inlet for each link, in one order. No receiver has run.
/// The feed of each has 1,024 places, and the inlet is that of the feed.
#[derive(Drop)]
pub struct Links<L> {
    pub receivers: Vec<Receiver<L>>,
    pub inlets: Vec<Inlet>,
    ghost fed: { inlets.items ≡ map (λ r. record { device = r.device; ring = r.intake.feed.ring }) receivers.items },
    ghost fresh: { All (λ r. IsNewFeed r.intake) receivers.items },
}

/// Creates a feed for the device, with its inlet. Fails with out of memory.
fn feed_of(alloc: Global, name: &[u8]) -> Result<(Feed, Inlet), AllocError>
    ensures pair { IfOk result (λ r. r.1 ≡ record { device = name.now; ring = r.0.ring }) }
    ensures empty { IfOk result (λ r. (r.0.put ≡ []) × (r.0.places ≡ link_places)) }
{
    match feed(alloc, name, PLACES) {
        Ok(ends) => Ok(ends),
        Err(FeedFault::NoMemory) => Err(AllocError),
        Err(FeedFault::PlaceCount) => unreachable!(),
    }
}

impl<L: Drop> Links<L> {
    /// Returns no links.
    pub fn none(alloc: Global) -> Links<L>
        ensures { result.receivers.items ≡ [] }
    {
        Links {
            receivers: Vec::new(alloc),
            inlets: Vec::new(alloc),
        }
    }

    /// Adds a link: datagrams that come at this end are packets of the device with this name. Its
    /// feed has 1,024 places. Fails with out of memory.
    pub fn with(self, alloc: Global, name: &[u8], link: L) -> Result<Links<L>, AllocError>
        ensures names { IfOk result (λ all. map (λ r. r.device) all.receivers.items ≡ map (λ r. r.device) self.receivers.items ++ name.now ∷ []) }
        ensures ends { IfOk result (λ all. map (λ r. r.link) all.receivers.items ≡ map (λ r. r.link) self.receivers.items ++ link ∷ []) }
    {
        let Links {
            mut receivers,
            mut inlets,
        } = self;
        let (feed, inlet) = feed_of(alloc, name)?;
        let receiver = Receiver::new(
            Sequence::copy_of(alloc, name)?,
            RecordedFeed::of(feed),
            link,
        );
        receivers.push(receiver)?;
        inlets.push(inlet)?;
        Ok(Links { receivers, inlets })
    }

    /// Returns the devices of the links, in the same order, with counts of zero. Fails with out of
    /// memory.
    pub fn devices(&self, alloc: Global) -> Result<Vec<Device>, AllocError>
        ensures { IfOk result (λ devices. names_of devices.items ≡ map (λ r. r.device) self.now.receivers.items) }
    {
        let mut devices = Vec::new(alloc);
        for receiver in &self.receivers {
            devices.push(Device::new(Sequence::copy_of(alloc, receiver.device.as_slice())?))?;
        }
        Ok(devices)
    }
}
