//! Opening a feed.

ghost use Rattle.std.specs.Prelude.{◌≡◌, ◌<◌, ◌⊎◌, ◌↔◌, [], IfOk, Err};

use crate::ends::{Feed, Inlet};
use click_base::sequence::Sequence;
use rtrb::RingBuffer;
use std::alloc::{AllocError, Global};
use thiserror::Error;

/// The maximum number of places of a feed.
const MAX_PLACES: usize = 4096;

/// The reason for which a feed was not opened.
#[derive(Clone, Copy, Debug, PartialEq, Eq, Error)]
pub enum FeedFault {
    #[error("a feed has 1 to 4096 places")]
    PlaceCount,
    #[error("out of memory")]
    NoMemory,
}

/// Returns both ends of a new ring for packets of a device, or fails with out of memory.
///
/// This allocates everything that the feed needs.
fn ring(alloc: Global, device: &[u8], places: usize) -> Result<(Feed, Inlet), AllocError>
    ensures pair { IfOk result (λ r. (r.0.ring ≡ r.1.ring) × (r.1.device ≡ device.now)) }
    ensures empty { IfOk result (λ r. (r.0.put ≡ []) × (r.0.places ≡ places)) }
{
    let device = Sequence::copy_of(alloc, device)?;
    let (producer, consumer) = RingBuffer::new(alloc, places)?;
    Ok((Feed { producer }, Inlet { device, consumer }))
}

/// Opens a feed for a device with 1 to 4,096 places.
///
/// Returns the device driver's end, and the inlet that a desk is opened with. Fails with
/// `PlaceCount`, or with `NoMemory`.
pub fn feed(alloc: Global, device: &[u8], places: usize) -> Result<(Feed, Inlet), FeedFault>
    ensures pair { IfOk result (λ r. (r.0.ring ≡ r.1.ring) × (r.1.device ≡ device.now)) }
    ensures empty { IfOk result (λ r. (r.0.put ≡ []) × (r.0.places ≡ places)) }
    ensures places { (result ≡ Err FeedFault.PlaceCount) ↔ ((places ≡ 0) ⊎ (4096 < places)) }
{
    if places == 0 || places > MAX_PLACES {
        return Err(FeedFault::PlaceCount);
    }
    match ring(alloc, device, places) {
        Ok(ends) => Ok(ends),
        Err(_) => Err(FeedFault::NoMemory),
    }
}
