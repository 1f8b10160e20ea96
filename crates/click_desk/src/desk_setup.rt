//! What a desk was opened with, as ghost state of its passes.

use click_base::sequence::Sequence;
use click_rings::Inlet;
use click_router::Install;
use click_views::Origin;
use std::collections::LinkedList;

/// What a desk was opened with, and the names of its feeds. It is ghost state: no value of it
/// exists at run time.
pub struct DeskSetup {
    pub opening: Sequence<u8>,
    pub room: Option<usize>,
    pub seats: usize,
    pub origin: Origin<Install>,
    pub feeds: LinkedList<Inlet>,
}
