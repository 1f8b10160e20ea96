//! What a request for metrics reads.

use crate::sample::Sample;
use click_base::sequence::Sequence;

/// The number of elements of a configuration, and the samples of all of them.
#[derive(Drop)]
pub struct Survey {
    pub elements: usize,
    pub samples: Sequence<Sample>,
}
