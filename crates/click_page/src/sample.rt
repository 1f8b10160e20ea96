//! The samples of metrics.

use click_base::Class;
use click_base::sequence::Sequence;

/// A read handler of an element, whose value is a metric.
#[derive(Drop)]
pub struct Sample {
    pub element: Sequence<u8>,
    pub class: Class,
    pub handler: Sequence<u8>,
}
