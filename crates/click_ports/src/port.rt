//! A port of an element.

use click_classes::Side;

/// A port: the index of its element in flat order, its side, and its number. All count from 0.
#[derive(Clone, Copy, Debug, PartialEq, Eq)]
pub struct Port {
    pub element: usize,
    pub side: Side,
    pub number: u16,
}
