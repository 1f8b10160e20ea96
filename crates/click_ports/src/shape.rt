//! The part of an element's state that the rules of ports depend on.

use click_base::Class;
use click_classes::Counts;

/// The class of an element, and the numbers of ports that its state allows.
///
/// A later state with the same shape fits the same net.
#[derive(Clone, Copy, Debug, PartialEq, Eq)]
pub struct Shape {
    pub class: Class,
    pub counts: Counts,
}
