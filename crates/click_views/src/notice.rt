//! Notices: tokens that prove what was published.

use crate::log::SeenLog;
use crate::mark::{Mark, again};
use crate::origin::Origin;
use std::marker::Model;

/// A token that proves which installs of a desk were published before it was made. It contains no
/// install, and making one allocates nothing.
#[derive(Drop)]
pub struct Notice<I> {
    pub(crate) seen: SeenLog<I>,
    /// The mark of the last of these installs, if installs are stored.
    pub(crate) mark: Option<Mark<I>>,
    pub(crate) of: Origin<I>,
}

impl<I> Model for Notice<I> {
    ghost use Rattle.std.specs.Prelude.{◌≡◌};
    ghost use Rattle.click_views.specs.Log.{installs};
    ghost use Rattle.click_views.specs.Placed.{IsPlaced};
    ghost use Rattle.click_views.specs.Showing.{Showing};

    ghost Value = { Showing I };

    ghost view = { λ n. record { board = n.of; list = installs n.seen.log } };

    ghost invariant = { λ n. IsPlaced n.of n.mark (record { book = n.seen.book; log = n.seen.log }) };
}

impl<I> Notice<I> {
    ghost use Rattle.std.specs.Prelude.{◌≡◌};

    /// Returns a copy. Never allocates.
    pub fn again(&self) -> Notice<I>
        ensures { result ≡ self.now }
    {
        Notice {
            seen: self.seen.again(),
            mark: again(&self.mark),
            of: self.of.again(),
        }
    }
}
