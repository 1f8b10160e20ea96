//! What a desk was opened with.

ghost use Rattle.std.specs.Prelude.{◌≡◌, IfOk};

use click_base::sequence::Sequence;
use click_router::Install;
use click_views::Origin;
use std::alloc::{AllocError, Global};

/// The options of a desk. They are the opening text, the maximum number of entries, the number of
/// seats, and the identity of the list of its published configurations.
#[derive(Drop)]
pub struct DeskOptions {
    pub opening: Sequence<u8>,
    /// The maximum number of entries of the history. `None`: it has no bound and is not stored.
    pub room: Option<usize>,
    pub seats: usize,
    pub origin: Origin<Install>,
}

impl DeskOptions {
    /// Returns the options with a copy of this text. Fails with out of memory.
    pub fn of(
        alloc: Global,
        text: &[u8],
        room: Option<usize>,
        seats: usize,
        origin: Origin<Install>,
    ) -> Result<DeskOptions, AllocError>
        ensures { IfOk result (λ t. t ≡ record { opening = text.now; room = room; seats = seats; origin = origin }) }
    {
        Ok(DeskOptions {
            opening: Sequence::copy_of(alloc, text)?,
            room,
            seats,
            origin,
        })
    }
}
