//! A table of handlers in a box.

ghost use Rattle.std.specs.Prelude.{◌≡◌};

use click_packet::PacketRoom;
use click_router::{Call, Handlers, RunningConfig, StepFault, StoredReply};
use std::alloc::Global;

/// A table of handlers in a box.
///
/// perf: each call moves the desk's table out of the queue and back, and a box is cheaper to move.
#[derive(Drop)]
pub struct BoxedTable<T> {
    pub table: Box<T>,
}

impl<T: Handlers> Handlers for BoxedTable<T> {
    fn step_stored(
        &self,
        running: &mut RunningConfig,
        alloc: Global,
        call: &Call,
        room: Option<PacketRoom>,
    ) -> Result<StoredReply, StepFault> {
        self.table.step_stored(running, alloc, call, room)
    }
}
