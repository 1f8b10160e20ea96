//! The settings and the state that the threads of a run share.

ghost use Rattle.std.specs.Prelude.{◌≡◌};

use crate::clients::Clients;
use crate::open_slots::OpenSlots;
use std::alloc::Global;

/// What each session slot and each driver of a run needs besides its door and its gate.
#[derive(Drop)]
pub(crate) struct Service {
    pub(crate) alloc: Global,
    pub(crate) readonly: bool,
    /// The number of session slots.
    pub(crate) sessions: usize,
    /// The number of sessions that each slot serves, one after another.
    pub(crate) turns: u64,
    /// The number of Rounds of each driver. `None`: it makes Rounds until every slot has served its
    /// sessions.
    pub(crate) rounds: Option<u64>,
    /// The slots that are still serving.
    pub(crate) places: OpenSlots,
}

impl Service {
    /// Returns the service of these clients, with every slot still serving.
    pub(crate) fn of<D, G>(alloc: Global, clients: &Clients<D, G>, rounds: Option<u64>) -> Service
        ensures { (result.readonly ≡ clients.now.readonly) × (result.sessions ≡ clients.now.places) × (result.turns ≡ clients.now.turns) × (result.rounds ≡ rounds) }
    {
        Service {
            alloc,
            readonly: clients.readonly,
            sessions: clients.places,
            turns: clients.turns,
            rounds,
            places: OpenSlots::new(clients.places),
        }
    }
}
