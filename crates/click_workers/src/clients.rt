//! The clients of a run: its sessions and drivers.

/// The session slots and drivers of a run, with the door and the gate that they use.
///
/// There are `places` session slots, each of which serves `turns` sessions, one after another.
/// `workers` is the number of drivers. `readonly` refuses every write of a session.
#[derive(Clone, Copy)]
pub struct Clients<'a, D, G> {
    pub door: &'a D,
    pub gate: &'a G,
    pub readonly: bool,
    pub places: usize,
    pub workers: usize,
    pub turns: u64,
}
