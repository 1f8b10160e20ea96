//! Rules: an action and a pattern.

use crate::pattern::Pattern;

/// What happens to a packet.
#[derive(Clone, Copy, Debug, PartialEq, Eq)]
pub enum Action {
    /// The packet leaves at this output.
    Output(u8),
    Drop,
}

/// An action, and the pattern of the packets for which it is taken.
#[derive(Drop)]
pub struct Rule {
    pub action: Action,
    pub pattern: Pattern,
}
