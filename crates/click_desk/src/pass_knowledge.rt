//! The ghost state of a pass: what it knows of the desk and its history, and what it may do.

use crate::desk_setup::DeskSetup;
use crate::entry::Entry;
use click_router::{Call, StoredReply};
use std::collections::LinkedList;

/// The ghost state of a pass: the part of the history it has seen, and the steps it may take.
///
/// No value of it exists at run time. It is unrelated to `watch::PassKnowledge`.
pub struct PassKnowledge {
    /// Whether the pass has learned the options of the desk.
    pub opened: bool,
    /// The options of the desk, if `opened` is true.
    pub options: DeskSetup,
    /// Whether the pass holds the logged router.
    pub holds: bool,
    /// Whether the pass creates the passes of the seats numbered `made` and above.
    pub makes: bool,
    pub made: usize,
    /// Whether the pass belongs to seat `number`. `mine` lists the calls and replies of that seat.
    pub acts: bool,
    pub number: usize,
    pub mine: LinkedList<(Call, StoredReply)>,
    /// The part of the history that the pass has seen.
    pub seen: LinkedList<Entry>,
    /// During `close`: what the seat had seen of the history before its pass was joined.
    ///
    /// It is joined with the closing pass (the agent), which holds the logged router.
    pub back: LinkedList<Entry>,
}
