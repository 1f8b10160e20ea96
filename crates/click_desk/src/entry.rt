//! The entries of a history.

use click_router::{Call, StoredReply};

/// A call of one seat, with its reply.
#[derive(Drop)]
pub struct Entry {
    pub seat: usize,
    pub call: Call,
    pub reply: StoredReply,
}
