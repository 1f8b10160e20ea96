//! Peers of sessions from memory, and the door by which they come in.

use click_streams::{Reading, Writing};
use click_workers::{Door, Observer};
use std::alloc::{AllocError, Global};
use std::io::{self, ErrorKind, Write};
use std::sync::atomic::{AtomicU64, Ordering};

/// A writer that counts the bytes that it takes, and fails at one of its writes.
#[derive(Drop)]
pub(crate) struct Taker<'a> {
    taken: &'a AtomicU64,
    writes: u64,
    /// The number of the write that fails, from 1, or 0 for none.
    fails_at: u64,
}

impl Write for Taker<'_> {
    fn write(&mut self, buf: &[u8]) -> io::Result<usize> {
        self.writes = self.writes.saturating_add(1);
        if self.writes == self.fails_at {
            return Err(io::Error::from(ErrorKind::Other));
        }
        let count = buf.len() as u64;
        self.taken.fetch_add(count, Ordering::SeqCst);
        Ok(buf.len())
    }

    fn flush(&mut self) -> io::Result<()> {
        Ok(())
    }
}

/// Lets sessions in. Session k reads the kth list of texts, one text each time that it comes in.
#[derive(Drop)]
pub(crate) struct Peers<'a> {
    texts: &'a [&'a [&'a [u8]]],
    taken: &'a AtomicU64,
    /// The number of the session whose second write fails: that of its first reply.
    pub(crate) fails: Option<usize>,
    /// The turn of a session, from 0, at which it is not let in.
    pub(crate) refused: Option<u64>,
    entered: Vec<AtomicU64>,
    others: AtomicU64,
}

impl<'a> Peers<'a> {
    /// Returns a door for the sessions of these texts. The bytes that they write are counted.
    pub(crate) fn new(
        alloc: Global,
        texts: &'a [&'a [&'a [u8]]],
        taken: &'a AtomicU64,
    ) -> Result<Peers<'a>, AllocError> {
        let mut entered = Vec::new(alloc);
        for _ in texts {
            entered.push(AtomicU64::new(0))?;
        }
        Ok(Peers {
            texts,
            taken,
            fails: None,
            refused: None,
            entered,
            others: AtomicU64::new(0),
        })
    }

    /// Returns whether each session came `count` times, and no other session came.
    pub(crate) fn all_came(&self, count: u64) -> bool {
        let all = self
            .entered
            .iter()
            .all(|came| came.load(Ordering::SeqCst) == count);
        all & (self.others.load(Ordering::SeqCst) == 0)
    }

    /// Returns the text for a session that comes in, and counts it.
    fn next_text(&self, who: usize) -> Option<&'a [u8]> {
        let at = who.checked_sub(1)?;
        let Some(came) = self.entered.get(at) else {
            self.others.fetch_add(1, Ordering::SeqCst);
            return None;
        };
        let nth = came.fetch_add(1, Ordering::SeqCst);
        if self.refused == Some(nth) {
            return None;
        }
        let text = self.texts.get(at)?.get(usize::try_from(nth).ok()?)?;
        Some(*text)
    }
}

impl<'a> Observer for Peers<'a> {}

impl<'a> Door for Peers<'a> {
    ghost lets_in = { λ _ _ _. Unit {0} };

    type Reader = Reading<&'a [u8]>;

    type Writer = Writing<Taker<'a>>;

    fn enter(&self, who: usize) -> Option<(Reading<&'a [u8]>, Writing<Taker<'a>>)> {
        let text = self.next_text(who)?;
        let taker = Taker {
            taken: self.taken,
            writes: 0,
            fails_at: if self.fails == Some(who) { 2 } else { 0 },
        };
        Some((Reading::new(text), Writing::new(taker)))
    }
}
