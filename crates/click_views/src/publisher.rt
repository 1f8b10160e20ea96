//! The publisher: the end that publishes installs.

ghost use Rattle.std.specs.Prelude.{◌≡◌, ◌++◌, ◌∷◌, [], Some, IfOk, MatchResult, length};
ghost use Rattle.click_views.specs.Log.{EndsIn};
ghost use Rattle.click_views.specs.Placed.{IsPlaced};
ghost use Rattle.click_views.specs.Showing.{tag_of};

use crate::board::Board;
use crate::closed::ClosedPublisher;
use crate::log::LogEnd;
use crate::mark::{LogPosition, Mark, again};
use crate::notice::Notice;
use crate::origin::Origin;
use crate::view::View;
use std::alloc::{AllocError, Global};
use std::marker::Model;
use std::sync::{Arc, Wait};

/// The end that publishes the installs of a desk.
#[derive(Drop)]
pub struct Publisher<I: Drop> {
    board: Arc<Board<I>, Global>,
    end: LogEnd<I>,
    /// The mark of the last install, if installs are stored.
    mark: Option<Mark<I>>,
    origin: Origin<I>,
}

impl<I: Drop> Model for Publisher<I> {
    ghost use Rattle.std.specs.Prelude.{◌≡◌};
    ghost use Rattle.std.specs.Arc.{arc_value};
    ghost use Rattle.click_views.specs.Log.{installs};
    ghost use Rattle.click_views.specs.Placed.{IsPlaced};
    ghost use Rattle.click_views.specs.Showing.{Showing};

    ghost Value = { Showing I };

    ghost view = { λ p. record { board = arc_value p.board; list = installs p.end.log } };

    ghost invariant = { λ p. IsPlaced (arc_value p.board) p.mark p.end × (p.origin ≡ arc_value p.board) };
}

/// Stores the first install on the board, if `keeps` is set. Fails with out of memory.
fn first_mark<I: Drop, R: Wait>(
    rt: &R,
    board: &Board<I>,
    end: &LogEnd<I>,
    install: I,
    keeps: bool,
) -> Result<Option<Mark<I>>, AllocError>
    requires board { board.now.tag ≡ tag_of keeps end.now.book }
    requires first { (length end.now.log ≡ 1) × EndsIn end.now.log install }
    ensures { IfOk result (λ mark. IsPlaced board.now mark end.now) }
{
    if !keeps {
        return Ok(None);
    }
    let (cell, written) = board.keep(rt, end.seen(), install)?;
    let mark = Mark {
        told: LogPosition::new(end.seen(), 1, written),
        cell,
    };
    board.tell(&mark);
    Ok(Some(mark))
}

impl<I: Drop> Publisher<I> {
    /// Opens a publisher and publishes the first install. Fails with out of memory.
    ///
    /// If `keeps` is set, it stores what it publishes, and there may be views. Otherwise nothing
    /// that is published stays in memory.
    pub fn open<R: Wait>(
        rt: &R,
        alloc: Global,
        install: I,
        keeps: bool,
    ) -> Result<Publisher<I>, AllocError>
        ensures { IfOk result (λ p. p.list ≡ install ∷ []) }
    {
        let Some(end) = LogEnd::open(&install) else {
            return Err(AllocError);
        };
        let board = Board::new(alloc, end.seen(), keeps)?;
        let Some(origin) = Origin::of(&board) else {
            return Err(AllocError);
        };
        let mark = first_mark(rt, &board, &end, install, keeps)?;
        let Ok(board) = Arc::new(alloc, board) else {
            return Err(AllocError);
        };
        Ok(Publisher {
            board,
            end,
            mark,
            origin,
        })
    }

    /// Publishes an install. Fails with out of memory, and then publishes nothing.
    ///
    /// All memory is reserved before it is published. If installs are not stored, this allocates
    /// nothing, and the install is dropped.
    pub fn publish<R: Wait>(&mut self, rt: &R, install: I) -> Result<(), AllocError>
        ensures board { self.new.board ≡ self.old.board }
        ensures list { MatchResult result (λ _. self.new.list ≡ self.old.list ++ install ∷ []) (λ _. self.new.list ≡ self.old.list) }
    {
        let Some(mark) = &self.mark else {
            self.end.add(&install);
            return Ok(());
        };
        let count = mark.told.number();
        if count == u64::MAX {
            return Err(AllocError);
        }
        let (cell, written) = self.board.keep(rt, self.end.seen(), install)?;
        // Nothing fails from here on.
        self.end.add(self.board.install(&cell, &written));
        let mark = Mark {
            told: LogPosition::new(self.end.seen(), count + 1, written),
            cell,
        };
        self.board.tell(&mark);
        self.mark = Some(mark);
        Ok(())
    }

    /// Returns the identity of the desk's board.
    pub fn origin(&self) -> Origin<I>
        ensures { result ≡ self.now.board }
    {
        self.origin.again()
    }

    /// Returns a notice of what was published so far. Never allocates and never blocks.
    pub fn notice(&self) -> Notice<I>
        ensures { result ≡ self.now }
    {
        Notice {
            seen: self.end.seen().again(),
            mark: again(&self.mark),
            of: self.origin.again(),
        }
    }

    /// Returns a view that shows what was published so far, and does not listen to a signal yet.
    /// Fails if installs are not stored, or if the board cannot count one more view.
    pub fn view(&self) -> Result<View<I>, AllocError>
        ensures { IfOk result (λ v. v ≡ self.now) }
    {
        let Some(mark) = &self.mark else {
            return Err(AllocError);
        };
        Ok(View {
            board: Arc::try_clone(&self.board)?,
            mark: mark.again(),
            origin: self.origin.again(),
            reader: None,
        })
    }

    /// Ends publishing.
    pub fn close(self) -> ClosedPublisher<I>
        ensures { result ≡ self }
    {
        let Publisher {
            board: _,
            end,
            mark: _,
            origin,
        } = self;
        ClosedPublisher {
            of: origin,
            seen: end.end(),
        }
    }
}
