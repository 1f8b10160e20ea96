//! Views: handles that show the newest install they know of, without blocking.

ghost use Rattle.std.specs.Prelude.{◌≡◌};
ghost use Rattle.boxcar.specs.Table.{Shows};
ghost use Rattle.click_views.specs.Log.{installs};
ghost use Rattle.click_views.specs.Showing.{BeginsWith, IsLast, numbers};

use crate::board::Board;
use crate::install_signal::Latest;
use crate::mark::Mark;
use crate::notice::Notice;
use crate::origin::Origin;
use left_right::ReadHandle;
use std::alloc::Global;
use std::marker::Model;
use std::sync::Arc;

/// A handle that shows the installs of a desk. It shows the last one that it knows of, and never an
/// older one than before.
#[derive(Drop)]
pub struct View<I: Drop> {
    pub(crate) board: Arc<Board<I>, Global>,
    pub(crate) mark: Mark<I>,
    pub(crate) origin: Origin<I>,
    /// What it listens to the install signal with, if it does.
    pub(crate) reader: Option<ReadHandle<Latest>>,
}

impl<I: Drop> Model for View<I> {
    ghost use Rattle.std.specs.Prelude.{◌≡◌};
    ghost use Rattle.std.specs.Arc.{arc_value};
    ghost use Rattle.boxcar.specs.Table.{Shows};
    ghost use Rattle.click_views.specs.Log.{installs};
    ghost use Rattle.click_views.specs.Showing.{Showing, numbers};

    ghost Value = { Showing I };

    ghost view = { λ v. record { board = arc_value v.board; list = installs v.mark.told.log } };

    ghost invariant = { λ v. Shows (arc_value v.board) v.mark.cell × ((arc_value v.board).tag ≡ numbers v.mark.told.book) × (v.origin ≡ arc_value v.board) };
}

/// Returns the index of the cell that the signal announced last, if the view listens to one.
fn latest_index(reader: &mut Option<ReadHandle<Latest>>) -> Option<usize> {
    match reader {
        Some(reader) => match reader.enter() {
            Some(guard) => Some(guard.index),
            None => None,
        },
        None => None,
    }
}

impl<I: Drop> View<I> {
    ghost use Rattle.std.specs.Prelude.{◌≡◌, IfOk, OnErr, Ok};
    ghost use Rattle.std.specs.Fn.{FnOnceReturnsAt};

    /// Returns the later one of this install and the last one that the view shows.
    fn later_of(&self, mark: &Mark<I>) -> Mark<I>
        requires shown { Shows self.now.board mark.now.cell }
        requires book { self.now.board.tag ≡ numbers mark.now.told.book }
        ensures place { Shows self.now.board result.cell × (self.now.board.tag ≡ numbers result.told.book) }
        ensures later { BeginsWith (installs result.told.log) self.now.list }
        ensures told { BeginsWith (installs result.told.log) (installs mark.now.told.log) }
    {
        let mut both = self.mark.told.seen.again();
        both.learn(&mark.told.seen);
        if self.mark.told.number() < mark.told.number() {
            mark.again()
        } else {
            self.mark.again()
        }
    }

    /// Returns the install that the signal announced last, if it is a later one than the view
    /// shows, and else the last one that the view shows. The view still shows what it showed.
    fn newest(&mut self) -> Mark<I>
        ensures same { self.new ≡ self.old }
        ensures place { Shows self.old.board result.cell × (self.old.board.tag ≡ numbers result.told.book) }
        ensures later { BeginsWith (installs result.told.log) self.old.list }
    {
        let Some(index) = latest_index(&mut self.reader) else {
            return self.mark.again();
        };
        match self.board.mark_at(index) {
            Some(mark) => self.later_of(&mark),
            None => self.mark.again(),
        }
    }

    /// Moves on to the installs that the notice covers, if it does not know them yet. The notice
    /// must be of the same desk. An older notice changes nothing. Never allocates, never blocks and
    /// never fails.
    pub fn learn(&mut self, notice: &Notice<I>)
        requires { notice.now.board ≡ self.old.board }
        ensures board { self.new.board ≡ self.old.board }
        ensures later { BeginsWith self.new.list self.old.list }
        ensures told { BeginsWith self.new.list notice.now.list }
    {
        let _number = self.mark.told.number();
        match &notice.mark {
            Some(mark) => self.mark = self.later_of(mark),
            // A list that has views is stored, so each notice of it has a mark.
            None => unreachable!(),
        }
    }

    /// Listens to the signal of this handle from now on. What the view shows is unchanged.
    pub fn listen(&mut self, reader: ReadHandle<Latest>)
        ensures { self.new ≡ self.old }
    {
        self.reader = Some(reader);
    }

    /// Moves on to the install that the signal announced last, if it is a later one. Does nothing
    /// if the view listens to no signal. Never allocates and never blocks.
    pub fn refresh(&mut self)
        ensures board { self.new.board ≡ self.old.board }
        ensures later { BeginsWith self.new.list self.old.list }
    {
        self.mark = self.newest();
    }

    /// Calls `f` with the install that `refresh` would move on to. Moves on to it if `f` succeeds. If
    /// `f` fails, the view still shows what it showed.
    pub fn refresh_with<R, E, F: FnOnce(&I) -> Result<R, E>>(&mut self, f: F) -> Result<R, E>
        requires { F.IsAlwaysCallable f }
        ensures board { self.new.board ≡ self.old.board }
        ensures later { BeginsWith self.new.list self.old.list }
        ensures ok { IfOk result (λ r. (install : I) × IsLast self.new.list install × FnOnceReturnsAt F.FnOnce f install (Ok r)) }
        ensures err { OnErr result (self.new ≡ self.old) }
    {
        let mark = self.newest();
        let _number = mark.told.number();
        match f(self.board.install(&mark.cell, &mark.told.written)) {
            Ok(answer) => {
                self.mark = mark;
                Ok(answer)
            }
            Err(fault) => Err(fault),
        }
    }

    /// Returns a notice of what the view shows, which other views of the desk can learn. Never
    /// allocates.
    pub fn notice(&self) -> Notice<I>
        ensures { result ≡ self.now }
    {
        Notice {
            seen: self.mark.told.seen.again(),
            mark: Some(self.mark.again()),
            of: self.origin.again(),
        }
    }

    /// Returns the last install that the view shows.
    pub fn install(&self) -> &I
        ensures { IsLast self.now.list result.now }
    {
        let _number = self.mark.told.number();
        self.board.install(&self.mark.cell, &self.mark.told.written)
    }
}
