//! The board that stores installs, each for as long as the board exists, or none.

ghost use Rattle.std.specs.Prelude.{◌≡◌, ◌∷◌, IfOk, IfSome};
ghost use Rattle.boxcar.specs.Table.{Shows};
ghost use Rattle.click_views.specs.Showing.{numbers, tag_of};

use crate::log::SeenLog;
use crate::mark::{LogPosition, Mark};
use boxcar::slot::{OnceSlot, SlotRule, Written};
use boxcar::tag::{Names, Tag};
use boxcar::{Keeps, Pushed};
use std::alloc::{AllocError, Global};
use std::marker::Model;
use std::sync::Wait;

/// The rule of a slot for an install: none.
pub struct AnyInstall;

impl<I> SlotRule<I> for AnyInstall {
    ghost use Rattle.std.specs.Prelude.{⊤};

    ghost holds = { λ _ _. ⊤ };
}

/// The rule of a slot for a position in the log. The position is of the cell's install, and of the
/// log of the board.
pub struct OfCell;

impl<I> SlotRule<LogPosition<I>> for OfCell {
    ghost use Rattle.std.specs.Prelude.{◌≡◌, ◌∷◌};
    ghost use Rattle.click_views.specs.Showing.{numbers};

    ghost holds = { λ tag told. tag ≡ told.slot ∷ numbers told.book };
}

/// An install, and its position in the log once it was added to the log.
#[derive(Drop)]
pub struct Cell<I> {
    install: OnceSlot<I, AnyInstall>,
    told: OnceSlot<LogPosition<I>, OfCell>,
}

/// The rule of the cells: they belong to the log that the tag of the board names.
pub struct OfBook;

impl<I> Keeps<Cell<I>> for OfBook {
    ghost use Rattle.std.specs.Prelude.{◌≡◌, ◌∷◌};

    ghost holds = { λ tag _ cell. cell.told.tag ≡ cell.install.id ∷ tag };
}

/// The tag of a board that stores the installs of this log.
struct ByBook;

impl<I> Names<SeenLog<I>> for ByBook {
    ghost use Rattle.click_views.specs.Showing.{numbers};

    ghost numbers = { λ seen. numbers seen.book };
}

/// The tag of a board that stores no installs of this log.
struct ByBookAlone;

impl<I> Names<SeenLog<I>> for ByBookAlone {
    ghost use Rattle.std.specs.Prelude.{false};
    ghost use Rattle.click_views.specs.Showing.{tag_of};

    ghost numbers = { λ seen. tag_of false seen.book };
}

/// Returns the tag of a board that stores the installs of this log, or none.
fn tag_for<I>(seen: &SeenLog<I>, keeps: bool) -> Tag
    ensures { result.numbers ≡ tag_of keeps seen.now.book }
{
    if keeps {
        Tag::of::<SeenLog<I>, ByBook>(seen)
    } else {
        Tag::of::<SeenLog<I>, ByBookAlone>(seen)
    }
}

/// The slot of an install, with the log, by which a cell is named.
#[derive(Drop)]
struct CellName<'a, I> {
    slot: &'a OnceSlot<I, AnyInstall>,
    seen: &'a SeenLog<I>,
}

/// The tag of a cell of this name.
struct ByCell;

impl<'a, I> Names<CellName<'a, I>> for ByCell {
    ghost use Rattle.std.specs.Prelude.{◌∷◌};
    ghost use Rattle.click_views.specs.Showing.{numbers};

    ghost numbers = { λ name. name.slot.now.id ∷ numbers name.seen.now.book };
}

/// The installs of one desk.
#[derive(Drop)]
pub struct Board<I> {
    cells: boxcar::Vec<Cell<I>, Global, OfBook>,
}

impl<I> Model for Board<I> {
    ghost use Rattle.boxcar.specs.Table.{Shelves, shelves_coded};

    ghost Value = { Shelves };

    ghost coded = { shelves_coded };

    ghost view = { λ b. b.cells };
}

impl<I: Drop> Board<I> {
    /// Creates an empty board, for the installs of this log or for none. Fails with out of memory.
    pub fn new(alloc: Global, seen: &SeenLog<I>, keeps: bool) -> Result<Board<I>, AllocError>
        ensures { IfOk result (λ b. b.tag ≡ tag_of keeps seen.now.book) }
    {
        Ok(Board {
            cells: boxcar::Vec::with_rule(alloc, tag_for(seen, keeps))?,
        })
    }

    /// Stores an install, whose position in the log is not recorded yet. Fails with out of memory.
    /// May block.
    pub fn keep<R: Wait>(
        &self,
        rt: &R,
        seen: &SeenLog<I>,
        install: I,
    ) -> Result<(Pushed<Cell<I>, Global, OfBook>, Written<I>), AllocError>
        requires { self.now.tag ≡ numbers seen.now.book }
        ensures shown { IfOk result (λ r. Shows self.now r.0) }
        ensures kept { IfOk result (λ r. (r.1.of ≡ r.0.value.install.id) × (r.1.value ≡ install)) }
    {
        let slot: OnceSlot<I, AnyInstall> = OnceSlot::new(&Tag::empty());
        let Ok(written) = slot.set_written(install) else {
            return Err(AllocError);
        };
        let told = OnceSlot::new(&Tag::of::<CellName<'_, I>, ByCell>(&CellName {
            slot: &slot,
            seen,
        }));
        match self.cells.push_shown(
            rt,
            Cell {
                install: slot,
                told,
            },
        ) {
            Ok(cell) => Ok((cell, written)),
            Err(_) => Err(AllocError),
        }
    }

    /// Records the position in the log of a cell's install. Never allocates and never blocks.
    pub fn tell(&self, mark: &Mark<I>)
        requires shown { Shows self.now mark.now.cell }
        requires book { self.now.tag ≡ numbers mark.now.told.book }
    {
        let index = mark.cell.index();
        if let Some(cell) = self.cells.get_seen(index, &mark.cell) {
            drop(cell.told.set_written(mark.told.again()));
        }
    }
}

impl<I> Board<I> {
    /// Returns the mark of the install in this cell, if its position is recorded.
    pub fn mark_at(&self, index: usize) -> Option<Mark<I>>
        ensures shown { IfSome result (λ m. Shows self.now m.cell) }
        ensures book { IfSome result (λ m. self.now.tag ≡ numbers m.told.book) }
        ensures place { IfSome result (λ m. m.cell.index ≡ index) }
    {
        let cell = self.cells.witness(index)?;
        let told = self.cells.get_seen(index, &cell)?.told.get()?.again();
        Some(Mark { told, cell })
    }

    /// Borrows the install of a cell.
    pub fn install<'a>(
        &'a self,
        cell: &Pushed<Cell<I>, Global, OfBook>,
        written: &Written<I>,
    ) -> &'a I
        requires shown { Shows self.now cell.now }
        requires kept { written.now.of ≡ cell.now.value.install.id }
        ensures { result.now ≡ written.now.value }
    {
        self.cells.value(cell).install.value(written)
    }
}
