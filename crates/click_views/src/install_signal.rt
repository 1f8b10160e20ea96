//! The install signal, which announces the newest install to views, by `left_right`.

ghost use Rattle.std.specs.Prelude.{◌≡◌, ◌≤◌};

use crate::notice::Notice;
use left_right::{Absorb, ReadHandle, WriteHandle};
use std::alloc::{AllocError, Global};
use std::sync::{Mutex, Wait};

/// The index of a board's cell.
#[derive(Clone, Copy, Drop)]
pub struct Latest {
    pub index: usize,
}

impl Absorb<usize> for Latest {
    type State = Latest;

    ghost state = { λ latest. latest };

    ghost applied = { λ _ index. record { index = index } };

    ghost never_fails = { Unit {0} };

    fn absorb_first(&mut self, operation: &usize, _other: &Latest) -> Result<(), AllocError> {
        self.index = *operation;
        Ok(())
    }
}

/// The signal that announces each new install to the views that listen to it.
///
/// It knows nothing of installs except the index of a cell. It is stored next to the publisher,
/// behind a lock of its own.
#[derive(Drop)]
pub struct InstallSignal<R: Wait + Drop> {
    writer: Mutex<WriteHandle<Latest, usize, R>>,
}

impl<R: Wait + Drop> InstallSignal<R> {
    /// Opens a signal for up to `views` views (0 to 16). Fails with out of memory.
    pub fn open(rt: R, alloc: Global, views: usize) -> Result<InstallSignal<R>, AllocError>
        requires { views ≤ 16 }
    {
        let first = Latest { index: 0 };
        let writer = WriteHandle::new(alloc, rt, first, first, views + 1)?;
        Ok(InstallSignal {
            writer: Mutex::new(writer),
        })
    }

    /// Announces the last install of the notice to the views, if installs are stored. May block
    /// while a view reads the signal.
    ///
    /// If this is out of memory, nothing is announced now, and the views learn of the install with
    /// the next signal.
    pub fn signal<I, S: Wait>(&self, rt: &S, notice: &Notice<I>) {
        let Some(mark) = &notice.mark else {
            return;
        };
        let mut writer = self.writer.lock(rt);
        if writer.append(mark.cell.index()).is_ok() {
            drop(writer.publish());
        }
    }

    /// Returns a handle by which one view listens. Fails with out of memory, or if as many views
    /// listen as the signal was opened for.
    pub fn listener<S: Wait>(&self, rt: &S) -> Result<ReadHandle<Latest>, AllocError> {
        self.writer.lock(rt).handle()
    }
}
