//! The table of all handlers of the thirty classes. It is made once and passed to a continuation.

ghost use Rattle.std.specs.Prelude.{◌≡◌, ◌<◌, length};
ghost use Rattle.click_classes.specs.State.{class};
ghost use Rattle.click_base.specs.declared.class.Class.TheVariants as is;
ghost use Rattle.click_handlers.specs.Answers.{IsReadAnswer, IsWriteAnswer};
ghost use Rattle.click_handlers.specs.Names.{name_at, reads_of, writes_of};
ghost use Rattle.click_handlers.specs.Reads.{read_value};
ghost use Rattle.click_handlers.specs.Writes.{write_value};

use crate::fault::HandlerFault;
use crate::names::{CLASSES_WITH_HANDLERS, reads_of, writes_of};
use crate::plain;
use crate::rows::{ReadRow, WriteRow, add_read, add_write};
use crate::table::Table;
use crate::written::Written;
use click_base::Class;
use click_engine::Element;
use std::alloc::{AllocError, Global};
use std::sync::atomic::{AtomicU64, Ordering};
use std::sync::{Arc, Wait};
use std::thread::Threads;

/// A continuation that takes the table of all handlers.
///
/// The type of a table of boxed calls cannot be named where it is made, so the table is passed to a
/// method. The runtime, which allows it to be shared among threads, is passed with it.
pub trait TakesTable {
    ghost use Rattle.std.specs.Thread.{IsSync};

    type Out;

    fn take<R: Threads + Wait + Sync>(self, rt: &R, table: Table) -> Self::Out
        requires { IsSync R.row };
}

/// A continuation that takes the rows of all handlers, in order.
///
/// It also takes a second copy of the first row of each list. A row cannot be copied, and the
/// second copies serve to make lists in which a row occurs twice.
pub trait TakesRows {
    ghost use Rattle.std.specs.Prelude.{◌≡◌, codes, map};
    ghost use Rattle.std.specs.Thread.{IsSync};
    ghost use Rattle.click_base.specs.declared.class.Class.TheVariants as is;
    ghost use Rattle.click_handlers.specs.Names.{of_class, read_names, write_names};

    type Out;

    fn take_rows<R: Threads + Wait + Sync>(
        self,
        rt: &R,
        reads: Vec<ReadRow>,
        writes: Vec<WriteRow>,
        again: (ReadRow, WriteRow),
    ) -> Self::Out
        requires shared { IsSync R.row }
        requires reads { map (λ r. of_class r.class r.name.items) reads.items ≡ read_names }
        requires writes { map (λ r. of_class r.class r.name.items) writes.items ≡ write_names }
        requires read_again { of_class again.0.class again.0.name.items ≡ of_class is.Queue (codes "length") }
        requires write_again { of_class again.1.class again.1.name.items ≡ of_class is.Queue (codes "capacity") };
}

/// Makes a table of the rows, and passes it to `then`.
#[derive(Drop)]
struct RowsToTable<U> {
    then: U,
}

impl<U: TakesTable + Drop> TakesRows for RowsToTable<U> {
    type Out = U::Out;

    fn take_rows<R: Threads + Wait + Sync>(
        self,
        rt: &R,
        reads: Vec<ReadRow>,
        writes: Vec<WriteRow>,
        _again: (ReadRow, WriteRow),
    ) -> U::Out {
        self.then.take(rt, Table::of_all(reads, writes))
    }
}

/// Makes the table of all handlers, and passes it to `then`.
pub fn with_table<R: Threads + Wait + Sync, U: TakesTable + Drop>(
    rt: &R,
    alloc: Global,
    then: U,
) -> Result<U::Out, AllocError> {
    with_counted_table(rt, alloc, None, then)
}

/// Does what `with_table` does. If `asked` is given, it is incremented whenever the row of a
/// Counter's `count` is called, so that a test sees that the rows are called.
pub fn with_counted_table<R: Threads + Wait + Sync, U: TakesTable + Drop>(
    rt: &R,
    alloc: Global,
    asked: Option<Arc<AtomicU64>>,
    then: U,
) -> Result<U::Out, AllocError> {
    with_rows(rt, alloc, asked, RowsToTable { then })
}

/// Returns whether the read handler at an index of the class's handlers is `count` of a Counter.
fn is_count(class: Class, place: usize) -> bool {
    class == Class::Counter && place == 0
}

/// Makes the rows of all handlers, and passes them to `then`. `asked` is as for
/// `with_counted_table`.
pub fn with_rows<R: Threads + Wait + Sync, U: TakesRows + Drop>(
    rt: &R,
    alloc: Global,
    asked: Option<Arc<AtomicU64>>,
    then: U,
) -> Result<U::Out, AllocError> {
    let mut asked = asked;
    let mut reads = Vec::new(alloc);
    for owner in CLASSES_WITH_HANDLERS {
        for (place, name) in reads_of(owner).iter().enumerate() {
            let asked = if is_count(owner, place) {
                asked.take()
            } else {
                None
            };
            let call = Box::new(
                alloc,
                move |alloc: Global, element: &Element, text: &[u8]| -> Result<
                    Vec<u8>,
                    HandlerFault,
                >
                    requires { place < length (reads_of (class element.now.state)) }
                    ensures { IsReadAnswer (read_value (name_at (reads_of (class element.entry.now.state)) place) element.entry.now text.entry.now) result }
                {
                    if let Some(asked) = &asked {
                        asked.fetch_add(1, Ordering::Relaxed);
                    }
                    plain::read_at(alloc, element, text, place)
                },
            )?;
            add_read(&mut reads, alloc, owner, name, call)?;
        }
    }
    let mut writes = Vec::new(alloc);
    for owner in CLASSES_WITH_HANDLERS {
        for (place, name) in writes_of(owner).iter().enumerate() {
            let call = Box::new(
                alloc,
                move |alloc: Global, element: Element, text: &[u8]| -> Written
                    requires { place < length (writes_of (class element.state)) }
                    ensures { IsWriteAnswer (name_at (writes_of (class element.state)) place) element text.entry.now result }
                { plain::write_at(alloc, element, text, place) },
            )?;
            add_write(&mut writes, alloc, owner, name, call)?;
        }
    }
    let again = (
        ReadRow::new(
            Class::Queue,
            Vec::from_slice(alloc, b"length")?,
            Box::new(alloc, plain::read_length)?,
        ),
        WriteRow::new(
            Class::Queue,
            Vec::from_slice(alloc, b"capacity")?,
            Box::new(alloc, plain::write_capacity)?,
        ),
    );
    Ok(then.take_rows(rt, reads, writes, again))
}
