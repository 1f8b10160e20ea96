//! The table of the handlers of the thirty classes.

ghost use Rattle.std.specs.Prelude.{◌≡◌, ◌&&◌, ◌++◌, List, map, not, IsOk, IsTrue, ◌↔◌, is_some, IfSome, IfNone};
ghost use Rattle.std.specs.List.{list_any};
ghost use Rattle.click_base.specs.Classes.{is_gateway};
ghost use Rattle.click_handlers.specs.Names.{HandlerName, of_class, is_named, handled, names_by, read_names, write_names, has_read, has_write};

use crate::fault::TableFault;
use crate::names::CLASSES_WITH_HANDLERS;
use crate::rows::{HandlerRow, ReadRow, WriteRow};
use click_base::Class;

/// The rows of the handlers of the thirty classes, in order.
#[derive(Drop)]
pub struct Table {
    reads: Vec<ReadRow>,
    writes: Vec<WriteRow>,
    ghost reads_listed: { map (λ r. of_class r.class r.name.items) reads.items ≡ read_names },
    ghost writes_listed: { map (λ r. of_class r.class r.name.items) writes.items ≡ write_names },
}

/// Returns the rows after those of a class's names, if the rows begin with these in order.
fn behind<'a, R: HandlerRow>(rows: &'a [R], class: Class, names: &[&[u8]]) -> Option<&'a [R]>
    ensures some { IfSome result (λ rest. map R.handler rows.now ≡ map (λ n. of_class class n.now) names.now ++ map R.handler rest.now) }
    ensures none { IfNone result ((more : List HandlerName) → map R.handler rows.now ≡ map (λ n. of_class class n.now) names.now ++ more → ⊥) }
{
    let mut rest = rows;
    for name in names {
        let (row, others) = rest.split_first()?;
        if !row.is_handler(class, name) {
            return None;
        }
        rest = others;
    }
    Some(rest)
}

/// Returns whether the rows are the handlers of the classes, in order.
fn are_listed<R: HandlerRow>(rows: &[R]) -> bool
    ensures { IsTrue result ↔ (map R.handler rows.now ≡ names_by R.names handled) }
{
    let mut rest = rows;
    for class in CLASSES_WITH_HANDLERS {
        match behind(rest, class, R::names_of(class)) {
            Some(others) => rest = others,
            None => return false,
        }
    }
    rest.is_empty()
}

/// Returns the row of a class's handler with that name.
fn row_of<'a, R: HandlerRow>(rows: &'a [R], class: Class, name: &[u8]) -> Option<&'a R>
    requires { map R.handler rows.now ≡ names_by R.names handled }
    ensures there { is_some result ≡ list_any (is_named class name.now) (names_by R.names handled) }
    ensures row { IfSome result (λ r. R.handler r.now ≡ of_class class name.now) }
{
    for row in rows {
        if row.is_handler(class, name) {
            return Some(row);
        }
    }
    None
}

impl Table {
    /// Makes a table of rows, which must be the handlers of the classes, in order.
    #[tactic(auto, unfolding(crate::specs::Names::read_names, crate::specs::Names::write_names))]
    pub fn new(reads: Vec<ReadRow>, writes: Vec<WriteRow>) -> Result<Table, TableFault>
        ensures { IsOk result ↔ ((map (λ r. of_class r.class r.name.items) reads.items ≡ read_names)
            × (map (λ r. of_class r.class r.name.items) writes.items ≡ write_names)) }
    {
        if are_listed(&reads) && are_listed(&writes) {
            Ok(Table { reads, writes })
        } else {
            Err(TableFault::WrongRows)
        }
    }

    /// Makes a table of rows that are known to be the handlers of the classes, in order.
    pub(crate) fn of_all(reads: Vec<ReadRow>, writes: Vec<WriteRow>) -> Table
        requires reads { map (λ r. of_class r.class r.name.items) reads.items ≡ read_names }
        requires writes { map (λ r. of_class r.class r.name.items) writes.items ≡ write_names }
    {
        Table { reads, writes }
    }

    /// Returns the row of a class's read handler. Classes of the gateway package have no rows.
    #[tactic(auto, unfolding(crate::specs::Names::read_names))]
    pub fn read(&self, class: Class, name: &[u8]) -> Option<&ReadRow>
        ensures there { is_some result ≡ (not (is_gateway class) && has_read class name.now) }
        ensures row { IfSome result (λ r. (r.now.class ≡ class) × (r.now.name.items ≡ name.now)) }
    {
        row_of(&self.reads, class, name)
    }

    /// Returns the row of a class's write handler. Classes of the gateway package have no rows.
    #[tactic(auto, unfolding(crate::specs::Names::write_names))]
    pub fn write(&self, class: Class, name: &[u8]) -> Option<&WriteRow>
        ensures there { is_some result ≡ (not (is_gateway class) && has_write class name.now) }
        ensures row { IfSome result (λ r. (r.now.class ≡ class) × (r.now.name.items ≡ name.now)) }
    {
        row_of(&self.writes, class, name)
    }
}
