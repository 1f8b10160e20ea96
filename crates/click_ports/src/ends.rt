//! The ports at the ends of the connections.

ghost use Rattle.std.specs.Prelude.{◌≡◌, ◌<◌, [], ◌∷◌, ◌++◌, length, IfOk, OnOk, vec_len, slice_set, slice_index_or, replicate};
ghost use Rattle.click_ports.specs.kept.Ends.{AreFarEnds};

use crate::layout::Layout;
use crate::row::Row;
use crate::sizes::joined_port;
use click_classes::Side;
use std::alloc::{AllocError, Global};

/// Returns `count` empty rows, or fails with out of memory.
fn empty_rows(alloc: Global, count: usize) -> Result<Vec<Row>, AllocError>
    ensures { IfOk result (λ rows. rows.items ≡ replicate count []) }
{
    let mut rows = Vec::with_capacity(alloc, count)?;
    for _row in 0..count {
        rows.push(Row::new())?;
    }
    Ok(rows)
}

/// Appends a number to a row.
fn add_to(alloc: Global, rows: &mut Vec<Row>, row: usize, number: usize) -> Result<(), AllocError>
    requires { row < vec_len rows.old }
    ensures { OnOk result (rows.new.items ≡ slice_set rows.old.items row (slice_index_or rows.old.items row [] ++ number ∷ [])) }
{
    rows[row].push(alloc, number)
}

/// Returns for each port the numbers of the ports at the other ends of its connections.
///
/// Each connection adds one number.
pub fn ends_of(alloc: Global, layout: &Layout) -> Result<Vec<Row>, AllocError>
    ensures { IfOk result (λ rows. AreFarEnds layout.now rows.items) }
{
    let mut rows = empty_rows(alloc, layout.ports().len())?;
    for connection in layout.connections() {
        let output = joined_port(Side::Output, *connection);
        let input = joined_port(Side::Input, *connection);
        let from = layout.number(output);
        let to = layout.number(input);
        add_to(alloc, &mut rows, from, to)?;
        add_to(alloc, &mut rows, to, from)?;
    }
    Ok(rows)
}
