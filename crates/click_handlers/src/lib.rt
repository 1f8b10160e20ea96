//! Handlers: named values and actions of elements (Click manual, "Handlers"). A row stores the call
//! of a handler together with its contract.
#![tactic(auto)]

mod fault;
mod gateway;
pub mod laws;
mod names;
pub mod plain;
pub mod rows;
mod standard;
mod table;
pub mod text_laws;
mod texts;
mod written;

pub use fault::{HandlerFault, TableFault};
pub use gateway::{read_gateway, write_gateway};
pub use names::{has_read, has_write, reads_of, writes_of};
pub use rows::{ReadCall, ReadRow, WriteCall, WriteRow};
pub use standard::{TakesRows, TakesTable, with_counted_table, with_rows, with_table};
pub use table::Table;
pub use texts::push_dotted;
pub use written::Written;
