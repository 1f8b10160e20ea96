//! The handlers of the gateway package. They have no rows in a table, and are called by name.

ghost use Rattle.std.specs.Prelude.{◌≡◌, true};
ghost use Rattle.click_base.specs.Classes.{is_gateway};
ghost use Rattle.click_base.specs.declared.class.Class.TheVariants as is;
ghost use Rattle.click_classes.specs.State.{class};
ghost use Rattle.click_handlers.specs.Answers.{IsReadAnswer, IsWriteAnswer};
ghost use Rattle.click_handlers.specs.Names.{has_read, has_write};
ghost use Rattle.click_handlers.specs.Reads.{read_value};
ghost use Rattle.click_handlers.specs.Writes.{write_value};

use crate::fault::HandlerFault;
use crate::plain::querier;
use crate::written::Written;
use click_classes::State;
use click_engine::Element;
use std::alloc::Global;

/// Reads a handler of an ARPQuerier by its name.
fn read_querier(
    alloc: Global,
    element: &Element,
    name: &[u8],
    text: &[u8],
) -> Result<Vec<u8>, HandlerFault>
    requires { class element.now.state ≡ is.ARPQuerier }
    ensures { IsReadAnswer (read_value name.now element.now text.now) result }
{
    if name == b"table".as_slice() {
        return querier::read_table(alloc, element, text);
    }
    if name == b"count".as_slice() {
        return querier::read_neighbour_count(alloc, element, text);
    }
    querier::read_querier_drops(alloc, element, text)
}

/// Reads a handler, by its name, of an element whose class is of the gateway package.
#[tactic(auto, unfolding(crate::specs::Names::reads_of))]
pub fn read_gateway(
    alloc: Global,
    element: &Element,
    name: &[u8],
    text: &[u8],
) -> Result<Vec<u8>, HandlerFault>
    requires gateway { is_gateway (class element.now.state) ≡ true }
    requires there { has_read (class element.now.state) name.now ≡ true }
    ensures { IsReadAnswer (read_value name.now element.now text.now) result }
{
    match &element.state {
        State::ARPQuerier { .. } => read_querier(alloc, element, name, text),
        _ => unreachable!(),
    }
}

/// Writes a handler of an ARPQuerier by its name.
fn write_querier(element: Element, name: &[u8], text: &[u8]) -> Written
    requires { class element.state ≡ is.ARPQuerier }
    ensures { IsWriteAnswer name.now element text.now result }
{
    if name == b"insert".as_slice() {
        return querier::write_insert(element, text);
    }
    if name == b"delete".as_slice() {
        return querier::write_delete(element, text);
    }
    if name == b"clear".as_slice() {
        return querier::write_clear(element, text);
    }
    if name == b"reset_counts".as_slice() {
        return querier::reset_querier_drops(element, text);
    }
    querier::write_expire(element, text)
}

/// Writes a handler, by its name, of an element whose class is of the gateway package. Allocates
/// nothing.
#[tactic(auto, unfolding(crate::specs::Names::writes_of))]
pub fn write_gateway(element: Element, name: &[u8], text: &[u8]) -> Written
    requires gateway { is_gateway (class element.state) ≡ true }
    requires there { has_write (class element.state) name.now ≡ true }
    ensures { IsWriteAnswer name.now element text.now result }
{
    match &element.state {
        State::ARPQuerier { .. } => write_querier(element, name, text),
        _ => unreachable!(),
    }
}
