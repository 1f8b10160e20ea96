//! The handler of StaticIPLookup.

ghost use Rattle.std.specs.Prelude.{◌≡◌, codes};
ghost use Rattle.click_classes.specs.State.{class};
ghost use Rattle.click_base.specs.declared.class.Class.TheVariants as is;
ghost use Rattle.click_handlers.specs.Answers.{IsReadAnswer};
ghost use Rattle.click_handlers.specs.Reads.{read_value};

use crate::fault::HandlerFault;
use crate::texts::route_text;
use click_base::trimmed;
use click_classes::{State, address};
use click_engine::Element;
use std::alloc::Global;

/// Reads `lookup`: the route of the address in the text.
///
/// It is the output of the entry with the longest prefix, and its gateway after a space; or -1 if
/// no entry matches.
pub fn read_lookup(alloc: Global, element: &Element, text: &[u8]) -> Result<Vec<u8>, HandlerFault>
    requires { class element.now.state ≡ is.StaticIPLookup }
    ensures { IsReadAnswer (read_value (codes "lookup") element.now text.now) result }
{
    let address = match address(trimmed(text)) {
        Ok(address) => address,
        Err(_) => return Err(HandlerFault::BadAddress),
    };
    match &element.state {
        State::StaticIPLookup { entries } => route_text(alloc, entries.find(address)),
        _ => unreachable!(),
    }
}
