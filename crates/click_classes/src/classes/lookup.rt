//! The class that looks up routes: StaticIPLookup.

ghost use Rattle.click_classes.specs.Made.{static_ip_lookup, ByWords};
ghost use Rattle.click_classes.specs.Steps.{OrNoMemory};

use crate::arguments::Arguments;
use crate::fault::ArgFault;
use crate::routes::Routes;
use crate::state::State;
use crate::values::entry::read_table;
use std::alloc::Global;

/// `StaticIPLookup(ENTRY, ..)` routes packets by their destination.
///
/// - Arguments: 0 to 1,024 entries `PREFIX [GATEWAY] OUTPUT`, each with a different prefix. GATEWAY
///   is an address, and OUTPUT a number from 0 to 255.
/// - Ports: one push input; push outputs, at least the greatest OUTPUT + 1 and at most 256.
/// - The entry of a destination is the one with the longest prefix that contains it. The packet
///   goes to the OUTPUT of its entry, and a GATEWAY becomes its destination, even 0.0.0.0. A packet
///   without an entry is dropped.
/// - Read handlers: `lookup`, which takes an address (not an address). It returns the output of the
///   address's entry, then a space and the gateway if the entry has one. It returns -1 without an
///   entry.
/// - Write handlers: none.
///
/// ```click
/// FromDevice(a) -> rt :: StaticIPLookup(0.0.0.0/0 0, 10.0.0.0/8 10.9.9.9 1); rt -> Discard;
/// rt [1] -> Discard;
/// ```
///
/// ```calls
/// FromDevice(a) -> GetIPAddress(0)
/// -> rt :: StaticIPLookup(0.0.0.0/0 0, 10.0.0.0/8 1, 10.1.0.0/16 10.9.9.9 2);
/// rt -> Queue -> ToDevice(x); rt [1] -> Queue -> ToDevice(y); rt [2] -> Queue -> ToDevice(z);
/// FromDevice(b) -> StaticIPLookup(10.0.0.0/8 0) -> c :: Counter -> Discard;
/// > poll a 0a010203,0a020001,ffffffff
/// entered 3
/// > transmit x
/// sent ffffffff 0 255.255.255.255
/// > transmit x
/// sent none
/// > transmit y
/// sent 0a020001 0 10.2.0.1
/// > transmit y
/// sent none
/// > transmit z
/// sent 0a010203 0 10.9.9.9
/// > transmit z
/// sent none
/// > arrive b 78
/// entered 1
/// > read c.count
/// value 30
/// ```
#[tactic(auto, unfolding(crate::specs::Made::static_ip_lookup))]
pub fn make_static_ip_lookup(alloc: Global, arguments: &Arguments) -> Result<State, ArgFault>
    ensures { OrNoMemory (ByWords 0 1024 static_ip_lookup arguments.now) result }
{
    if !arguments.are(0, 1_024) {
        return Err(ArgFault::ArgumentCount);
    }
    let words = arguments.words(alloc)?;
    let table = read_table(alloc, words.as_slice())?;
    let entries = Routes::of(alloc, table)?;
    Ok(State::StaticIPLookup { entries })
}
