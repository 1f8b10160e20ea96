//! The order of connections.

ghost use Rattle.std.specs.Prelude.{◌↔◌, Contains};
ghost use Rattle.click_expand.specs.declared.flat.Connection.{Connection};
ghost use Rattle.click_expand.specs.Flat.{AreOrdered};

use crate::flat::Connection;

/// Returns the connections in order, without repetition.
pub fn in_order(mut connections: Vec<Connection>) -> Vec<Connection>
    ensures order { AreOrdered result.items }
    ensures same { (c : Connection) → Contains result.items c ↔ Contains connections.items c }
{
    connections.sort_unstable();
    connections.dedup();
    connections
}
