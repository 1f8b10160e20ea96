//! The kinds of ports: which are push and which are pull.

ghost use Rattle.std.specs.Prelude.{length, IfOk};
ghost use Rattle.click_classes.specs.declared.ports.Code.TheVariants.{Push, Pull};
ghost use Rattle.click_ports.specs.kept.Ends.{AreFarEnds};
ghost use Rattle.click_ports.specs.kept.Marks.{AreMarks, AreCodes};
ghost use Rattle.click_ports.specs.kept.Wiring.{AreWithin};

use crate::internal_links::all_internal_links;
use crate::layout::Layout;
use crate::row::Row;
use crate::search::ports_reaching;
use click_classes::Code;
use std::alloc::{AllocError, Global};

/// Whether each port reaches a push port, and whether it reaches a pull port.
#[derive(Drop)]
pub struct Kinds {
    pub pushes: Vec<bool>,
    pub pulls: Vec<bool>,
}

/// Returns the code of each port, or fails with out of memory.
fn codes_of(alloc: Global, layout: &Layout) -> Result<Vec<Code>, AllocError>
    ensures codes { IfOk result (λ codes. AreCodes layout.now codes.items) }
    ensures within { AreWithin (length layout.now.shapes) layout.now.connections }
{
    let mut codes = Vec::with_capacity(alloc, layout.ports().len())?;
    for port in layout.ports() {
        codes.push(layout.code(*port))?;
    }
    Ok(codes)
}

/// Returns the kinds of all ports, from the other ends of their connections.
pub fn kinds_of(alloc: Global, layout: &Layout, ends: &[Row]) -> Result<Kinds, AllocError>
    requires { AreFarEnds layout.now ends.now }
    ensures pushes { IfOk result (λ kinds. AreMarks layout.now Push kinds.pushes.items) }
    ensures pulls { IfOk result (λ kinds. AreMarks layout.now Pull kinds.pulls.items) }
{
    let all_codes = codes_of(alloc, layout)?;
    let all_inside = all_internal_links(alloc, layout)?;
    let codes = all_codes.as_slice();
    let inside = all_inside.as_slice();
    let pushes = ports_reaching(alloc, codes, ends, inside, Code::Push)?;
    let pulls = ports_reaching(alloc, codes, ends, inside, Code::Pull)?;
    Ok(Kinds { pushes, pulls })
}
