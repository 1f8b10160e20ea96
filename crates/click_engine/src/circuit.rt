//! A net with its connections and its elements, whose indices agree.
ghost use Rattle.std.specs.Prelude.{◌≡◌, ◌+◌, vec_len, length};

use crate::adjacency::Adjacency;
use crate::run_memory::RunMemory;
use crate::run_state::Element;
use click_base::Class;
use click_classes::State;
use click_ports::Net;
use std::alloc::{AllocError, Global};

/// The connections of a net and the state that packet runs change in its elements.
///
/// The elements are those of the net, followed by an Idle. An end without a connection leads to
/// that Idle, so each index in the tables of the connections is that of an element.
#[derive(Drop)]
pub struct Circuit {
    pub(crate) adjacency: Adjacency,
    pub(crate) run_memory: RunMemory,
    ghost count: { vec_len run_memory.elements ≡ length adjacency.shapes + 1 },
}

impl Circuit {
    ghost use Rattle.std.specs.Prelude.{◌≡◌, IfOk, vec_len, length};
    ghost use Rattle.click_engine.specs.Adjacency.{run_state_of};

    /// Builds the circuit of a net and its elements, with no crossing left and no overrun.
    pub fn new(alloc: Global, net: Net, mut elements: Vec<Element>) -> Result<Circuit, AllocError>
        requires { vec_len elements ≡ length net.shapes }
        ensures net { IfOk result (λ c. c.adjacency ≡ net) }
        ensures elements { IfOk result (λ c. run_state_of c.run_memory ≡ record { elements = elements.items; left = 0; overruns = 0 }) }
    {
        let adjacency = Adjacency::new(alloc, net)?;
        elements.push(Element {
            class: Class::Idle,
            inputs: 0,
            outputs: 0,
            state: State::Idle,
        })?;
        let run_memory = RunMemory {
            elements,
            left: 0,
            overruns: 0,
        };
        Ok(Circuit {
            adjacency,
            run_memory,
        })
    }
}
