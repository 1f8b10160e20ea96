//! The state that a packet run changes.
ghost use Rattle.click_engine.specs.RunState.{EndsBlank};

use crate::run_state::{ConnectionEnd, Element, act_at, burst_of};
use crate::transfers::{ANSWERED, PullResult};
use click_classes::{PortRange, PullOutcome};
use click_packet::Packet;

/// The state that a packet run changes: the elements, the crossings left and the overruns.
///
/// The last item of `elements` is no element of the net but an Idle without ports. An end that is
/// not connected leads to it. It drops what it gets and never has a packet.
#[derive(Drop)]
pub struct RunMemory {
    pub elements: Vec<Element>,
    pub left: usize,
    pub overruns: u64,
    ghost blank: { EndsBlank elements.items },
}

impl RunMemory {
    ghost use Rattle.std.specs.Prelude.{◌≡◌, ℕ, ◌<◌, ◌≤◌, ◌+◌, ◌-◌, min, vec_len, MatchOption, IfSome, None, Some, true, false};
    ghost use Rattle.click_classes.specs.Acts.{act, tries, stored, emission, burst_of, gives};
    ghost use Rattle.click_engine.specs.RunState.{element_at, with_state, overrun, spent, Acts, GivesOut};
    ghost use Rattle.click_engine.specs.kept.Transfers.{EmitsFirst, ReachesIn};
    ghost use Rattle.click_engine.specs.Adjacency.{run_state_of};

    pub(crate) fn overrun(&mut self)
        ensures overrun { run_state_of self.new ≡ overrun (run_state_of self.old) }
        ensures count { vec_len self.new.elements ≡ vec_len self.old.elements }
    {
        self.overruns = self.overruns.saturating_add(1);
    }

    pub(crate) fn spend(&mut self)
        requires { 0 < self.old.left }
        ensures spent { run_state_of self.new ≡ spent (run_state_of self.old) }
        ensures count { vec_len self.new.elements ≡ vec_len self.old.elements }
    {
        self.left -= 1;
    }

    #[inline(always)]
    pub(crate) fn act(&mut self, at: usize, input: u16, packet: &mut Packet) -> PortRange
        requires { at < vec_len self.old.elements }
        ensures acts { Acts (run_state_of self.old) (run_state_of self.new) at input packet.old packet.new result }
        ensures count { vec_len self.new.elements ≡ vec_len self.old.elements }
    {
        act_at(self.elements.as_mut_slice(), at, input, packet)
    }

    /// Stores a copy of `packet` if element `at` is a Queue. Returns false, and changes nothing, if
    /// it is not.
    #[inline(always)]
    pub(crate) fn store(&mut self, at: usize, packet: &Packet) -> bool
        requires { at < vec_len self.old.elements }
        ensures left { self.new.left ≡ self.old.left }
        ensures stored { result ≡ true → (input : ℕ) → Acts (run_state_of self.old) (run_state_of self.new) at input packet.now packet.now (record { first = 0; count = 0 }) }
        ensures other { result ≡ false → run_state_of self.new ≡ run_state_of self.old }
        ensures count { vec_len self.new.elements ≡ vec_len self.old.elements }
    {
        let element = &mut self.elements[at];
        element.state.store(packet)
    }

    /// Returns the result of a pull at the output `far`. It is the packet that the element has
    /// stored, which is in `packet` then, or the inputs that the element asks.
    #[inline(always)]
    pub(crate) fn reach(&mut self, far: ConnectionEnd, packet: &mut Packet) -> PullResult
        requires { far.element < vec_len self.old.elements }
        ensures reaches { ReachesIn (run_state_of self.old) (run_state_of self.new) far packet.new result }
        ensures within { result.at < vec_len self.old.elements }
        ensures count { vec_len self.new.elements ≡ vec_len self.old.elements }
    {
        let element = &mut self.elements[far.element];
        if element.state.take_stored(packet) {
            return ANSWERED;
        }
        let tries = element.state.tries(element.inputs, far.port);
        PullResult {
            is_answered: false,
            at: far.element,
            inputs: element.inputs,
            count: tries.count,
            first: tries.first,
        }
    }

    /// Returns the number of packets that the task of element `at` emits at most. Returns 0 if it
    /// is not an InfiniteSource.
    #[inline(always)]
    pub(crate) fn burst(&self, at: usize) -> u8
        requires { at < vec_len self.now.elements }
        ensures { result ≡ burst_of (element_at (run_state_of self.now) at).state }
    {
        burst_of(&self.elements[at].state)
    }

    /// Makes `packet` the first one that an InfiniteSource emits in its task. Returns the source's
    /// burst, or 0, and changes nothing, if it emits none.
    #[inline(always)]
    pub(crate) fn emit_first(&mut self, at: usize, packet: &mut Packet) -> u8
        requires { at < vec_len self.old.elements }
        ensures left { self.new.left ≡ self.old.left }
        ensures emitted { EmitsFirst (run_state_of self.old) (run_state_of self.new) at packet.new result }
        ensures count { vec_len self.new.elements ≡ vec_len self.old.elements }
    {
        let element = &mut self.elements[at];
        element.state.emit_first(packet)
    }

    /// Makes `packet` the next one that an InfiniteSource emits. Returns false, and changes
    /// nothing, if it emits none.
    pub(crate) fn emit(&mut self, at: usize, packet: &mut Packet) -> bool
        requires { at < vec_len self.old.elements }
        ensures left { self.new.left ≡ self.old.left }
        ensures emitted { MatchOption (emission (element_at (run_state_of self.old) at).state)
            ((result ≡ false) × (run_state_of self.new ≡ run_state_of self.old))
            (λ s. (result ≡ true) × (s.packet ≡ packet.new) × (run_state_of self.new ≡ with_state (run_state_of self.old) at s.state)) }
        ensures count { vec_len self.new.elements ≡ vec_len self.old.elements }
    {
        let element = &mut self.elements[at];
        element.state.emit(packet)
    }

    /// Returns `at`, or the index of the last item if `at` is past it.
    pub(crate) fn clamped(&self, at: usize) -> usize
        ensures { result ≡ min at (vec_len self.now.elements - 1) }
    {
        at.min(self.elements.len() - 1)
    }

    #[inline(always)]
    pub(crate) fn gives(&mut self, at: usize, input: u16, packet: &mut Packet) -> PullOutcome
        requires { at < vec_len self.old.elements }
        ensures gives { GivesOut (run_state_of self.old) (run_state_of self.new) at input packet.old packet.new result.copies result.answers }
        ensures count { vec_len self.new.elements ≡ vec_len self.old.elements }
    {
        let element = &mut self.elements[at];
        element
            .state
            .gives(element.inputs, element.outputs, input, packet)
    }
}
