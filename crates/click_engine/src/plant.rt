//! A plant: the elements of a net, and the packet runs through them.
ghost use Rattle.std.specs.Prelude.{◌≡◌, ℕ, ◌<◌, ◌≤◌, ◌+◌, IfOk, All, vec_len, length};
ghost use Rattle.click_engine.specs.Devices.{devices_from};
ghost use Rattle.click_engine.specs.Plant.{elements_from};
ghost use Rattle.click_engine.specs.Tasks.{AreTasks};
ghost use Rattle.click_engine.specs.declared.devices.PacketDirection.TheVariants.{In, Out};
ghost use Rattle.click_engine.specs.kept.Sums.{FindsSums};
ghost use Rattle.click_engine.specs.kept.Tasks.{places_of, IsTaskIn};

use crate::circuit::Circuit;
use crate::devices::{Devices, PacketDirection};
use crate::element_names::ElementNames;
use crate::run_state::Element;
use crate::runs::{pull_packet, pull_task, push_answer, push_packet, take_one};
use crate::tasks::{Task, TaskKind, tasks_of};
use crate::transfer_stack::TransferStack;
use crate::transfers::leads_to_queue;
use click_base::Class;
use click_classes::{Side, State};
use click_packet::Packet;
use click_ports::Net;
use std::alloc::{AllocError, Global};
use std::marker::Model;
use std::mem;

/// The maximum number of crossings of one packet run.
pub const MAX_CROSSINGS: usize = 1_024;

/// The runtime form of a net: its elements, their connections and devices, and a reserved stack.
#[derive(Drop)]
pub struct Plant {
    circuit: Circuit,
    names: ElementNames,
    tasks: Vec<Task>,
    sources: Devices,
    sinks: Devices,
    transfer_stack: TransferStack,
    /// For each element, whether its output 0 is connected to a Queue.
    ///
    /// perf: a hint; it never changes the result.
    leads_to_queue: Vec<bool>,
}

impl Model for Plant {
    ghost use Rattle.std.specs.Prelude.{◌≡◌, ℕ, ◌+◌, [], length, All};
    ghost use Rattle.click_engine.specs.Plant.{Plant as Seen};
    ghost use Rattle.click_engine.specs.declared.plant.TheConstants.{MAX_CROSSINGS};
    ghost use Rattle.click_engine.specs.RunState.{but_last};
    ghost use Rattle.click_engine.specs.kept.Sums.{FindsSums};
    ghost use Rattle.click_engine.specs.kept.Tables.{AreAmong};
    ghost use Rattle.click_engine.specs.kept.Tasks.{places_of, IsTaskIn};

    ghost Value = { Seen };

    ghost view = { λ p. record {
      net = p.circuit.adjacency;
      tasks = places_of p.tasks.items;
      sources = p.sources;
      sinks = p.sinks;
      elements = but_last p.circuit.run_memory.elements.items;
      overruns = p.circuit.run_memory.overruns;
    } };

    ghost invariant = { λ p. (p.transfer_stack.frames ≡ []) × (p.transfer_stack.room ≡ MAX_CROSSINGS + 1) × FindsSums p.names p.circuit.adjacency.names
        × All (IsTaskIn p.circuit.adjacency.shapes) p.tasks.items × AreAmong (length p.circuit.adjacency.shapes) p.sources × AreAmong (length p.circuit.adjacency.shapes) p.sinks };
}

/// What a plant looks up: the tasks, the names and the devices of its elements.
#[derive(Drop)]
struct Lookups {
    tasks: Vec<Task>,
    names: ElementNames,
    sources: Devices,
    sinks: Devices,
}

/// Collects the tasks, names and devices of a net whose elements begin with these states.
///
/// proof: a function of its own, so that `Plant::new` has fewer values to drop at each failure.
fn lookups_of(alloc: Global, net: &Net, states: &[State]) -> Result<Lookups, AllocError>
    ensures tasks { IfOk result (λ t. AreTasks net.now 0 net.now.shapes (places_of t.tasks.items)) }
    ensures classes { IfOk result (λ t. All (IsTaskIn net.now.shapes) t.tasks.items) }
    ensures names { IfOk result (λ t. FindsSums t.names net.now.names) }
    ensures sources { IfOk result (λ t. t.sources ≡ devices_from In 0 states.now) }
    ensures sinks { IfOk result (λ t. t.sinks ≡ devices_from Out 0 states.now) }
{
    let tasks = tasks_of(alloc, net)?;
    let names = ElementNames::of(alloc, net)?;
    let sources = Devices::of(alloc, PacketDirection::In, states)?;
    let sinks = Devices::of(alloc, PacketDirection::Out, states)?;
    Ok(Lookups {
        tasks,
        names,
        sources,
        sinks,
    })
}

/// Returns the elements of the net with these states.
fn elements_of(alloc: Global, net: &Net, states: Vec<State>) -> Result<Vec<Element>, AllocError>
    requires { vec_len states ≡ length net.now.shapes }
    ensures { IfOk result (λ elements. elements.items ≡ elements_from net.now 0 states.items) }
{
    let mut elements = Vec::with_capacity(alloc, states.len() + 1)?;
    for state in states {
        let at = elements.len();
        elements.push(Element {
            class: state.class(),
            inputs: net.used(at, Side::Input),
            outputs: net.used(at, Side::Output),
            state,
        })?;
    }
    Ok(elements)
}

impl Plant {
    ghost use Rattle.std.specs.Prelude.{◌≡◌, ℕ, ◌<◌, ◌≤◌, ◌+◌, IsTrue, ◌↔◌, IsSome, option_map, slice_index_or, slice_set, length, IfOk, MatchOption, min, ◌-◌, ◌^◌, true, false, vec_len, nat_lt, None, Some, if◌then◌else◌};
    ghost use Rattle.std.specs.Fn.{FnOnceReturnsAt};
    ghost use Rattle.click_classes.specs.Acts.{burst_of, emission};
    ghost use Rattle.click_engine.specs.Plant.{Plant as Seen, IsStarted};
    ghost use Rattle.click_engine.specs.Rounds.{arrive, emitted, transmit, transmitted, source_of, sink_of, round, task as ran, bursts, sourced, state_at, unqueued, discarded, RoundResult};
    ghost use Rattle.click_engine.specs.declared.run_state.Element.{Element};
    ghost use Rattle.click_engine.specs.TakeOver.{place_of, taken};
    ghost use Rattle.click_engine.specs.kept.Taking.{taken_at, IsKeptBefore};
    ghost use Rattle.click_engine.specs.kept.Tasks.{class_of_task, IsTaskIn, task_apart};
    ghost use Rattle.click_engine.specs.RunState.{blank};

    /// Builds the plant of a net whose elements begin with these states, one for each, in flat
    /// order.
    ///
    /// Allocates all the memory that packet runs need.
    pub fn new(alloc: Global, net: Net, states: Vec<State>) -> Result<Plant, AllocError>
        requires { vec_len states ≡ length net.shapes }
        ensures { IfOk result (λ p. IsStarted net states.items p) }
    {
        let lookups = lookups_of(alloc, &net, states.as_slice())?;
        let elements = elements_of(alloc, &net, states)?;
        let circuit = Circuit::new(alloc, net, elements)?;
        let leads_to_queue = leads_to_queue(alloc, &circuit)?;
        let transfer_stack = TransferStack::with_room(alloc, MAX_CROSSINGS + 1)?;
        let Lookups {
            tasks,
            names,
            sources,
            sinks,
        } = lookups;
        Ok(Plant {
            circuit,
            names,
            tasks,
            sources,
            sinks,
            transfer_stack,
            leads_to_queue,
        })
    }

    /// Returns the net.
    pub fn net(&self) -> &Net
        ensures { result.now ≡ self.now.net }
    {
        self.circuit.adjacency.net()
    }

    /// Returns the number of overruns.
    pub fn overruns(&self) -> u64
        ensures { result ≡ self.now.overruns }
    {
        self.circuit.run_memory.overruns
    }

    /// Returns the number of elements.
    pub fn len(&self) -> usize
        ensures { result ≡ length self.now.elements }
    {
        self.circuit.adjacency.len()
    }

    /// Returns the index of the element with that flat name.
    pub fn place(&self, name: &[u8]) -> Option<usize>
        ensures { result ≡ place_of self.now name.now }
    {
        self.names.place(self.circuit.adjacency.net(), name)
    }

    /// Returns the element with that index.
    pub fn element(&self, at: usize) -> &Element
        requires { at < length self.now.elements }
        ensures { result.now ≡ slice_index_or self.now.elements at result.now }
    {
        &self.circuit.run_memory.elements[at]
    }

    /// Returns whether a FromDevice names the device.
    pub fn has_source(&self, device: &[u8]) -> bool
        ensures { IsTrue result ↔ IsSome (source_of self.now device.now) }
    {
        self.sources.element(device).is_some()
    }

    /// Returns whether a ToDevice names the device.
    pub fn has_sink(&self, device: &[u8]) -> bool
        ensures { IsTrue result ↔ IsSome (sink_of self.now device.now) }
    {
        self.sinks.element(device).is_some()
    }

    /// Enters a packet of a device at its FromDevice. Returns false if the device has none; the
    /// plant is unchanged then.
    pub fn enter(&mut self, device: &[u8], packet: &Packet) -> bool
        ensures plant { self.new ≡ arrive self.old device.now packet.now }
        ensures entered { IsTrue result ↔ IsSome (source_of self.old device.now) }
    {
        let Some(at) = self.sources.find_unindexed(device) else {
            return self.enter_far(device, packet);
        };
        self.enter_at(at, packet);
        true
    }

    /// Does what `enter` does if the device is not among the first ones.
    ///
    /// perf: out of line.
    #[cold]
    #[inline(never)]
    fn enter_far(&mut self, device: &[u8], packet: &Packet) -> bool
        ensures plant { self.new ≡ arrive self.old device.now packet.now }
        ensures entered { IsTrue result ↔ IsSome (source_of self.old device.now) }
    {
        let Some(at) = self.sources.element(device) else {
            return false;
        };
        self.enter_at(at, packet);
        true
    }

    /// Pushes a packet at output 0 of the element, in a packet run of its own.
    ///
    /// perf: out of line, so that the search for the device stays small.
    #[inline(never)]
    fn enter_at(&mut self, at: usize, packet: &Packet)
        requires { at < length self.old.net.shapes }
        ensures { self.new ≡ emitted self.old at packet.now }
    {
        let to_queue = self.leads_to_queue.get(at) == Some(&true);
        let circuit = &mut self.circuit;
        circuit.run_memory.left = MAX_CROSSINGS;
        push_packet(
            &circuit.adjacency,
            &mut circuit.run_memory,
            &mut self.transfer_stack,
            at,
            packet,
            to_queue,
        );
    }

    /// Pulls a packet at the ToDevice of a device. Returns `None` if the device has no ToDevice or
    /// gets no packet.
    ///
    /// perf: out of line the packet would be copied at each return.
    #[inline(always)]
    pub fn pull(&mut self, device: &[u8]) -> Option<Packet>
        ensures plant { self.new ≡ transmit self.old device.now }
        ensures packet { result ≡ transmitted self.old device.now }
    {
        let at = self.sinks.element(device)?;
        let circuit = &mut self.circuit;
        circuit.run_memory.left = MAX_CROSSINGS;
        let _answered = pull_packet(
            &circuit.adjacency,
            &mut circuit.run_memory,
            &mut self.transfer_stack,
            at,
        );
        self.transfer_stack.answer()
    }

    /// Does what `pull` does, but copies the packet into `packet`. Returns false, and leaves `packet`
    /// unchanged, if there is none.
    ///
    /// perf: only the packet's own bytes are copied, and no packet is cleared first.
    #[inline(always)]
    pub fn pull_into(&mut self, device: &[u8], packet: &mut Packet) -> bool
        ensures plant { self.new ≡ transmit self.old device.now }
        ensures packet { MatchOption (transmitted self.old device.now) ((result ≡ false) × (packet.new ≡ packet.old)) (λ p. (result ≡ true) × (packet.new ≡ p)) }
    {
        let Some(at) = self.sinks.element(device) else {
            return false;
        };
        let circuit = &mut self.circuit;
        circuit.run_memory.left = MAX_CROSSINGS;
        let _answered = pull_packet(
            &circuit.adjacency,
            &mut circuit.run_memory,
            &mut self.transfer_stack,
            at,
        );
        let Some(answer) = self.transfer_stack.lent_answer() else {
            return false;
        };
        packet.copy_from(answer);
        true
    }

    /// Does what `pull` does, but passes the packet to `f` without copying it.
    ///
    /// Returns the result of `f`. Returns `None`, and does not call `f`, if there is no packet.
    pub fn pull_with<R, F: FnOnce(&Packet) -> R>(&mut self, device: &[u8], f: F) -> Option<R>
        requires { F.IsAlwaysCallable f }
        ensures plant { self.new ≡ transmit self.old device.now }
        ensures packet { MatchOption (transmitted self.old device.now) (result ≡ None) (λ p. (r : R) × (result ≡ Some r) × FnOnceReturnsAt F.FnOnce f p r) }
    {
        let at = self.sinks.element(device)?;
        let circuit = &mut self.circuit;
        circuit.run_memory.left = MAX_CROSSINGS;
        let _answered = pull_packet(
            &circuit.adjacency,
            &mut circuit.run_memory,
            &mut self.transfer_stack,
            at,
        );
        let packet = self.transfer_stack.lent_answer()?;
        Some(f(packet))
    }

    /// Runs each task once, in flat order. Returns the number of packets that InfiniteSources
    /// emitted and that Unqueues and Discards pulled, at most 2^64 - 1.
    pub fn round(&mut self) -> u64
        ensures plant { self.new ≡ (round self.old).plant }
        ensures packets { result ≡ min (round self.old).packets (2 ^ 64 - 1) }
    {
        let mut packets: u64 = 0;
        for place in 0..self.tasks.len() {
            let task = self.tasks[place];
            packets = packets.saturating_add(self.run(task));
        }
        packets
    }

    /// Runs a task. Returns the number of packets that it emitted or pulled.
    ///
    /// perf: a single packet is pushed here, by the same code for each kind of task, after which
    /// nothing of the task is needed. So the loop over the tasks leaves a push the registers that
    /// it needs.
    #[inline(always)]
    fn run(&mut self, task: Task) -> u64
        requires { IsTaskIn self.old.net.shapes task }
        ensures plant { self.new ≡ (ran self.old task.at).plant }
        ensures packets { result ≡ (ran self.old task.at).packets }
    {
        let circuit = &mut self.circuit;
        circuit.run_memory.left = MAX_CROSSINGS;
        if !take_one(
            &circuit.adjacency,
            &mut circuit.run_memory,
            &mut self.transfer_stack,
            task,
        ) {
            return self.run_outlined(task);
        }
        push_answer(
            &circuit.adjacency,
            &mut circuit.run_memory,
            &mut self.transfer_stack,
            task.at,
            false,
        );
        1
    }

    /// Runs a task for which `take_one` returned false.
    ///
    /// It is an InfiniteSource with nothing to emit or with a burst other than one, a Discard, or
    /// an Unqueue that got no packet.
    #[inline(never)]
    fn run_outlined(&mut self, task: Task) -> u64
        requires { task.at < length self.old.net.shapes }
        ensures plant { self.new ≡ (task_apart (class_of_task task.kind) self.old task.at).plant }
        ensures packets { result ≡ (task_apart (class_of_task task.kind) self.old task.at).packets }
    {
        match task.kind {
            TaskKind::InfiniteSource => self.emit_burst(task.at),
            TaskKind::Discard => self.discard(task.at),
            TaskKind::Unqueue => 0,
        }
    }

    /// Emits packets of an InfiniteSource, up to its burst. Returns their number.
    fn emit_burst(&mut self, at: usize) -> u64
        requires { at < length self.old.net.shapes }
        ensures plant { self.new ≡ (bursts (burst_of (state_at self.old at)) at self.old).plant }
        ensures packets { result ≡ (bursts (burst_of (state_at self.old at)) at self.old).packets }
    {
        let most = self.circuit.run_memory.burst(at);
        let mut packets = 0;
        for _packet in 0..most {
            if !self.emit(at) {
                return packets;
            }
            packets += 1;
        }
        packets
    }

    /// Emits one packet of an InfiniteSource. Returns false if it has none left.
    fn emit(&mut self, at: usize) -> bool
        requires { at < length self.old.net.shapes }
        ensures { MatchOption (emission (state_at self.old at)) ((result ≡ false) × (self.new ≡ self.old))
            (λ e. (result ≡ true) × (self.new ≡ sourced self.old at e)) }
    {
        let circuit = &mut self.circuit;
        circuit.run_memory.left = MAX_CROSSINGS;
        if !self
            .transfer_stack
            .take_emission(&mut circuit.run_memory, at)
        {
            return false;
        }
        push_answer(
            &circuit.adjacency,
            &mut circuit.run_memory,
            &mut self.transfer_stack,
            at,
            true,
        );
        true
    }

    fn discard(&mut self, at: usize) -> u64
        requires { at < length self.old.net.shapes }
        ensures plant { self.new ≡ (discarded self.old at).plant }
        ensures packets { result ≡ (discarded self.old at).packets }
        ensures few { result ≤ 1 }
    {
        let circuit = &mut self.circuit;
        circuit.run_memory.left = MAX_CROSSINGS;
        let answered = pull_task(
            &circuit.adjacency,
            &mut circuit.run_memory,
            &mut self.transfer_stack,
            at,
        );
        u64::from(answered)
    }

    /// Passes the element with that index to `f`, and stores the one that `f` returns. Returns what
    /// else `f` returns.
    pub fn change<R, F: FnOnce(Element) -> (Element, R)>(&mut self, at: usize, f: F) -> R
        requires place { at < length self.old.elements }
        requires callable { F.pre f (slice_index_or self.old.elements at blank) }
        ensures { (e : Element) × F.post f (slice_index_or self.old.elements at blank) (record { 0 = e; 1 = result })
            × (self.new ≡ record self.old { elements = slice_set self.old.elements at e }) }
    {
        let spare = Element {
            class: Class::Idle,
            inputs: 0,
            outputs: 0,
            state: State::Idle,
        };
        let element = mem::replace(&mut self.circuit.run_memory.elements[at], spare);
        let (element, answer) = f(element);
        self.circuit.run_memory.elements[at] = element;
        answer
    }

    /// Takes over from the plant of the old configuration. Allocates nothing.
    ///
    /// Each element takes over from the element with its flat name and class. A Queue or
    /// FrontDropQueue takes the first packets, as many as it has room for, and a Counter the
    /// counts. A Switch takes the position if it is -1 or one of its own outputs. An ARPQuerier
    /// takes the table, the packets that wait and the counts. The number of overruns is taken over
    /// too.
    pub fn take_over(&mut self, old: &mut Plant)
        ensures { self.new ≡ taken self.old old.old }
    {
        for at in (0..self.circuit.adjacency.net().shapes().len()).rev() {
            self.take_over_at(at, old);
        }
        self.circuit.run_memory.overruns = old.circuit.run_memory.overruns;
    }

    /// Makes the element with that index take over from the one of its flat name.
    ///
    /// The old element has to keep its state only if an earlier element has the same name.
    fn take_over_at(&mut self, at: usize, old: &mut Plant)
        requires { at < length self.old.net.names }
        ensures taken { self.new ≡ taken_at self.old old.old at }
        ensures kept { IsKeptBefore self.old.net.names at old.old old.new }
    {
        let name = self.circuit.adjacency.net().name(at);
        let Some(place) = old.place(name) else {
            return;
        };
        let keeps = self.place(name) != Some(at);
        if at < self.circuit.adjacency.len() && place < old.circuit.adjacency.len() {
            let element = &mut self.circuit.run_memory.elements[at];
            let before = &mut old.circuit.run_memory.elements[place];
            element
                .state
                .take_over(element.outputs, &mut before.state, keeps);
        }
    }
}
