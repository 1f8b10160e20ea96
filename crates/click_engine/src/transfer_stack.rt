//! The stack of the pushes and pulls in progress: frames whose slots are written in place.
ghost use Rattle.std.specs.Prelude.{◌≡◌, ℕ, ◌+◌, ◌-◌, ◌<◌, ◌≤◌, ◌^◌, List, [], ◌∷◌, ◌++◌, length};

use crate::adjacency::Adjacency;
use crate::copies::serve_above;
use crate::input_scan::{InputScan, ask_until_answer, move_on, waiting_frame};
use crate::run_memory::RunMemory;
use crate::slots::{copy_up, make_above, tries};
use crate::transfers::{PullResult, pull_first, pull_over, push_along, push_over, push_slot};
use click_packet::Packet;
use std::alloc::{AllocError, Global};
use std::marker::Model;

/// A push in progress: a packet, and the outputs of element `at` that still get it.
///
/// These are `count` outputs, from `first` on.
#[derive(Drop)]
pub struct PushFrame {
    pub first: usize,
    pub at: usize,
    pub count: usize,
    pub packet: Packet,
    ghost small: { first + count < 2 ^ 32 },
}

/// A pull in progress.
#[derive(Clone, Copy)]
pub enum PullFrame {
    /// Input `input` of element `at` is still to be asked; its answer is the answer of this pull.
    Pull {
        at: usize,
        input: usize,
    },
    /// Element `at` asked its input `back` last, and has `count` more to ask, from `input` on.
    Tries {
        at: usize,
        inputs: u16,
        count: u16,
        input: u16,
        back: u16,
    },
}

/// The frames of a packet run, with room for a fixed number of them.
///
/// Pushes lie above pulls. The answer of a pull is in slot 0 of `push_frames`. The first `sending`
/// slots are frames; those after them are only memory to use again.
#[derive(Drop)]
pub struct TransferStack {
    push_frames: Vec<PushFrame>,
    sending: usize,
    asks: Vec<PullFrame>,
    answered: bool,
    room: usize,
}

impl Model for TransferStack {
    ghost use Rattle.std.specs.Prelude.{◌≤◌, ◌<◌, vec_len, vec_capacity, take};
    ghost use Rattle.click_engine.specs.Frames.{TransferStack as Seen};

    ghost Value = { Seen };

    ghost use Rattle.click_engine.specs.kept.Slots.{frames_of, last_of};

    ghost view = { λ m. record {
      frames = frames_of (take m.sending m.push_frames.items) m.asks.items;
      last = last_of m.answered m.push_frames.items;
      room = m.room;
    } };

    ghost invariant = { λ m. (m.sending ≤ vec_len m.push_frames) × (0 < vec_len m.push_frames) × (m.room < vec_capacity m.push_frames)
        × (m.room ≤ vec_capacity m.asks) };
}

impl TransferStack {
    ghost use Rattle.std.specs.Prelude.{◌≡◌, ℕ, ◌+◌, ◌-◌, ◌<◌, ◌≤◌, ◌^◌, List, [], ◌∷◌, ◌++◌, length, take, vec_len, IfOk, IfSome, IsSome, IsTrue, ◌↔◌, None, Some, true, false, nat_lt, option_map, if◌then◌else◌};
    ghost use Rattle.click_engine.specs.Frames.{Frame, Sends, Pulls, Asks, IsTurn, Follows, sends_first};
    ghost use Rattle.click_engine.specs.Adjacency.{run_state_of, wiring_of};
    ghost use Rattle.click_engine.specs.RunState.{Wiring, element_at, with_state};
    ghost use Rattle.click_engine.specs.kept.Asked.{IsSmall, asks_now};
    ghost use Rattle.click_classes.specs.Acts.{burst_of, emission};
    ghost use Rattle.std.specs.Prelude.{MatchOption};

    /// Reserves a stack without frames that has room for `room` of them.
    pub fn with_room(alloc: Global, room: usize) -> Result<TransferStack, AllocError>
        requires { room < 2 ^ 62 }
        ensures { IfOk result (λ m. m ≡ record { frames = []; last = None; room = room }) }
    {
        let mut push_frames = Vec::with_capacity(alloc, room + 1)?;
        push_frames.push(PushFrame {
            at: 0,
            first: 0,
            count: 0,
            packet: Packet::empty(),
        })?;
        Ok(TransferStack {
            push_frames,
            sending: 0,
            asks: Vec::with_capacity(alloc, room)?,
            answered: false,
            room,
        })
    }

    /// Returns whether the topmost frame is a push.
    pub(crate) fn is_sending(&self) -> bool
        ensures { result ≡ sends_first self.now.frames }
    {
        self.sending > 0
    }

    /// Returns whether no frame is left.
    pub(crate) fn is_done(&self) -> bool
        ensures { IsTrue result ↔ (self.now.frames ≡ []) }
    {
        if self.sending > 0 {
            return false;
        }
        self.asks.is_empty()
    }

    /// Returns a copy of the last pull's answer.
    pub(crate) fn answer(&self) -> Option<Packet>
        ensures { result ≡ self.now.last }
    {
        if self.answered {
            Some(self.push_frames[0].packet.copy())
        } else {
            None
        }
    }

    /// Borrows the last pull's answer.
    pub(crate) fn lent_answer(&self) -> Option<&Packet>
        ensures { option_map (λ p. p.now) result ≡ self.now.last }
    {
        if self.answered {
            Some(&self.push_frames[0].packet)
        } else {
            None
        }
    }

    /// Returns whether the last pull was answered.
    pub(crate) fn is_answered(&self) -> bool
        ensures { IsTrue result ↔ IsSome self.now.last }
    {
        self.answered
    }

    /// Copies `packet` into the answer slot, from which `push_answer` pushes it.
    #[inline(always)]
    pub(crate) fn set_answer(&mut self, packet: &Packet)
        requires { self.old.frames ≡ [] }
        ensures { self.new ≡ record { frames = []; last = Some packet.now; room = self.old.room } }
    {
        self.push_frames[0].packet.copy_from(packet);
        self.answered = true;
    }

    /// Pushes the packet in the answer slot at output 0 of element `at`. Follows the push while
    /// exactly one output gets it. Returns whether a frame may be left; if not, it is complete.
    ///
    /// perf: if `outlined` is true, the push is an out-of-line call.
    #[inline(always)]
    pub(crate) fn push_answer(
        &mut self,
        adjacency: &Adjacency,
        run_memory: &mut RunMemory,
        at: usize,
        outlined: bool,
    ) -> bool
        requires done { self.old.frames ≡ [] }
        requires room { run_memory.old.left < self.old.room }
        requires circuit { vec_len run_memory.old.elements ≡ length adjacency.now.shapes + 1 }
        requires there { at < length adjacency.now.shapes }
        ensures follows { IfSome self.old.last (λ p. Follows (wiring_of adjacency.now) (run_state_of run_memory.old) (record { frames = Sends at 0 1 p ∷ []; last = None; room = self.old.room })
            (run_state_of run_memory.new) self.new) }
        ensures over { result ≡ false → self.new.frames ≡ [] }
        ensures count { vec_len run_memory.new.elements ≡ vec_len run_memory.old.elements }
    {
        self.answered = false;
        let push_frame = &mut self.push_frames[0];
        let several = push_slot(
            adjacency,
            run_memory,
            push_frame,
            adjacency.first_target(at),
            outlined,
        );
        if several {
            self.sending = 1;
        }
        several
    }

    /// Pulls at input 0 of element `at`, and asks the inputs that this leads to. Returns whether
    /// the pull was answered, if it is complete; `None` if frames may be left.
    ///
    /// perf: most pulls end at a queue at once. `outlined` makes the asking of inputs an out-of-line
    /// call, for callers that usually find a queue.
    #[inline(always)]
    pub(crate) fn start_pull(
        &mut self,
        adjacency: &Adjacency,
        run_memory: &mut RunMemory,
        at: usize,
        outlined: bool,
    ) -> Option<bool>
        requires done { self.old.frames ≡ [] }
        requires room { run_memory.old.left < self.old.room }
        requires circuit { vec_len run_memory.old.elements ≡ length adjacency.now.shapes + 1 }
        requires there { at < length adjacency.now.shapes }
        ensures follows { Follows (wiring_of adjacency.now) (run_state_of run_memory.old) (record { frames = Pulls at 0 ∷ []; last = None; room = self.old.room })
            (run_state_of run_memory.new) self.new }
        ensures over { IfSome result (λ answered. (self.new.frames ≡ []) × (IsTrue answered ↔ IsSome self.new.last)) }
        ensures count { vec_len run_memory.new.elements ≡ vec_len run_memory.old.elements }
    {
        let push_frame = &mut self.push_frames[0];
        let pull_result = pull_first(adjacency, run_memory, at, &mut push_frame.packet);
        if pull_result.count == 0 {
            self.answered = pull_result.is_answered;
            return Some(pull_result.is_answered);
        }
        let PullResult {
            at,
            inputs,
            count,
            first,
            ..
        } = pull_result;
        if outlined {
            self.ask_inputs_outlined(adjacency, run_memory, at, inputs, count, first);
            return None;
        }
        if self.ask_inputs(adjacency, run_memory, at, inputs, count, first) {
            return None;
        }
        Some(self.is_answered())
    }

    /// Asks `count` inputs of element `at`, from `first` on, to which a pull led. Returns whether
    /// frames may be left.
    ///
    /// Makes frames only for an element further on that asks inputs of its own, and for an answer
    /// that is also pushed at outputs.
    #[inline(always)]
    fn ask_inputs(
        &mut self,
        adjacency: &Adjacency,
        run_memory: &mut RunMemory,
        at: usize,
        inputs: u16,
        count: u16,
        first: u16,
    ) -> bool
        requires done { self.old.frames ≡ [] }
        requires room { run_memory.old.left < self.old.room }
        requires some { 0 < count }
        requires circuit { vec_len run_memory.old.elements ≡ length adjacency.now.shapes + 1 }
        requires there { at < vec_len run_memory.old.elements }
        ensures follows { Follows (wiring_of adjacency.now) (run_state_of run_memory.old)
            (record { frames = Asks at inputs count first 0 ∷ []; last = None; room = self.old.room }) (run_state_of run_memory.new) self.new }
        ensures over { result ≡ false → self.new.frames ≡ [] }
        ensures count { vec_len run_memory.new.elements ≡ vec_len run_memory.old.elements }
    {
        let mut input_scan = InputScan {
            at,
            inputs: inputs as usize,
            count: count as usize,
            input: first as usize,
            back: 0,
        };
        let push_frame = &mut self.push_frames[0];
        let further = ask_until_answer(
            adjacency,
            run_memory,
            &mut input_scan,
            &mut push_frame.packet,
        );
        if further.is_answered {
            let given = run_memory.gives(
                input_scan.at,
                input_scan.back as u16,
                &mut push_frame.packet,
            );
            self.answered = given.answers;
            if given.copies.count > 0 {
                push_frame.at = input_scan.at;
                push_frame.first = given.copies.first as usize;
                push_frame.count = given.copies.count as usize;
                self.sending = 1;
                return true;
            }
            return false;
        }
        self.answered = false;
        if further.count > 0 {
            let _waiting = self.asks.push(waiting_frame(input_scan));
            let _made = self.asks.push(tries(further));
            return true;
        }
        false
    }

    /// Does what `ask_inputs` does, out of line.
    #[inline(never)]
    fn ask_inputs_outlined(
        &mut self,
        adjacency: &Adjacency,
        run_memory: &mut RunMemory,
        at: usize,
        inputs: u16,
        count: u16,
        first: u16,
    )
        requires done { self.old.frames ≡ [] }
        requires room { run_memory.old.left < self.old.room }
        requires some { 0 < count }
        requires circuit { vec_len run_memory.old.elements ≡ length adjacency.now.shapes + 1 }
        requires there { at < vec_len run_memory.old.elements }
        ensures follows { Follows (wiring_of adjacency.now) (run_state_of run_memory.old)
            (record { frames = Asks at inputs count first 0 ∷ []; last = None; room = self.old.room }) (run_state_of run_memory.new) self.new }
        ensures count { vec_len run_memory.new.elements ≡ vec_len run_memory.old.elements }
    {
        let _waits = self.ask_inputs(adjacency, run_memory, at, inputs, count, first);
    }

    /// Puts the first packet that an InfiniteSource emits in its task into the answer slot.
    ///
    /// Returns the source's burst: the maximum number of packets that its task emits. Returns 0 if
    /// it emits none; the slot has no answer then.
    #[inline(always)]
    pub(crate) fn take_first_emission(&mut self, run_memory: &mut RunMemory, at: usize) -> u8
        requires done { self.old.frames ≡ [] }
        requires there { at < vec_len run_memory.old.elements }
        ensures left { run_memory.new.left ≡ run_memory.old.left }
        ensures emitted { (let s = (element_at (run_state_of run_memory.old) at).state in MatchOption (if nat_lt 0 (burst_of s) then emission s else None)
            ((result ≡ 0) × (run_state_of run_memory.new ≡ run_state_of run_memory.old) × (self.new ≡ record { frames = []; last = None; room = self.old.room }))
            (λ e. (result ≡ burst_of s) × (run_state_of run_memory.new ≡ with_state (run_state_of run_memory.old) at e.state)
            × (self.new ≡ record { frames = []; last = Some e.packet; room = self.old.room }))) }
        ensures count { vec_len run_memory.new.elements ≡ vec_len run_memory.old.elements }
    {
        let push_frame = &mut self.push_frames[0];
        let most = run_memory.emit_first(at, &mut push_frame.packet);
        self.answered = most > 0;
        most
    }

    /// Makes the next packet of an InfiniteSource the last pull's answer. Returns false if it emits
    /// none; there is no answer then.
    pub(crate) fn take_emission(&mut self, run_memory: &mut RunMemory, at: usize) -> bool
        requires done { self.old.frames ≡ [] }
        requires there { at < vec_len run_memory.old.elements }
        ensures left { run_memory.new.left ≡ run_memory.old.left }
        ensures emitted { MatchOption (emission (element_at (run_state_of run_memory.old) at).state)
            ((result ≡ false) × (run_state_of run_memory.new ≡ run_state_of run_memory.old) × (self.new ≡ record { frames = []; last = None; room = self.old.room }))
            (λ s. (result ≡ true) × (run_state_of run_memory.new ≡ with_state (run_state_of run_memory.old) at s.state)
            × (self.new ≡ record { frames = []; last = Some s.packet; room = self.old.room })) }
        ensures count { vec_len run_memory.new.elements ≡ vec_len run_memory.old.elements }
    {
        let push_frame = &mut self.push_frames[0];
        self.answered = run_memory.emit(at, &mut push_frame.packet);
        self.answered
    }

    /// Pushes the topmost packet on, and copies of it, up to a copy that several outputs get. Does
    /// nothing if no push is on top.
    ///
    /// perf: inline, because most callers know what is on top.
    #[inline(always)]
    pub(crate) fn run_pushes(&mut self, adjacency: &Adjacency, run_memory: &mut RunMemory)
        requires room { length self.old.frames + run_memory.old.left ≤ self.old.room }
        requires circuit { vec_len run_memory.old.elements ≡ length adjacency.now.shapes + 1 }
        ensures follows { Follows (wiring_of adjacency.now) (run_state_of run_memory.old) self.old (run_state_of run_memory.new) self.new }
        ensures count { vec_len run_memory.new.elements ≡ vec_len run_memory.old.elements }
    {
        self.push_last(adjacency, run_memory);
        if self.sending > 0 {
            self.push_rest(adjacency, run_memory);
        }
    }

    #[inline(never)]
    fn push_rest(&mut self, adjacency: &Adjacency, run_memory: &mut RunMemory)
        requires room { length self.old.frames + run_memory.old.left ≤ self.old.room }
        requires circuit { vec_len run_memory.old.elements ≡ length adjacency.now.shapes + 1 }
        ensures follows { Follows (wiring_of adjacency.now) (run_state_of run_memory.old) self.old (run_state_of run_memory.new) self.new }
        ensures count { vec_len run_memory.new.elements ≡ vec_len run_memory.old.elements }
    {
        self.push_copies(adjacency, run_memory);
        self.push_last(adjacency, run_memory);
    }

    /// Pushes copies of the topmost packet at all outputs that still get it, except the last.
    ///
    /// Stops early at a copy that several outputs are to get. Does nothing if no push is on top or
    /// fewer than two outputs are left.
    #[inline(always)]
    fn push_copies(&mut self, adjacency: &Adjacency, run_memory: &mut RunMemory)
        requires room { length self.old.frames + run_memory.old.left ≤ self.old.room }
        requires circuit { vec_len run_memory.old.elements ≡ length adjacency.now.shapes + 1 }
        ensures follows { Follows (wiring_of adjacency.now) (run_state_of run_memory.old) self.old (run_state_of run_memory.new) self.new }
        ensures count { vec_len run_memory.new.elements ≡ vec_len run_memory.old.elements }
    {
        if self.sending == 0 {
            return;
        }
        let top = self.sending - 1;
        if self.push_frames[top].count < 2 {
            return;
        }
        make_above(&mut self.push_frames, top);
        serve_above(adjacency, run_memory, &mut self.push_frames, top);
        if self.push_frames[top + 1].count > 0 {
            self.sending = top + 2;
        }
    }

    /// Pushes the topmost packet on while exactly one output gets it.
    ///
    /// Does nothing if no push is on top, several outputs are left, or an answer is in the slot.
    #[inline(always)]
    fn push_last(&mut self, adjacency: &Adjacency, run_memory: &mut RunMemory)
        requires room { length self.old.frames + run_memory.old.left ≤ self.old.room }
        requires circuit { vec_len run_memory.old.elements ≡ length adjacency.now.shapes + 1 }
        ensures follows { Follows (wiring_of adjacency.now) (run_state_of run_memory.old) self.old (run_state_of run_memory.new) self.new }
        ensures count { vec_len run_memory.new.elements ≡ vec_len run_memory.old.elements }
    {
        if self.sending == 0 {
            return;
        }
        let top = self.sending - 1;
        // An answer lies in slot 0, so that slot must not be overwritten.
        if top == 0 && self.answered {
            return;
        }
        if self.push_frames[top].count > 1 {
            return;
        }
        let push_frame = &mut self.push_frames[top];
        push_along(adjacency, run_memory, push_frame);
        if push_frame.count == 0 {
            self.sending = top;
        }
    }

    /// Makes one engine turn if a push is on top.
    pub(crate) fn turn_push(&mut self, adjacency: &Adjacency, run_memory: &mut RunMemory)
        requires some { sends_first self.old.frames ≡ true }
        requires room { length self.old.frames + run_memory.old.left ≤ self.old.room }
        requires circuit { vec_len run_memory.old.elements ≡ length adjacency.now.shapes + 1 }
        ensures turn { IsTurn (wiring_of adjacency.now) (run_state_of run_memory.old) self.old (run_state_of run_memory.new) self.new }
        ensures count { vec_len run_memory.new.elements ≡ vec_len run_memory.old.elements }
    {
        let top = self.sending - 1;
        let push_frame = &mut self.push_frames[top];
        let at = push_frame.at;
        let output = push_frame.first;
        if push_frame.count == 1 && (!self.answered || top > 0) {
            // The last output takes the packet in its slot, without a copy.
            push_over(adjacency, run_memory, at, output, push_frame);
            if push_frame.count > 0 {
                return;
            }
            self.sending = top;
            return;
        }
        if push_frame.count == 0 {
            self.sending = top;
            return;
        }
        push_frame.first += 1;
        push_frame.count -= 1;
        copy_up(&mut self.push_frames, top);
        let above = &mut self.push_frames[top + 1];
        push_over(adjacency, run_memory, at, output, above);
        if above.count > 0 {
            self.sending = top + 2;
        }
    }

    /// Makes one engine turn if no push is on top.
    pub(crate) fn turn_pull(&mut self, adjacency: &Adjacency, run_memory: &mut RunMemory)
        requires none { sends_first self.old.frames ≡ false }
        requires some { 0 < length self.old.frames }
        requires room { length self.old.frames + run_memory.old.left ≤ self.old.room }
        requires circuit { vec_len run_memory.old.elements ≡ length adjacency.now.shapes + 1 }
        ensures turn { IsTurn (wiring_of adjacency.now) (run_state_of run_memory.old) self.old (run_state_of run_memory.new) self.new }
        ensures count { vec_len run_memory.new.elements ≡ vec_len run_memory.old.elements }
    {
        let top = self.asks.len() - 1;
        match self.asks[top] {
            PullFrame::Pull { at, input } => {
                self.turn_waiting(adjacency, run_memory, at, input);
            }
            PullFrame::Tries {
                at,
                inputs,
                count,
                input,
                back,
            } => {
                let input_scan = InputScan {
                    at,
                    inputs: inputs as usize,
                    count: count as usize,
                    input: input as usize,
                    back: back as usize,
                };
                if self.answered {
                    self.turn_answered(run_memory, input_scan);
                } else if count == 0 {
                    self.asks.truncate(top);
                } else {
                    self.turn_asking(adjacency, run_memory, input_scan);
                }
            }
        }
    }

    /// Makes one engine turn if the topmost pull has not asked its input yet. The frame that this
    /// leads to replaces the pull, or the pull ends.
    #[inline(always)]
    fn turn_waiting(
        &mut self,
        adjacency: &Adjacency,
        run_memory: &mut RunMemory,
        at: usize,
        input: usize,
    )
        requires top { take 1 self.old.frames ≡ Pulls at input ∷ [] }
        requires room { length self.old.frames + run_memory.old.left ≤ self.old.room }
        requires circuit { vec_len run_memory.old.elements ≡ length adjacency.now.shapes + 1 }
        ensures turn { IsTurn (wiring_of adjacency.now) (run_state_of run_memory.old) self.old (run_state_of run_memory.new) self.new }
        ensures count { vec_len run_memory.new.elements ≡ vec_len run_memory.old.elements }
    {
        let top = self.asks.len() - 1;
        let push_frame = &mut self.push_frames[0];
        let pull_result = pull_over(adjacency, run_memory, at, input, &mut push_frame.packet);
        self.answered = pull_result.is_answered;
        if pull_result.count > 0 {
            self.asks[top] = tries(pull_result);
        } else {
            self.asks.truncate(top);
        }
    }

    /// Makes one engine turn if the topmost element got a packet from the input that it asked last.
    /// Its frame ends, with what the element makes of the packet.
    #[inline(always)]
    fn turn_answered(&mut self, run_memory: &mut RunMemory, input_scan: InputScan)
        requires top { take 1 self.old.frames ≡ asks_now input_scan ∷ [] }
        requires small { IsSmall input_scan }
        requires answered { IsSome self.old.last }
        requires room { length self.old.frames + run_memory.old.left ≤ self.old.room }
        ensures turn { (net : Wiring) → IsTurn net (run_state_of run_memory.old) self.old (run_state_of run_memory.new) self.new }
        ensures count { vec_len run_memory.new.elements ≡ vec_len run_memory.old.elements }
    {
        let top = self.asks.len() - 1;
        let push_frame = &mut self.push_frames[0];
        // proof: no type says that the index of a frame is that of an element.
        let at = run_memory.clamped(input_scan.at);
        let given = run_memory.gives(at, input_scan.back as u16, &mut push_frame.packet);
        self.answered = given.answers;
        self.asks.truncate(top);
        if given.copies.count > 0 {
            push_frame.at = input_scan.at;
            push_frame.first = given.copies.first as usize;
            push_frame.count = given.copies.count as usize;
            self.sending = 1;
        }
    }

    /// Makes one engine turn if the topmost element asks a further input.
    ///
    /// It got no packet from the input that it asked last. The frame that the further input leads
    /// to is placed above it.
    #[inline(always)]
    fn turn_asking(
        &mut self,
        adjacency: &Adjacency,
        run_memory: &mut RunMemory,
        mut input_scan: InputScan,
    )
        requires top { take 1 self.old.frames ≡ asks_now input_scan ∷ [] }
        requires small { IsSmall input_scan }
        requires more { 0 < input_scan.count }
        requires unanswered { self.old.last ≡ None }
        requires room { length self.old.frames + run_memory.old.left ≤ self.old.room }
        requires circuit { vec_len run_memory.old.elements ≡ length adjacency.now.shapes + 1 }
        ensures turn { IsTurn (wiring_of adjacency.now) (run_state_of run_memory.old) self.old (run_state_of run_memory.new) self.new }
        ensures count { vec_len run_memory.new.elements ≡ vec_len run_memory.old.elements }
    {
        let top = self.asks.len() - 1;
        let push_frame = &mut self.push_frames[0];
        let pull_result = pull_over(
            adjacency,
            run_memory,
            input_scan.at,
            input_scan.input,
            &mut push_frame.packet,
        );
        self.answered = pull_result.is_answered;
        move_on(&mut input_scan);
        self.asks[top] = waiting_frame(input_scan);
        if pull_result.count > 0 {
            let _made = self.asks.push(tries(pull_result));
        }
    }
}
