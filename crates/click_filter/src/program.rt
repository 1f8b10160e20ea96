//! Programs, which a packet walks.

ghost use Rattle.std.specs.Prelude.{◌≡◌, ◌<◌, ◌≤◌, ◌+◌, ℕ, List, length, reverse, true, OnOk, IfOk, OnErr, IfErr, if◌then◌else◌};
ghost use Rattle.click_filter.specs.Trees.{Tree, truth, tests, flat};
ghost use Rattle.click_filter.specs.kept.Steps.{forward, action_of, value};

use crate::building::{DROP, FIRST_STEP, ProgramError, add_part};
use crate::pattern::Pattern;
use crate::rule::Action;
use crate::step::Step;
use std::alloc::Global;

/// What a list of rules does to packets, as steps that only lead forward.
///
/// No rule of the list is in it as written; `entry` is the target at which a packet begins.
#[derive(Drop)]
pub struct Program {
    steps: Vec<Step>,
    entry: u16,
    ghost few: { length steps.items ≤ 4096 },
    ghost forward: { forward (reverse steps.items) ≡ true },
    ghost begins: { entry < length steps.items + 257 },
}

impl Action {
    /// Returns the target that stands for this action.
    fn target(self) -> u16
        ensures value { action_of result ≡ self }
        ensures small { result < 257 }
    {
        match self {
            Action::Output(output) => u16::from(output),
            Action::Drop => DROP,
        }
    }

    /// Returns the action for which a target stands.
    #[inline(always)]
    fn from_target(target: u16) -> Action
        ensures { result ≡ action_of target }
    {
        if target < DROP {
            Action::Output(target as u8)
        } else {
            Action::Drop
        }
    }
}

impl Program {
    ghost use Rattle.click_filter.specs.Programs.{decides, size};

    /// Returns the program that drops every packet.
    pub(crate) fn dropping(alloc: Global) -> Self
        ensures drops { (b : List ℕ) → decides result b ≡ Action.Drop }
        ensures size { size result ≡ 0 }
    {
        Program {
            steps: Vec::new(alloc),
            entry: DROP,
        }
    }

    /// Puts a rule before all others. An error changes nothing that the program decides.
    ///
    /// Fails with `TooManyTests` if there would be more than 4,096 tests, or with `NoMemory`.
    pub(crate) fn put_first(&mut self, action: Action, pattern: Pattern) -> Result<(), ProgramError>
        ensures ok { (t : Tree) → pattern.nodes.items ≡ flat t → OnOk result ((b : List ℕ) →
            decides self.new b ≡ (if truth t b then action else decides self.old b)) }
        ensures size { (t : Tree) → pattern.nodes.items ≡ flat t → OnOk result (size self.new ≡ tests t + size self.old) }
        ensures err { OnErr result ((b : List ℕ) → decides self.new b ≡ decides self.old b) }
        ensures full { (t : Tree) → pattern.nodes.items ≡ flat t → IfErr result (λ e. e ≡ ProgramError.TooManyTests → 4096 < tests t + size self.old) }
    {
        let Pattern { mut nodes } = pattern;
        self.entry = add_part(&mut nodes, &mut self.steps, action.target(), self.entry)?;
        Ok(())
    }

    /// Returns what the rules do to a packet, whose first byte is the first of its IP header.
    ///
    /// Allocates no memory.
    #[inline]
    pub fn decide(&self, packet: &[u8]) -> Action
        ensures { result ≡ decides self.now packet.now }
    {
        let mut at = self.entry;
        'steps: while at >= FIRST_STEP {
            at = self.steps[usize::from(at - FIRST_STEP)].next(packet);
        }
        Action::from_target(at)
    }
}
