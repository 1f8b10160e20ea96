//! The steps of a pattern.

ghost use Rattle.std.specs.Prelude.{◌≡◌, ℕ, ◌+◌, ◌<◌, ◌≤◌, List, ◌++◌, ◌∷◌, [], length, reverse, true, cond, IfOk, IfErr};
ghost use Rattle.click_filter.specs.declared.pattern.Node.{Node};
ghost use Rattle.click_filter.specs.declared.building.ProgramError.TheVariants.{NoMemory};
ghost use Rattle.click_filter.specs.Tests.{holds};
ghost use Rattle.click_filter.specs.Trees.{Tree, truth, tests, flat};
ghost use Rattle.click_filter.specs.kept.Steps.{value, forward};

use crate::pattern::Node;
use crate::step::Step;
use crate::test::Test;
use std::alloc::{AllocError, AllocFailed};

/// The maximum number of tests in a program.
pub const MAX_TESTS: usize = 4096;

/// The target that drops a packet.
pub const DROP: u16 = 256;

/// The target that is the first step.
pub const FIRST_STEP: u16 = 257;

/// Why a program could not be made.
#[derive(Debug, Drop)]
pub enum ProgramError {
    /// There are more than 4,096 tests.
    TooManyTests,
    NoMemory,
}

impl From<AllocError> for ProgramError {
    ghost from_gives = { λ _ e. e ≡ NoMemory };

    fn from(_: AllocError) -> Self {
        ProgramError::NoMemory
    }
}

impl<T: Drop> From<AllocFailed<T>> for ProgramError {
    ghost from_gives = { λ _ e. e ≡ NoMemory };

    fn from(_: AllocFailed<T>) -> Self {
        ProgramError::NoMemory
    }
}

/// Appends a step, and returns its target. On an error the steps are unchanged.
fn push_step(steps: &mut Vec<Step>, step: Step) -> Result<u16, ProgramError>
    requires few { length steps.old.items ≤ 4096 }
    ensures ok { IfOk result (λ at. (steps.new.items ≡ steps.old.items ++ step ∷ []) × (at ≡ length steps.old.items + 257)) }
    ensures err { IfErr result (λ e. steps.new.items ≡ steps.old.items) }
    ensures full { IfErr result (λ e. e ≡ ProgramError.TooManyTests → 4096 ≤ length steps.old.items) }
    ensures few { length steps.new.items ≤ 4096 }
{
    let count = steps.len();
    if count >= MAX_TESTS {
        return Err(ProgramError::TooManyTests);
    }
    steps.push(step)?;
    Ok(FIRST_STEP + count as u16)
}

/// Returns the target to which a packet comes from this one, if the test has this outcome for it.
///
/// It is another one if the step at the target makes the same test by `is_same`.
fn past(steps: &[Step], test: Test, outcome: bool, target: u16) -> u16
    requires forward { forward (reverse steps.now) ≡ true }
    requires target { target < length steps.now + 257 }
    ensures same { (b : List ℕ) → holds test b ≡ outcome → value (reverse steps.now) result b ≡ value (reverse steps.now) target b }
    ensures within { result < length steps.now + 257 }
{
    if target < FIRST_STEP {
        return target;
    }
    let step = steps[usize::from(target - FIRST_STEP)];
    if !step.test.is_same(test) {
        return target;
    }
    if outcome { step.yes } else { step.no }
}

/// Appends the step of a test, and returns its target. `yes` and `no` are the targets for both
/// outcomes. On an error the steps are unchanged.
///
/// perf: rules in a row often begin with the same test. A packet for which it fails is led past all
/// of them, as in libpcap.
fn push_test(steps: &mut Vec<Step>, test: Test, yes: u16, no: u16) -> Result<u16, ProgramError>
    requires few { length steps.old.items ≤ 4096 }
    requires forward { forward (reverse steps.old.items) ≡ true }
    requires yes { yes < length steps.old.items + 257 }
    requires no { no < length steps.old.items + 257 }
    ensures ok { IfOk result (λ at. (length steps.new.items ≡ length steps.old.items + 1) × (at ≡ length steps.old.items + 257)
        × ((b : List ℕ) → value (reverse steps.new.items) at b ≡ cond (holds test b) (value (reverse steps.old.items) yes b) (value (reverse steps.old.items) no b))) }
    ensures full { IfErr result (λ e. e ≡ ProgramError.TooManyTests → 4096 ≤ length steps.old.items) }
    ensures few { length steps.new.items ≤ 4096 }
    ensures forward { forward (reverse steps.new.items) ≡ true }
    ensures kept { (at : ℕ) (b : List ℕ) → at < length steps.old.items + 257 → value (reverse steps.new.items) at b ≡ value (reverse steps.old.items) at b }
    ensures more { length steps.old.items ≤ length steps.new.items }
{
    let yes = past(steps.as_slice(), test, true, yes);
    let no = past(steps.as_slice(), test, false, no);
    push_step(steps, Step { test, yes, no })
}

/// Appends the steps of the pattern whose nodes end the list, and removes these nodes. Returns the
/// target at which the pattern begins. `yes` and `no` are the targets for both outcomes.
///
/// On an error further steps may have been appended.
pub fn add_part(
    nodes: &mut Vec<Node>,
    steps: &mut Vec<Step>,
    mut yes: u16,
    mut no: u16,
) -> Result<u16, ProgramError>
    requires few { length steps.old.items ≤ 4096 }
    requires forward { forward (reverse steps.old.items) ≡ true }
    requires yes { yes < length steps.old.items + 257 }
    requires no { no < length steps.old.items + 257 }
    ensures part { (t : Tree) (front : List Node) → nodes.old.items ≡ front ++ flat t → IfOk result (λ at.
        (nodes.new.items ≡ front) × (length steps.new.items ≡ length steps.old.items + tests t)
        × ((b : List ℕ) → value (reverse steps.new.items) at b ≡ cond (truth t b) (value (reverse steps.old.items) yes b) (value (reverse steps.old.items) no b))) }
    ensures full { (t : Tree) (front : List Node) → nodes.old.items ≡ front ++ flat t → IfErr result (λ e. e ≡ ProgramError.TooManyTests →
        4096 < length steps.old.items + tests t) }
    ensures target { IfOk result (λ at. at < length steps.new.items + 257) }
    ensures few { length steps.new.items ≤ 4096 }
    ensures forward { forward (reverse steps.new.items) ≡ true }
    ensures kept { (at : ℕ) (b : List ℕ) → at < length steps.old.items + 257 → value (reverse steps.new.items) at b ≡ value (reverse steps.old.items) at b }
    ensures more { length steps.old.items ≤ length steps.new.items }
    ensures fewer { length nodes.new.items ≤ length nodes.old.items }
{
    'parts: loop {
        // The nodes of a pattern do not end before its first test.
        let Some(node) = nodes.pop() else {
            return Ok(no);
        };
        match node {
            Node::Test(test) => return push_test(steps, test, yes, no),
            Node::Not => {
                let other = yes;
                yes = no;
                no = other;
            }
            Node::And => yes = add_part(nodes, steps, yes, no)?,
            Node::Or => no = add_part(nodes, steps, yes, no)?,
        }
    }
}
