//! The patterns of a Classifier, prepared for matching.

ghost use Rattle.std.specs.Prelude.{◌≡◌, ◌≤◌, ◌<◌, ◌+◌, ◌^◌, ◌&&◌, ℕ, List, nat_le, length, drop, IfOk, IfSome};
ghost use Rattle.std.specs.List.{list_all};
ghost use Rattle.click_classes.specs.Acts.{classified};
ghost use Rattle.click_classes.specs.kept.Masks.{word, at_place, behind, fits, step_holds, test_holds, tests_hold, first_matching, IsStep, AreSteps, IsTest, AreTests, ArePatternTests};

use crate::values::pattern::{Clause, Pattern};
use click_base::sequence::Sequence;
use std::alloc::{AllocError, Global};
use std::marker::Model;

/// A condition on eight bytes of a packet.
///
/// The packet must have at least `end` bytes, and the eight bytes at offset `at`, as a number, must
/// be `value` in each bit of the mask.
#[derive(Clone, Copy, Debug, PartialEq, Eq)]
struct Step {
    at: usize,
    end: usize,
    mask: u64,
    value: u64,
}

/// The condition of a clause: all its steps hold, or, if it is negated, one does not.
#[derive(Drop)]
struct Test {
    negated: bool,
    first: Step,
    rest: Sequence<Step>,
}

/// The tests of a pattern, with a step that holds whenever all tests do.
///
/// perf: most packets are rejected by this step alone.
#[derive(Drop)]
struct PatternTests {
    head: Step,
    tests: Sequence<Test>,
}

/// The patterns as written, and the tests of each.
#[derive(Drop)]
pub struct Patterns {
    written: Sequence<Pattern>,
    ready: Sequence<PatternTests>,
}

/// A step that holds of every packet.
const ANY: Step = Step {
    at: 0,
    end: 0,
    mask: 0,
    value: 0,
};

impl Model for Patterns {
    ghost use Rattle.std.specs.Prelude.{List};
    ghost use Rattle.std.specs.List.{AllZip};
    ghost use Rattle.click_classes.specs.declared.values.pattern.Pattern.{Pattern};
    ghost use Rattle.click_classes.specs.kept.Masks.{ArePatternTests};

    ghost Value = { List Pattern };

    ghost view = { λ p. p.written };

    ghost invariant = { λ p. AllZip ArePatternTests p.written p.ready };
}

/// Returns the byte at index `at` of `lead` zeros followed by `bytes`, or 0 after their end.
fn byte_behind(bytes: &[u8], lead: usize, at: usize) -> u8
    ensures { result ≡ behind lead bytes.now at }
{
    if lead <= at && at - lead < bytes.len() {
        bytes[at - lead]
    } else {
        0
    }
}

/// Returns the first eight bytes of `lead` zeros followed by `bytes`, as a number.
///
/// Bytes after the end are 0.
#[tactic(auto, unfolding(crate::specs::kept::Masks::word))]
#[inline(never)]
fn word_behind(bytes: &[u8], lead: usize) -> u64
    ensures { result ≡ word (behind lead bytes.now) 8 }
{
    u64::from_le_bytes([
        byte_behind(bytes, lead, 0),
        byte_behind(bytes, lead, 1),
        byte_behind(bytes, lead, 2),
        byte_behind(bytes, lead, 3),
        byte_behind(bytes, lead, 4),
        byte_behind(bytes, lead, 5),
        byte_behind(bytes, lead, 6),
        byte_behind(bytes, lead, 7),
    ])
}

/// Returns the eight bytes at offset `at` as a number.
#[tactic(auto, unfolding(crate::specs::kept::Masks::word))]
#[inline(always)]
fn word_at(bytes: &[u8], at: usize) -> u64
    requires { at + 8 ≤ length bytes.now }
    ensures { result ≡ word (at_place at bytes.now) 8 }
{
    u64::from_le_bytes([
        bytes[at],
        bytes[at + 1],
        bytes[at + 2],
        bytes[at + 3],
        bytes[at + 4],
        bytes[at + 5],
        bytes[at + 6],
        bytes[at + 7],
    ])
}

/// Returns the step for up to eight bytes of a clause, which the packet must have at the offset.
fn step_of(offset: usize, value: &[u8], mask: &[u8]) -> Step
    requires same { length value.now ≡ length mask.now }
    requires few { length value.now ≤ 8 }
    requires fits { offset + 8 < 2 ^ 64 }
    ensures { IsStep offset value.now mask.now result }
{
    let end = if value.is_empty() {
        0
    } else {
        offset + value.len()
    };
    let at = end.saturating_sub(8);
    let mask = word_behind(mask, offset - at);
    Step {
        at,
        end,
        mask,
        value: word_behind(value, offset - at) & mask,
    }
}

/// Returns the steps for the bytes of a clause from index `from` on.
fn steps_of(
    alloc: Global,
    offset: usize,
    value: &[u8],
    mask: &[u8],
    from: usize,
) -> Result<Sequence<Step>, AllocError>
    requires { offset < 2 ^ 16 }
    ensures { IfOk result (λ steps. AreSteps (offset + from) (drop from value.now) (drop from mask.now) steps) }
{
    let len = value.len().min(mask.len());
    let mut steps = Sequence::new(alloc);
    let mut at = from;
    while at < len {
        let end = at + (len - at).min(8);
        steps.push(step_of(offset + at, &value[at..end], &mask[at..end]))?;
        at = end;
    }
    Ok(steps)
}

/// Returns the test of a clause.
fn test_of(alloc: Global, clause: &Clause) -> Result<Test, AllocError>
    ensures { IfOk result (λ test. IsTest clause.now test) }
{
    let offset = usize::from(clause.offset);
    let value = clause.value.as_slice();
    let mask = clause.mask.as_slice();
    let end = value.len().min(mask.len()).min(8);
    Ok(Test {
        negated: clause.negated,
        first: step_of(offset, &value[..end], &mask[..end]),
        rest: steps_of(alloc, offset, value, mask, end)?,
    })
}

/// Returns the tests of a pattern, with that of its last clause first.
///
/// perf: the first clauses of patterns are often the same.
fn tests_of(alloc: Global, pattern: &Pattern) -> Result<Sequence<Test>, AllocError>
    ensures { IfOk result (λ tests. AreTests pattern.now tests) }
{
    let clauses = pattern.clauses.as_slice();
    let mut tests = Sequence::new(alloc);
    let mut at = clauses.len();
    while at > 0 {
        at -= 1;
        tests.push(test_of(alloc, &clauses[at])?)?;
    }
    Ok(tests)
}

/// Returns a step that holds whenever all tests do.
///
/// It is the first step of the first test, unless that is negated.
fn head_of(tests: &[Test]) -> Step
    ensures { (bytes : List ℕ) → (step_holds result bytes && tests_hold tests.now bytes) ≡ tests_hold tests.now bytes }
{
    if tests.is_empty() {
        return ANY;
    }
    let test = &tests[0];
    if test.negated { ANY } else { test.first }
}

/// Returns the tests of a pattern with their head step.
fn pattern_tests(alloc: Global, pattern: &Pattern) -> Result<PatternTests, AllocError>
    ensures { IfOk result (λ made. ArePatternTests pattern.now made) }
{
    let tests = tests_of(alloc, pattern)?;
    let head = head_of(tests.as_slice());
    Ok(PatternTests { head, tests })
}

impl Step {
    /// Returns whether the step holds of a packet that has fewer than eight bytes from `at` on.
    #[inline(never)]
    fn holds_at_the_end(&self, bytes: &[u8]) -> bool
        ensures { result ≡ (nat_le self.now.end (length bytes.now) && fits self.now bytes.now) }
    {
        let rest = &bytes[bytes.len().min(self.at)..];
        self.end <= bytes.len() && word_behind(rest, 0) & self.mask == self.value
    }

    /// Returns whether the step holds of a packet's bytes.
    #[inline(always)]
    fn holds(&self, bytes: &[u8]) -> bool
        ensures { result ≡ step_holds self.now bytes.now }
    {
        if bytes.len() >= 8 && self.at <= bytes.len() - 8 {
            word_at(bytes, self.at) & self.mask == self.value
        } else {
            self.holds_at_the_end(bytes)
        }
    }
}

/// Returns whether all steps hold of a packet's bytes.
#[inline(always)]
fn steps_hold(steps: &Sequence<Step>, bytes: &[u8]) -> bool
    ensures { result ≡ list_all (λ s. step_holds s bytes.now) steps.now }
{
    steps.as_slice().iter().all(|step| step.holds(bytes))
}

impl Test {
    /// Returns whether the test holds of a packet's bytes.
    #[inline(always)]
    fn holds(&self, bytes: &[u8]) -> bool
        ensures { result ≡ test_holds self.now bytes.now }
    {
        let found = self.first.holds(bytes) && steps_hold(&self.rest, bytes);
        found != self.negated
    }
}

/// Returns whether all tests hold of a packet's bytes.
///
/// perf: out of line, so that it takes no registers from the search for a pattern.
#[inline(never)]
fn tests_hold(tests: &Sequence<Test>, bytes: &[u8]) -> bool
    ensures { result ≡ tests_hold tests.now bytes.now }
{
    tests.as_slice().iter().all(|test| test.holds(bytes))
}

/// Returns the index of the first pattern whose tests all hold.
fn first_matching(ready: &[PatternTests], bytes: &[u8]) -> Option<usize>
    ensures place { result ≡ first_matching ready.now bytes.now }
    ensures bound { IfSome result (λ place. place < length ready.now) }
{
    ready.iter().position(|pattern| pattern.head.holds(bytes) && tests_hold(&pattern.tests, bytes))
}

impl Patterns {
    /// Returns the patterns, prepared for matching, or fails with out of memory.
    pub(crate) fn of(alloc: Global, written: Sequence<Pattern>) -> Result<Patterns, AllocError>
        ensures { IfOk result (λ patterns. patterns ≡ written) }
    {
        let patterns = written.as_slice();
        let mut ready = Sequence::new(alloc);
        for pattern in patterns {
            ready.push(pattern_tests(alloc, pattern)?)?;
        }
        Ok(Patterns { written, ready })
    }

    /// Returns the number of patterns.
    pub fn len(&self) -> usize
        ensures { result ≡ length self.now }
    {
        self.written.len()
    }

    /// Returns the index of the first pattern that the bytes match, among at most 256 patterns.
    #[inline(never)]
    pub(crate) fn first_match(&self, bytes: &[u8]) -> Option<usize>
        ensures place { result ≡ classified self.now bytes.now }
        ensures bound { IfSome result (λ place. place < 256) }
    {
        let ready = self.ready.as_slice();
        let most = 256_usize.min(ready.len());
        first_matching(&ready[..most], bytes)
    }
}
