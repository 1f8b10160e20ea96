//! Lists of rules as programs.

ghost use Rattle.std.specs.Prelude.{◌≡◌, ◌<◌, ◌≤◌, ℕ, List, IfOk, IfErr};
ghost use Rattle.click_filter.specs.Rules.{Ruling, decision, all_tests, AreRules};
ghost use Rattle.click_filter.specs.Programs.{decides};

use crate::building::ProgramError;
use crate::program::Program;
use crate::rule::Rule;
use std::alloc::Global;

/// Returns the program of a list of rules: the first rule whose pattern is true for a packet
/// decides.
///
/// Fails with `TooManyTests` if and only if the rules have more than 4,096 tests, or with
/// `NoMemory`.
pub fn program_of(alloc: Global, rules: Vec<Rule>) -> Result<Program, ProgramError>
    ensures decides { (rs : List Ruling) → AreRules rules.items rs → IfOk result (λ p. (b : List ℕ) → decides p b ≡ decision rs b) }
    ensures few { (rs : List Ruling) → AreRules rules.items rs → IfOk result (λ p. all_tests rs ≤ 4096) }
    ensures full { (rs : List Ruling) → AreRules rules.items rs → IfErr result (λ e. e ≡ ProgramError.TooManyTests → 4096 < all_tests rs) }
{
    let mut rules = rules;
    let mut program = Program::dropping(alloc);
    while let Some(rule) = rules.pop() {
        let Rule { action, pattern } = rule;
        program.put_first(action, pattern)?;
    }
    Ok(program)
}
