//! The rules of an element, from the texts of its arguments.

ghost use Rattle.std.specs.Prelude.{◌≡◌, ◌<◌, ◌≤◌, ℕ, List, length, map, IfOk, IfErr};
ghost use Rattle.click_filter.specs.Rules.{Ruling, all_tests, AreRules};
ghost use Rattle.click_filter.specs.Trees.{Tree, flat};
ghost use Rattle.click_patterns.specs.RuleLists.{IsSpelled, AreSpelled, flat_rule, decided, outputs_for, outputs_of};
ghost use Rattle.click_patterns.specs.kept.Flat.{flat_of};

use crate::lexer::PatternError;
use crate::parser::{parse, parse_rule};
use click_base::sequence::Sequence;
use click_filter::{Action, Node, Program, ProgramError, Rule, program_of};
use std::alloc::{AllocError, Global};
use std::marker::Model;

/// What an argument of an element is.
#[derive(Clone, Copy, Debug, PartialEq, Eq)]
pub enum RuleForm {
    /// An action and a pattern, as an argument of IPFilter.
    WithAction,
    /// A pattern, as an argument of IPClassifier. Its packets leave at the output with its index.
    PatternAlone,
}

/// A rule with its pattern in flat form: each `not`, `and` and `or` follows what it joins.
#[derive(Drop)]
pub struct FlatRule {
    pub action: Action,
    pub nodes: Sequence<Node>,
}

/// Rules as written, and the program that decides by them.
#[derive(Drop)]
pub struct Rules {
    written: Sequence<FlatRule>,
    program: Program,
    outputs: u16,
}

impl Model for Rules {
    ghost use Rattle.std.specs.Prelude.{◌≡◌, ℕ, List};
    ghost use Rattle.click_filter.specs.Programs.{decides};
    ghost use Rattle.click_patterns.specs.RuleLists.{decided, outputs_of};
    ghost use Rattle.click_patterns.specs.declared.rules.FlatRule.{FlatRule};

    ghost Value = { List FlatRule };

    ghost view = { λ r. r.written };

    ghost invariant = { λ r. ((b : List ℕ) → decides r.program b ≡ decided r.written b) × (r.outputs ≡ outputs_of r.written) };
}

/// Returns the rule that a text spells. `index` is its index among the arguments.
///
/// Fails with `Bad` if and only if the text spells no rule, or with `NoMemory`.
fn rule_of(alloc: Global, form: RuleForm, index: u8, text: &[u8]) -> Result<Rule, PatternError>
    ensures ok { IfOk result (λ r. (t : Tree) × IsSpelled form index text.now (r.action, t) × (r.pattern.nodes.items ≡ flat t)) }
    ensures err { IfErr result (λ e. e ≡ PatternError.Bad → (r : Ruling) → IsSpelled form index text.now r → ⊥) }
{
    match form {
        RuleForm::WithAction => parse_rule(alloc, text),
        RuleForm::PatternAlone => {
            let pattern = parse(alloc, text)?;
            Ok(Rule {
                action: Action::Output(index),
                pattern,
            })
        }
    }
}

/// Returns the rules that the texts spell.
///
/// Fails with `Bad` if and only if a text spells no rule, or with `NoMemory`.
fn rules_of(
    alloc: Global,
    form: RuleForm,
    texts: &[Sequence<u8>],
) -> Result<Vec<Rule>, PatternError>
    requires { length texts.now ≤ 256 }
    ensures ok { IfOk result (λ rules. (rs : List Ruling) × AreSpelled form texts.now rs × AreRules rules.items rs) }
    ensures err { IfErr result (λ e. e ≡ PatternError.Bad → (rs : List Ruling) → AreSpelled form texts.now rs → ⊥) }
{
    let mut rules = Vec::new(alloc);
    let mut at = 0;
    'texts: while at < texts.len() {
        let rule = rule_of(alloc, form, at as u8, texts[at].as_slice())?;
        rules.push(rule)?;
        at += 1;
    }
    Ok(rules)
}

/// Returns a copy of the rules in flat form, or fails with out of memory.
fn flat_copies(alloc: Global, rules: &[Rule]) -> Result<Sequence<FlatRule>, AllocError>
    ensures { IfOk result (λ copies. copies ≡ map flat_of rules.now) }
{
    let mut copies = Sequence::new(alloc);
    for rule in rules {
        let nodes = Vec::from_slice(alloc, rule.pattern.nodes.as_slice())?;
        copies.push(FlatRule {
            action: rule.action,
            nodes: Sequence::of(nodes),
        })?;
    }
    Ok(copies)
}

/// Returns the number of outputs that an action needs.
fn outputs_for(action: Action) -> u16
    ensures value { result ≡ outputs_for action }
    ensures small { result ≤ 256 }
{
    match action {
        Action::Output(output) => u16::from(output) + 1,
        Action::Drop => 0,
    }
}

/// Returns the number of outputs that the actions of all rules need.
fn outputs_of(rules: &[FlatRule]) -> u16
    ensures { result ≡ outputs_of rules.now }
{
    let mut most = 0;
    for rule in rules {
        let outputs = outputs_for(rule.action);
        if most < outputs {
            most = outputs;
        }
    }
    most
}

impl Rules {
    /// Returns the rules that the texts spell, at most 256.
    ///
    /// Fails with `Bad` if and only if a text spells no rule or there are more than 4,096 tests, or
    /// with `NoMemory`.
    pub fn read(
        alloc: Global,
        form: RuleForm,
        texts: &[Sequence<u8>],
    ) -> Result<Rules, PatternError>
        requires few { length texts.now ≤ 256 }
        ensures ok { IfOk result (λ rules. (rs : List Ruling) × AreSpelled form texts.now rs × (all_tests rs ≤ 4096) × (rules ≡ map flat_rule rs)) }
        ensures err { IfErr result (λ e. e ≡ PatternError.Bad → (rs : List Ruling) → AreSpelled form texts.now rs → 4096 < all_tests rs) }
    {
        let rules = rules_of(alloc, form, texts)?;
        let written = flat_copies(alloc, rules.as_slice())?;
        let outputs = outputs_of(written.as_slice());
        match program_of(alloc, rules) {
            Ok(program) => Ok(Rules {
                written,
                program,
                outputs,
            }),
            Err(ProgramError::TooManyTests) => Err(PatternError::Bad),
            Err(ProgramError::NoMemory) => Err(PatternError::NoMemory),
        }
    }

    /// Returns the number of outputs that the actions of all rules need.
    pub fn outputs(&self) -> u16
        ensures { result ≡ outputs_of self.now }
    {
        self.outputs
    }

    /// Returns what the rules do to a packet, whose first byte is the first of its IP header.
    ///
    /// Allocates no memory.
    #[inline]
    pub fn decide(&self, packet: &[u8]) -> Action
        ensures { result ≡ decided self.now packet.now }
    {
        self.program.decide(packet)
    }
}
