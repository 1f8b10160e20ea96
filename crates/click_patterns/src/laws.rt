//! Laws of the rule language.

ghost use Rattle.std.specs.Prelude.{◌≡◌, ◌<◌, ◌≤◌, ◌∷◌, ◌++◌, [], ℕ, List, length, map, true};
ghost use Rattle.std.specs.List.{list_all};
ghost use Rattle.click_filter.specs.declared.rule.Action.{Action};
ghost use Rattle.click_filter.specs.Rules.{Ruling, decision};
ghost use Rattle.click_filter.specs.Trees.{Tree, leaf, truth, flat};
ghost use Rattle.click_patterns.specs.declared.token.Token.{Token};
ghost use Rattle.click_patterns.specs.Tokens.{AreTokens};
ghost use Rattle.click_patterns.specs.Grammar.{IsChain, IsPattern};
ghost use Rattle.click_patterns.specs.Nesting.{is_opening, closing, around};
ghost use Rattle.click_patterns.specs.Arguments.{IsArgument};
ghost use Rattle.click_patterns.specs.RuleLists.{AreSpelled, flat_rule, flat_truth, decided};

use crate::rules::RuleForm;
use crate::token::{Join, Token};
use click_filter::Test;

/// A text has at most one list of tokens.
pub fn one_token_list()
    ensures { (text : List ℕ) (ts us : List Token) → AreTokens text ts → AreTokens text us → ts ≡ us }
{}

/// A text has at most one tree.
pub fn one_tree()
    ensures { (text : List ℕ) (t u : Tree) → IsPattern text t → IsPattern text u → t ≡ u }
{}

/// An argument of IPFilter has at most one action and at most one tree.
pub fn one_rule()
    ensures { (text : List ℕ) (a b : Action) (t u : Tree) → IsArgument text a t → IsArgument text b u → (a ≡ b) × (t ≡ u) }
{}

/// At most 32 parentheses and `not` may be open: 32 are accepted, 33 are not.
pub fn at_most_32_open()
    ensures accepted { (front : List Token) → list_all is_opening front ≡ true → length front ≤ 32 →
        IsChain Join.Or 0 (front ++ Token.Constant true ∷ closing front) (around front (leaf (Test.Constant true))) [] }
    ensures refused { (front ts : List Token) (t : Tree) → list_all is_opening front ≡ true → 32 < length front → IsChain Join.Or 0 (front ++ ts) t [] → ⊥ }
{}

/// Texts spell at most one list of rules.
pub fn one_rule_list()
    ensures { (form : RuleForm) (texts : List (List ℕ)) (rs others : List Ruling) → AreSpelled form texts rs → AreSpelled form texts others → rs ≡ others }
{}

/// A pattern in flat form is true for the packets for which its tree is true, and rules in flat form
/// decide as the rules themselves.
pub fn flat_forms_mean_their_trees()
    ensures truth { (t : Tree) (b : List ℕ) → flat_truth (flat t) b ≡ truth t b }
    ensures decision { (rs : List Ruling) (b : List ℕ) → decided (map flat_rule rs) b ≡ decision rs b }
{}
