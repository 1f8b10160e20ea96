//! Laws of lists of rules.

ghost use Rattle.std.specs.Prelude.{◌≡◌, ◌∷◌, ◌++◌, [], ℕ, List, Bool, true, not, is_some, if◌then◌else◌, Option, Some};
ghost use Rattle.click_filter.specs.declared.rule.Action.{Action};
ghost use Rattle.click_filter.specs.declared.test.Direction.{Direction};
ghost use Rattle.click_filter.specs.declared.test.Transport.{Transport};
ghost use Rattle.click_filter.specs.Packets.{port};
ghost use Rattle.click_filter.specs.Tests.{holds};
ghost use Rattle.click_filter.specs.Trees.{Tree, negated, truth, tests, flat};
ghost use Rattle.click_filter.specs.Rules.{Ruling, rule, decision, always};

use crate::rule::Action;
use crate::test::{Relation, Test};

/// A rule after one that is always true never decides.
pub fn nothing_after_always()
    ensures { (front : List Ruling) (action : Action) (t : Tree) (rest : List Ruling) (b : List ℕ) → truth t b ≡ true →
        decision (front ++ rule action t ∷ rest) b ≡ decision (front ++ rule action t ∷ []) b }
{}

/// Two neighbouring rules with the same action can be exchanged.
pub fn neighbours_are_exchanged()
    ensures { (front : List Ruling) (action : Action) (s t : Tree) (rest : List Ruling) (b : List ℕ) →
        decision (front ++ rule action s ∷ rule action t ∷ rest) b ≡ decision (front ++ rule action t ∷ rule action s ∷ rest) b }
{}

/// `deny all` at the end changes nothing.
pub fn deny_all_changes_nothing()
    ensures { (rules : List Ruling) (b : List ℕ) → decision (rules ++ rule Action.Drop always ∷ []) b ≡ decision rules b }
{}

/// `allow P, deny all` lets through exactly the packets for which P is true, and
/// `allow not P, deny all` the others.
pub fn allow_lets_through_what_is_true()
    ensures these { (t : Tree) (b : List ℕ) →
        decision (rule (Action.Output 0) t ∷ rule Action.Drop always ∷ []) b ≡ (if truth t b then Action.Output 0 else Action.Drop) }
    ensures others { (t : Tree) (b : List ℕ) →
        decision (rule (Action.Output 0) (negated t) ∷ rule Action.Drop always ∷ []) b ≡ (if truth t b then Action.Drop else Action.Output 0) }
{}

/// `!=` is the contrary of `=` if both ports are there.
pub fn unequal_is_the_contrary_of_equal()
    ensures { (transport : Transport) (direction : Direction) (n : ℕ) (b : List ℕ) →
        is_some (port transport 0 b) ≡ true → is_some (port transport 2 b) ≡ true →
        holds (Test.Port transport direction Relation.NotEqual n) b ≡ not (holds (Test.Port transport direction Relation.Equal n) b) }
{}
