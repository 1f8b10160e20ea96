//! The gate, which may hold a session or a driver before each command.

ghost use Rattle.std.specs.Prelude.{◌≡◌, true};

use click_control::Turns;
use std::marker::Model;

/// A gate that all sessions and drivers of a run share.
///
/// It may hold each of them before each of its commands, or refuse the command. A session or driver
/// is known to it by its number, from 1; a command of a driver is a Round.
pub trait Gate: Sync {
    ghost use Rattle.std.specs.Prelude.{ℕ, Bool};

    /// What the gate may answer: the number of the caller, the number of the command, and the
    /// answer.
    ghost gives: { Self → ℕ → ℕ → Bool → Type 0 };

    /// What holds after the gate was notified: the number of the caller and that of the command.
    ghost told: { Self → ℕ → ℕ → Type 0 };

    /// Called before the nth command, from 1, of session or driver `who`. May block. If it returns
    /// `false`, the session or driver ends.
    fn before(&self, who: usize, nth: u64) -> bool
        ensures { gives self.now who nth result };

    /// Called when the nth command of session or driver `who` is answered.
    fn after(&self, who: usize, nth: u64)
        ensures { told self.now who nth };
}

/// A gate that allows every command at once.
#[derive(Drop)]
pub struct OpenGate;

impl Gate for OpenGate {
    ghost gives = { λ _ _ _ answer. answer ≡ true };

    ghost told = { λ _ _ _. Unit {0} };

    fn before(&self, _who: usize, _nth: u64) -> bool {
        true
    }

    fn after(&self, _who: usize, _nth: u64) {}
}

/// A session's end of a gate: the gate, with the number of the session.
#[derive(Drop)]
pub struct AtGate<'a, G> {
    gate: &'a G,
    who: usize,
}

impl<'a, G> Model for AtGate<'a, G> {
    ghost use Rattle.click_workers.specs.Gates.{Place};

    ghost Value = { Place G };

    ghost view = { λ t. record { gate = t.gate.now; who = t.who } };
}

impl<'a, G> AtGate<'a, G> {
    pub fn new(gate: &'a G, who: usize) -> AtGate<'a, G>
        ensures { result ≡ record { gate = gate.now; who = who } }
    {
        AtGate { gate, who }
    }
}

impl<G: Gate> Turns for AtGate<'_, G> {
    ghost use Rattle.click_workers.specs.Gates.{AsksGate, TellsGate};

    ghost turn = { AsksGate G.gives };

    ghost done = { TellsGate G.told };

    fn before(&mut self, nth: u64) -> bool {
        self.gate.before(self.who, nth)
    }

    fn after(&mut self, nth: u64) {
        self.gate.after(self.who, nth);
    }
}
