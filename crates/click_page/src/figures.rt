//! Figures for the metrics that the router does not have.

use std::alloc::AllocError;

/// A source of metrics that the router does not have, such as the number of sessions.
pub trait Figures {
    ghost use Rattle.std.specs.Prelude.{◌≡◌, ◌++◌, ℕ, List, OnOk};

    /// The texts that the figures may be.
    ghost gives: { Self → List ℕ → Type 0 };

    /// Appends the figures to `text`, as complete lines of Prometheus' text format 0.0.4. Fails
    /// with out of memory. Then part of the figures may have been appended.
    fn push_to(&self, text: &mut Vec<u8>) -> Result<(), AllocError>
        ensures { OnOk result ((more : List ℕ) × gives self.now more × (text.new.items ≡ text.old.items ++ more)) };
}

/// No figures.
#[derive(Drop)]
pub struct NoFigures;

impl Figures for NoFigures {
    ghost use Rattle.std.specs.Prelude.{◌≡◌, []};

    ghost gives = { λ _ more. more ≡ [] };

    fn push_to(&self, _text: &mut Vec<u8>) -> Result<(), AllocError> {
        Ok(())
    }
}
