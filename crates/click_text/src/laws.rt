//! Theorems about texts: each spells one configuration, or has one first fault.

ghost use Rattle.std.specs.Prelude.{◌≡◌, ◌⊎◌, ℕ, List};
ghost use Rattle.click_text.specs.declared.syntax.Config.{Config};
ghost use Rattle.click_text.specs.declared.syntax.TextFault.{TextFault};
ghost use Rattle.click_text.specs.Spelling.{Spells, IsTextFault};

/// A text spells at most one configuration.
pub fn spells_once()
    ensures { (text : List ℕ) (c d : Config) → Spells text c → Spells text d → c ≡ d }
{}

/// A text has at most one first fault.
pub fn faults_once()
    ensures { (text : List ℕ) (f g : TextFault) → IsTextFault text f → IsTextFault text g → f ≡ g }
{}

/// A text that spells a configuration has no first fault.
pub fn spelled_has_no_fault()
    ensures { (text : List ℕ) (c : Config) (f : TextFault) → Spells text c → IsTextFault text f → ⊥ }
{}

/// Every text spells a configuration or has a first fault.
pub fn spelled_or_faulty()
    ensures { (text : List ℕ) → ((c : Config) × Spells text c) ⊎ ((f : TextFault) × IsTextFault text f) }
{}
