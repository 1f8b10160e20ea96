//! The kinds of misuse of names, classes, parameters and ports.

ghost use Rattle.std.specs.Prelude.{◌≡◌};
ghost use Rattle.click_scopes.specs.FaultText.{kind_text};
ghost use Rattle.click_scopes.specs.Faults.{fault_number};

/// A kind of misuse.
#[derive(Clone, Copy, Debug, PartialEq, Eq)]
pub enum WrongUse {
    /// A bare word names neither an element nor a class.
    UnknownName,
    /// A name is declared twice in its scope.
    DeclaredTwice,
    /// A word in the position of a class names no class.
    UnknownClass,
    /// An element of a compound has more or fewer arguments than the compound has parameters.
    WrongParameters,
    /// A compound does not have this port, or leaves a port below its highest one unused.
    CompoundPort,
}

impl WrongUse {
    /// Returns the number that operators see.
    ///
    /// Of two misuses at one offset, the one with the lower number comes first.
    pub(crate) fn number(self) -> u8
        ensures { result ≡ fault_number self }
    {
        match self {
            WrongUse::UnknownName => 11,
            WrongUse::DeclaredTwice => 12,
            WrongUse::UnknownClass => 13,
            WrongUse::WrongParameters => 14,
            WrongUse::CompoundPort => 15,
        }
    }

    /// Returns the number and the name of the kind, as operators see them.
    pub fn text(self) -> &'static str
        ensures { result.now ≡ kind_text self }
    {
        match self {
            WrongUse::UnknownName => "11 UnknownName",
            WrongUse::DeclaredTwice => "12 DeclaredTwice",
            WrongUse::UnknownClass => "13 UnknownClass",
            WrongUse::WrongParameters => "14 WrongParameters",
            WrongUse::CompoundPort => "15 CompoundPort",
        }
    }
}
