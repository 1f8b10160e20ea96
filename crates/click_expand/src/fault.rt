//! The faults of a configuration that has no flat form.

ghost use Rattle.std.specs.Prelude.{◌≡◌};
ghost use Rattle.click_expand.specs.FaultText.{kind_text};

use click_base::sequence::Sequence;
use click_scopes::WrongUse;
use click_text::syntax::Span;
use std::fmt;
use thiserror::Error;

/// The kind of a fault. It is printed as its number and its name.
#[derive(Clone, Copy, Debug, PartialEq, Eq, Error)]
#[error("{}", self.text())]
pub enum FaultKind {
    NoMemory,
    /// A misuse of a name, class, parameter or port, or a repeated flat name.
    Use(WrongUse),
    /// A limit is passed.
    TooMany,
    /// A configuration string is no longer one string after its parameters are replaced.
    BrokenText,
}

impl FaultKind {
    /// Returns the number and the name of the kind, as operators see them.
    pub fn text(self) -> &'static str
        ensures { result.now ≡ kind_text self }
    {
        match self {
            FaultKind::NoMemory => "7 NoMemory",
            FaultKind::Use(wrong) => wrong.text(),
            FaultKind::TooMany => "16 TooMany",
            FaultKind::BrokenText => "17 BrokenText",
        }
    }
}

/// The first fault of a configuration.
///
/// It is printed as its kind and its position, such as `11 UnknownName at bytes 4 to 7` or
/// `17 BrokenText at a/b`.
#[derive(Debug, Drop, Error)]
#[error(fmt = write_fault)]
pub struct ExpandFault {
    pub kind: FaultKind,
    /// The token of the fault, if it has one.
    pub span: Option<Span>,
    /// The flat name of the element with a broken text; empty for other faults.
    pub name: Sequence<u8>,
}

/// Writes a fault. The bytes of a name are ASCII.
fn write_fault<W: fmt::Write>(
    kind: &FaultKind,
    span: &Option<Span>,
    name: &Sequence<u8>,
    f: &mut fmt::Formatter<W>,
) -> fmt::Result {
    write!(f, "{kind}")?;
    if let Some(span) = span {
        write!(f, " at bytes {} to {}", span.start, span.end)?;
    }
    if name.len() > 0 {
        write!(f, " at ")?;
    }
    for byte in name.as_slice() {
        f.write_char(char::from(*byte))?;
    }
    Ok(())
}
