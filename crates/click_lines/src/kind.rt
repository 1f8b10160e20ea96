//! The kind of a call, from the word that its line begins with.

ghost use Rattle.std.specs.Prelude.{◌≡◌, MatchOption};
ghost use Rattle.click_lines.specs.Kinds.{kind_word};
ghost use Rattle.click_lines.specs.declared.kind.Kind.{Kind};

/// The nine calls.
#[derive(Clone, Copy, Debug, PartialEq, Eq)]
pub enum Kind {
    Read,
    Write,
    CheckRead,
    CheckWrite,
    Swap,
    Arrive,
    Poll,
    Round,
    Transmit,
}

/// Returns the kind of the call whose line begins with this word.
pub fn kind_of(word: &[u8]) -> Option<Kind>
    ensures { MatchOption result ((kind : Kind) → kind_word kind ≡ word.now → ⊥) (λ kind. kind_word kind ≡ word.now) }
{
    match word {
        b"read" => Some(Kind::Read),
        b"write" => Some(Kind::Write),
        b"checkread" => Some(Kind::CheckRead),
        b"checkwrite" => Some(Kind::CheckWrite),
        b"swap" => Some(Kind::Swap),
        b"arrive" => Some(Kind::Arrive),
        b"poll" => Some(Kind::Poll),
        b"round" => Some(Kind::Round),
        b"transmit" => Some(Kind::Transmit),
        _ => None,
    }
}
