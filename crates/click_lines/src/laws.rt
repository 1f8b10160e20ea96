//! A theorem about lines.

ghost use Rattle.std.specs.Prelude.{◌≡◌};
ghost use Rattle.click_lines.specs.Lines.{IsLineOfBytes, line_text};
ghost use Rattle.click_lines.specs.declared.line.Line.{Line};

/// A line determines the seat, the call and the text of the reply. So what is read from a line that
/// was written is what was written.
pub fn a_line_says_one_thing()
    ensures { (a b : Line) → IsLineOfBytes a → IsLineOfBytes b → line_text a ≡ line_text b → a ≡ b }
{}
