//! The position of a session's next bytes in its stream.

ghost use Rattle.std.specs.Prelude.{◌≡◌, ◌++◌, ◌≤◌, ℕ, List, [], length, drop, MatchOption};
ghost use Rattle.click_control.specs.Commands.{in_line, after_end, after_line, commands_from, whole};
ghost use Rattle.click_control.specs.kept.Lines.{reading_of};

use crate::command::Command;

/// The position at which the bytes that are not taken up begin.
#[derive(Clone, Copy, Debug, PartialEq, Eq)]
pub enum Start {
    /// At the beginning of a line.
    Line,
    /// After a CR that ended a line. An LF that follows belongs to the same end.
    AfterReturn,
    /// After the last command of the session.
    Over,
}

/// Returns the number of bytes before the next line. Returns `None` if the next byte is needed to
/// know it, and after the last command.
pub fn line_start(start: Start, bytes: &[u8]) -> Option<usize>
    ensures { MatchOption result (commands_from (reading_of start) bytes.now ≡ [])
        (λ n. (n ≤ length bytes.now) × ((more : List ℕ) → commands_from (reading_of start) (bytes.now ++ more) ≡ commands_from (in_line []) (drop n bytes.now ++ more))) }
{
    match start {
        Start::Line => Some(0),
        Start::AfterReturn => {
            if bytes.is_empty() {
                None
            } else if bytes[0] == b'\n' {
                Some(1)
            } else {
                Some(0)
            }
        }
        Start::Over => None,
    }
}

/// Returns the position after a line end whose first byte is `last`.
pub fn after_end(last: u8) -> Start
    ensures { reading_of result ≡ after_end last }
{
    if last == b'\r' {
        Start::AfterReturn
    } else {
        Start::Line
    }
}

/// Returns the position after a line that is a whole command, and whose end begins with `last`.
pub fn start_after(command: &Command, last: u8) -> Start
    ensures { reading_of result ≡ after_line (whole command.now) last }
{
    match command {
        Command::Quit | Command::LineTooLong | Command::DataTooLong => Start::Over,
        Command::Read { .. }
        | Command::Write { .. }
        | Command::CheckRead { .. }
        | Command::CheckWrite { .. }
        | Command::Syntax
        | Command::Unknown { .. } => after_end(last),
    }
}
