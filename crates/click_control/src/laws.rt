//! Laws about the commands of a stream (Click manual, "ControlSocket"). A line is the bytes before
//! its end, without CR and LF. Its end is LF, CR LF, or a CR that no LF follows.

ghost use Rattle.std.specs.Prelude.{◌≡◌, ◌-◌, ◌<◌, ◌≤◌, ◌++◌, ◌∷◌, [], ℕ, List, length, true, false};
ghost use Rattle.click_control.specs.declared.command.Command.{Command};
ghost use Rattle.click_control.specs.declared.command.Command.TheVariants as command;
ghost use Rattle.click_router.specs.declared.check.Access.{Access};
ghost use Rattle.click_control.specs.Commands.{commands, commands_from, in_line, in_payload, parse_line, blank, whole, announces, is_last, text_command, HasNoEnd, IsEndBefore};
ghost use Rattle.click_control.specs.Taking.{Pending, fresh, fed, to_come};

/// The commands of a stream's first bytes are the first commands of the stream.
pub fn commands_of_a_prefix()
    ensures { (bytes more : List ℕ) → (rest : List Command) × (commands (bytes ++ more) ≡ commands bytes ++ rest) }
{}

/// A blank line of at most 65,536 bytes gives no command. The commands of the bytes after its end
/// follow.
pub fn commands_after_a_blank_line()
    ensures { (line end more : List ℕ) → HasNoEnd line → length line ≤ 65536 → IsEndBefore end more → parse_line line ≡ blank
        → commands (line ++ (end ++ more)) ≡ commands more }
{}

/// A line of at most 65,536 bytes that is a whole command gives this command. The commands of the
/// bytes after its end follow.
pub fn commands_after_a_command()
    ensures { (line end more : List ℕ) (c : Command) → HasNoEnd line → length line ≤ 65536 → IsEndBefore end more → parse_line line ≡ whole c → is_last c ≡ false
        → commands (line ++ (end ++ more)) ≡ c ∷ commands more }
{}

/// After a command that ends the session, such as `QUIT`, no command follows.
pub fn nothing_after_the_last_command()
    ensures { (line end more : List ℕ) (c : Command) → HasNoEnd line → length line ≤ 65536 → IsEndBefore end more → parse_line line ≡ whole c → is_last c ≡ true
        → commands (line ++ (end ++ more)) ≡ c ∷ [] }
{}

/// A line of 65,537 bytes without an end gives the one command `LineTooLong`, whatever follows.
pub fn a_line_that_is_too_long()
    ensures { (line more : List ℕ) → HasNoEnd line → length line ≡ 65537 → commands (line ++ more) ≡ command.LineTooLong ∷ [] }
{}

/// A line that announces a payload of n bytes gives, with the n bytes after its end, one command
/// whose text is exactly these bytes.
///
/// The commands of the bytes after the payload follow. A CR alone is the line's end only if the
/// payload does not begin with LF.
pub fn commands_after_a_payload()
    ensures { (line end payload more : List ℕ) (w : Access) (handler : List ℕ) (n : ℕ) → HasNoEnd line → length line ≤ 65536 → IsEndBefore end payload
        → parse_line line ≡ announces w handler n → length payload ≡ n
        → commands (line ++ (end ++ (payload ++ more))) ≡ text_command w handler payload ∷ commands more }
{}

/// A line of at most 65,536 bytes gives no command before its end has come. The bytes that follow
/// are read as the rest of a line that begins with exactly these bytes.
pub fn an_unfinished_line_gives_no_command()
    ensures none { (line : List ℕ) → HasNoEnd line → length line ≤ 65536 → commands line ≡ [] }
    ensures waits { (line more : List ℕ) → HasNoEnd line → length line ≤ 65536 → commands (line ++ more) ≡ commands_from (in_line line) more }
{}

/// A line that announces a payload of n bytes gives no command before n bytes have come after its
/// end. The bytes that follow are read as the rest of a payload that begins with exactly the bytes
/// that came.
pub fn an_unfinished_payload_gives_no_command()
    ensures none { (line end came : List ℕ) (w : Access) (handler : List ℕ) (n : ℕ) → HasNoEnd line → length line ≤ 65536 → IsEndBefore end came
        → parse_line line ≡ announces w handler n → length came < n → commands (line ++ (end ++ came)) ≡ [] }
    ensures waits { (line end came more : List ℕ) (w : Access) (handler : List ℕ) (n : ℕ) → HasNoEnd line → length line ≤ 65536 → IsEndBefore end came
        → parse_line line ≡ announces w handler n → 0 < length came → length came < n
        → commands (line ++ (end ++ (came ++ more))) ≡ commands_from (in_payload w handler (n - length came) came) more }
{}

/// The pieces that a session is fed are one stream: what is to come of a session that was fed a
/// piece is what was to come with that piece. A new session gives the commands of the stream.
pub fn pieces_are_one_stream()
    ensures pieces { (s : Pending) (piece more : List ℕ) → to_come (fed s piece) more ≡ to_come s (piece ++ more) }
    ensures stream { (bytes : List ℕ) → to_come fresh bytes ≡ commands bytes }
{}
