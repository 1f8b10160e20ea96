//! Laws about the lines of a session (Click manual, "ControlSocket"). A line consists of words with
//! blanks between them, and may have blanks at its ends.

ghost use Rattle.std.specs.Prelude.{◌≡◌, ◌^◌, ◌<◌, ◌≤◌, ◌++◌, [], ℕ, List, codes, decimal, true};
ghost use Rattle.std.specs.Str.{str_eq_ignore_ascii_case};
ghost use Rattle.click_base.specs.Blanks.{trimmed};
ghost use Rattle.click_control.specs.declared.command.Command.TheVariants as command;
ghost use Rattle.click_router.specs.declared.check.Access.{Access};
ghost use Rattle.click_control.specs.Commands.{parse_line, whole, announces, text_command, check_command};
ghost use Rattle.click_control.specs.LineWords.{AreBlanks, IsGap, IsWord, EndsWord, text_word, check_word, data_word};

/// A line of `READ` or `WRITE`, a handler and a text is the command that passes exactly this text
/// to the handler.
///
/// The text has no blanks at its ends. If the line has no text, the command's text is empty.
pub fn a_handler_and_a_text_are_a_command()
    ensures text { (w : Access) (before gap handler space text after : List ℕ) → AreBlanks before → IsGap gap → IsWord handler → IsGap space → trimmed text ≡ text
        → AreBlanks after → parse_line (before ++ text_word w ++ gap ++ handler ++ space ++ text ++ after) ≡ whole (text_command w handler text) }
    ensures none { (w : Access) (before gap handler after : List ℕ) → AreBlanks before → IsGap gap → IsWord handler → AreBlanks after
        → parse_line (before ++ text_word w ++ gap ++ handler ++ after) ≡ whole (text_command w handler []) }
{}

/// A line of `CHECKREAD` or `CHECKWRITE` and a handler is the command that asks whether the handler
/// can be read or written. A line of `QUIT` is the command that ends the session.
pub fn a_question_and_the_end_are_commands()
    ensures check { (w : Access) (before gap handler after : List ℕ) → AreBlanks before → IsGap gap → IsWord handler → AreBlanks after
        → parse_line (before ++ check_word w ++ gap ++ handler ++ after) ≡ whole (check_command w handler) }
    ensures quit { (before after : List ℕ) → AreBlanks before → AreBlanks after → parse_line (before ++ codes "QUIT" ++ after) ≡ whole command.Quit }
{}

/// A line of `READDATA` or `WRITEDATA`, a handler and a decimal number n from 1 to 1,048,576
/// announces a payload of n bytes.
///
/// With a greater number the line is the command `DataTooLong`. With 0 it is the command with an
/// empty text.
pub fn a_handler_and_a_number_announce_a_payload()
    ensures some { (w : Access) (before gap handler space after : List ℕ) (n : ℕ) → AreBlanks before → IsGap gap → IsWord handler → IsGap space → AreBlanks after
        → 1 ≤ n → n ≤ 1048576 → parse_line (before ++ data_word w ++ gap ++ handler ++ space ++ decimal n ++ after) ≡ announces w handler n }
    ensures many { (w : Access) (before gap handler space after : List ℕ) (n : ℕ) → AreBlanks before → IsGap gap → IsWord handler → IsGap space → AreBlanks after
        → 1048576 < n → n < 2 ^ 64 → parse_line (before ++ data_word w ++ gap ++ handler ++ space ++ decimal n ++ after) ≡ whole command.DataTooLong }
    ensures none { (w : Access) (before gap handler space after : List ℕ) → AreBlanks before → IsGap gap → IsWord handler → IsGap space → AreBlanks after
        → parse_line (before ++ data_word w ++ gap ++ handler ++ space ++ decimal 0 ++ after) ≡ whole (text_command w handler []) }
{}

/// A known command word at the beginning of a line means the same in upper and lower case.
pub fn case_does_not_matter_in_a_first_word()
    ensures { (before word other rest : List ℕ) → AreBlanks before → IsWord word → IsWord other → EndsWord rest → str_eq_ignore_ascii_case word other ≡ true
        → (parse_line (before ++ (other ++ rest)) ≡ whole (command.Unknown other) → ⊥)
        → parse_line (before ++ (word ++ rest)) ≡ parse_line (before ++ (other ++ rest)) }
{}
