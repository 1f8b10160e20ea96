//! Theorems about the definitions of this crate.

ghost use Rattle.std.specs.Prelude.{◌≡◌, ◌++◌, ◌∷◌, [], ℕ, Bool, List, Ok};
ghost use Rattle.click_control.specs.Serving.{Asked, Course, WentThrough};
ghost use Rattle.click_control.specs.declared.command.Answer.{Answer};
ghost use Rattle.click_control.specs.declared.command.Command.{Command};
ghost use Rattle.click_control.specs.declared.serving.Ended.TheVariants as ended;
ghost use Rattle.click_desk.specs.BookState.{BookState};
ghost use Rattle.click_desk.specs.History.{Legal};
ghost use Rattle.click_desk.specs.SeatStates.{SeatState};
ghost use Rattle.click_workers.specs.Gates.{Place, place, AsksGate, TellsGate};
ghost use Rattle.click_workers.specs.Linked.{AreQuiet};
ghost use Rattle.click_workers.specs.Runs.{Headline, entries_of};
ghost use Rattle.click_workers.specs.Seats.{SameSeat, SeatAsks, made};
ghost use Rattle.click_workers.specs.declared.gate.OpenGate.{OpenGate};

use crate::gate::{Gate, OpenGate};

/// States that the entries of a book with one seat are exactly the calls of the seat, in order.
/// They are therefore a history of one thread from the text.
pub fn one_seat_is_one_thread()
    ensures { (text : List ℕ) (book : BookState) (s : SeatState) → Headline text 1 book → book.seats ≡ s ∷ []
        → (book.entries ≡ entries_of s.number s.calls) × Legal text (entries_of s.number s.calls) book.router }
{}

/// States what the commands of a session do to its seat. Its number, desk and feeds are unchanged.
/// Its list grows by exactly the calls that did not fail (out of memory or history full), with
/// their replies.
pub fn a_seat_grows_by_its_asks()
    ensures { (readonly : Bool) (old : SeatState) (commands : List Command) (answers : List Answer) (new : SeatState) → Asked SeatAsks readonly old commands answers new
        → SameSeat old new × (new.calls ≡ old.calls ++ made readonly commands answers) }
{}

/// States that no call of a session's commands is a Transmit.
pub fn commands_make_no_transmit()
    ensures { (readonly : Bool) (commands : List Command) (answers : List Answer) → AreQuiet (made readonly commands answers) }
{}

/// States that no session at the open gate ends because the gate refused a command.
pub fn the_open_gate_holds_nobody()
    ensures { (gate : OpenGate) (who : ℕ) (is : Place OpenGate) (course : Course)
        → WentThrough (AsksGate ⟦<OpenGate as Gate>⟧.gives) (TellsGate ⟦<OpenGate as Gate>⟧.told) (place gate who) is (Ok ended.GateClosed) course → ⊥ }
{}
