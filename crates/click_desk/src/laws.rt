//! Theorems about histories.

ghost use Rattle.std.specs.Prelude.{◌≡◌, ◌++◌, ◌∷◌, ℕ, List, Some};
ghost use Rattle.click_router.specs.InOrder.{IsInOrder};
ghost use Rattle.click_router.specs.One.{swap_text};
ghost use Rattle.click_router.specs.State.{RouterState};
ghost use Rattle.click_router.specs.declared.call.Refusal.{Refusal};
ghost use Rattle.click_router.specs.declared.call.Reply.TheVariants as reply;
ghost use Rattle.click_desk.specs.declared.entry.Entry.{Entry};
ghost use Rattle.click_desk.specs.History.{Legal, installs, EachLawful};

/// States that every configuration that a history installed is lawful.
pub fn installed_are_lawful()
    ensures { (text : List ℕ) (history : List Entry) (state : RouterState) → Legal text history state → EachLawful (installs text history) }
{}

/// States that a refused swap changed nothing: without it, the history leads to the same router.
pub fn refused_swaps_leave_no_trace()
    ensures { (text swapped : List ℕ) (before after : List Entry) (e : Entry) (why : Refusal) (state : RouterState)
        → swap_text e.call ≡ Some swapped → e.reply ≡ reply.Refused why → Legal text (before ++ e ∷ after) state → Legal text (before ++ after) state }
{}

/// States that a history leads to one state only.
pub fn histories_lead_to_one_state()
    ensures { (text : List ℕ) (history : List Entry) (s t : RouterState) → Legal text history s → Legal text history t → s ≡ t }
{}

/// States that a history ends in a router whose state is sound. Its net is lawful, its elements fit
/// their ports, and no queue holds more than its capacity.
pub fn histories_end_in_order()
    ensures { (text : List ℕ) (history : List Entry) (state : RouterState) → Legal text history state → IsInOrder state }
{}
