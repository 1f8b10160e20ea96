//! Theorems about the definitions of a router.

ghost use Rattle.std.specs.Prelude.{◌≡◌, ℕ, List, Some, slice_get, true};
ghost use Rattle.std.specs.List.{list_any};
ghost use Rattle.click_classes.specs.State.{class};
ghost use Rattle.click_base.specs.declared.class.Class.TheVariants as class_kind;
ghost use Rattle.click_engine.specs.Keeps.{AreFitting, AreSound};
ghost use Rattle.click_engine.specs.TakeOver.{with_taken_over};
ghost use Rattle.click_engine.specs.declared.run_state.Element.{Element};
ghost use Rattle.click_router.specs.declared.call.Call.TheVariants as call;
ghost use Rattle.click_router.specs.declared.call.Call.{Call};
ghost use Rattle.click_router.specs.declared.call.Refusal.{Refusal};
ghost use Rattle.click_router.specs.declared.call.Refusal.TheVariants as refusal;
ghost use Rattle.click_router.specs.declared.call.Reply.{Reply};
ghost use Rattle.click_router.specs.declared.call.Reply.TheVariants as reply;
ghost use Rattle.click_router.specs.InOrder.{IsInOrder};
ghost use Rattle.click_router.specs.declared.check.Access.TheVariants as direction;
ghost use Rattle.click_router.specs.Foretelling.{Foretells};
ghost use Rattle.click_base.specs.Dotted.{is_dot};
ghost use Rattle.click_router.specs.One.{Answers, check, listing_of, swap_text, read, before, place_of, with_element};
ghost use Rattle.click_router.specs.State.{RouterState};
ghost use Rattle.click_router.specs.Swap.{taken};
ghost use Rattle.click_router.specs.declared.fault.ConfigFault.{ConfigFault};
ghost use Rattle.click_router.specs.Opened.{IsOpened, IsFirstFault};

/// A text opens at most one state.
pub fn opens_once()
    ensures { (text : List ℕ) (s t : RouterState) → IsOpened text s → IsOpened text t → s ≡ t }
{}

/// A text that opens a router has no fault.
pub fn opened_has_no_fault()
    ensures { (text : List ℕ) (s : RouterState) (f : ConfigFault) → IsOpened text s → IsFirstFault text f → ⊥ }
{}

/// A text has at most one first fault.
pub fn faults_once()
    ensures { (text : List ℕ) (f g : ConfigFault) → IsFirstFault text f → IsFirstFault text g → f ≡ g }
{}

/// Reads change nothing, and neither do checks.
pub fn reads_change_nothing()
    ensures read { (s t : RouterState) (name text : List ℕ) (r : Reply) → Answers s (call.Read name text) t r → t ≡ s }
    ensures check { (s t : RouterState) (name : List ℕ) (r : Reply) → Answers s (call.CheckRead name) t r → t ≡ s }
    ensures check_write { (s t : RouterState) (name : List ℕ) (r : Reply) → Answers s (call.CheckWrite name) t r → t ≡ s }
{}

/// A check foretells the call.
///
/// If the answer is Yes, the call is not refused as NoElement, NoHandler or WrongWay. Otherwise the
/// call has the reply of the check.
pub fn checks_foretell_calls()
    ensures read { (s t : RouterState) (name text : List ℕ) (r : Reply) → Answers s (call.Read name text) t r → Foretells (check (listing_of s) direction.Read name) r }
    ensures write { (s t : RouterState) (name text : List ℕ) (r : Reply) → Answers s (call.Write name text) t r → Foretells (check (listing_of s) direction.Write name) r }
{}

/// The read of a handler of one element does not depend on any other element.
pub fn reads_ask_one_element()
    ensures { (s : RouterState) (at : ℕ) (other : Element) (name text : List ℕ) → list_any is_dot name ≡ true → (place_of s (before name) ≡ Some at → ⊥)
        → read (record s { plant = with_element s.plant at other }) name text ≡ read s name text }
{}

/// A call has at most one reply, and leads to at most one state.
pub fn calls_have_one_answer()
    ensures { (s t u : RouterState) (c : Call) (q r : Reply) → Answers s c t q → Answers s c u r → (t ≡ u) × (q ≡ r) }
{}

/// A refused swap changed nothing, and was refused for the first fault of its text.
pub fn refused_swaps_change_nothing()
    ensures { (s t : RouterState) (c : Call) (text : List ℕ) (why : Refusal) → swap_text c ≡ Some text → Answers s c t (reply.Refused why)
        → (t ≡ s) × ((f : ConfigFault) × IsFirstFault text f × (why ≡ refusal.Config f)) }
{}

/// A successful swap leads to the router that its text opens, after it took over from the old one.
pub fn good_swaps_take_over()
    ensures { (s t : RouterState) (c : Call) (text : List ℕ) → swap_text c ≡ Some text → Answers s c t reply.Done
        → (new : RouterState) × IsOpened text new × (t ≡ taken new s) }
{}

/// If a swap keeps all names, each element takes over from the one at its own index.
///
/// The names are the same if the running text is swapped in again.
pub fn same_names_take_over_from_themselves()
    ensures { (old new : RouterState) (text : List ℕ) (at : ℕ) (e before : Element) → IsOpened text new → old.plant.net.names ≡ new.plant.net.names
        → slice_get new.plant.elements at ≡ Some e → slice_get old.plant.elements at ≡ Some before
        → slice_get (taken new old).plant.elements at ≡ Some (with_taken_over e (Some before)) }
{}

/// If a swap keeps the net, each Counter keeps its counts and each Switch its position.
///
/// The old router has to be in order. The net is the same if the running text is swapped in again.
pub fn counters_and_switches_go_on()
    ensures counter { (old new : RouterState) (text : List ℕ) (at : ℕ) (e before : Element) → IsOpened text new → IsInOrder old → old.plant.net ≡ new.plant.net
        → slice_get new.plant.elements at ≡ Some e → slice_get old.plant.elements at ≡ Some before → class before.state ≡ class_kind.Counter
        → slice_get (taken new old).plant.elements at ≡ Some (record e { state = before.state }) }
    ensures switch { (old new : RouterState) (text : List ℕ) (at : ℕ) (e before : Element) → IsOpened text new → IsInOrder old → old.plant.net ≡ new.plant.net
        → slice_get new.plant.elements at ≡ Some e → slice_get old.plant.elements at ≡ Some before → class before.state ≡ class_kind.Switch
        → slice_get (taken new old).plant.elements at ≡ Some (record e { state = before.state }) }
{}

/// A text opens a router in order, and each answered call leaves it in order.
///
/// In such a router the net is lawful, and each element has the class and ports of the net and a
/// state that allows them. No queue holds more packets than it has room for.
pub fn routers_stay_in_order()
    ensures opened { (text : List ℕ) (s : RouterState) → IsOpened text s → IsInOrder s }
    ensures answered { (s t : RouterState) (c : Call) (r : Reply) → IsInOrder s → Answers s c t r → IsInOrder t }
{}

/// In a router in order, the elements fit their ports and the queues are sound.
pub fn routers_in_order_fit()
    ensures { (s : RouterState) → IsInOrder s → AreFitting s.plant × AreSound s.plant }
{}
