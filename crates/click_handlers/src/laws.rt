//! Theorems about the definitions of handlers.

ghost use Rattle.std.specs.Prelude.{◌≡◌, ◌++◌, ◌+◌, ◌<◌, ◌≤◌, ◌^◌, ℕ, List, Bool, false, Ok, Option, Some, length, codes, decimal, take, IsSome};
ghost use Rattle.std.specs.List.{list_any};
ghost use Rattle.click_base.specs.Classes.{is_gateway};
ghost use Rattle.click_base.specs.declared.class.Class.{Class};
ghost use Rattle.click_classes.specs.Fitting.{FitsPorts};
ghost use Rattle.click_classes.specs.Queues.{Queued, queue_of, IsSound};
ghost use Rattle.click_classes.specs.State.{class};
ghost use Rattle.click_classes.specs.Values.{truth};
ghost use Rattle.click_classes.specs.declared.state.State.TheVariants as state;
ghost use Rattle.click_handlers.specs.Names.{active_name, has_read, has_write, is_named, read_names, write_names};
ghost use Rattle.click_base.specs.declared.class.Class.TheVariants as is;
ghost use Rattle.click_engine.specs.declared.run_state.Element.{Element};
ghost use Rattle.click_base.specs.Blanks.{trimmed};
ghost use Rattle.click_base.specs.Numbers.{decimal_number};
ghost use Rattle.click_handlers.specs.Reads.{read_value, neighbour_line, port_text, truth_text};
ghost use Rattle.click_handlers.specs.Writes.{write_value, resized, written_neighbour, written_port};

/// In the list of handlers with rows, those of a class are exactly those that its elements have.
///
/// The class is not of the gateway package, whose handlers have no rows.
pub fn all_handlers_are_those_of_the_classes()
    ensures reads { (of : Class) (handler : List ℕ) → is_gateway of ≡ false → list_any (is_named of handler) read_names ≡ has_read of handler }
    ensures writes { (of : Class) (handler : List ℕ) → is_gateway of ≡ false → list_any (is_named of handler) write_names ≡ has_write of handler }
{}

/// The `capacity` that was written to a queue is read back.
pub fn written_capacity_is_read()
    ensures { (e f : Element) (text any : List ℕ) (n : ℕ) → IsSome (queue_of e.state) → decimal_number 1 10000 (trimmed text) ≡ Ok n
        → write_value (codes "capacity") e text ≡ Ok f → read_value (codes "capacity") f any ≡ Ok (decimal n) }
{}

/// The `switch` that was written to a Switch is read back.
pub fn written_switch_is_read()
    ensures { (e f : Element) (text any : List ℕ) (port : Option ℕ) → class e.state ≡ is.Switch → written_port e.outputs (trimmed text) ≡ Ok port
        → write_value (codes "switch") e text ≡ Ok f → read_value (codes "switch") f any ≡ Ok (port_text port) }
{}

/// The `switch` that was written to a PullSwitch is read back.
pub fn written_pull_switch_is_read()
    ensures { (e f : Element) (text any : List ℕ) (port : Option ℕ) → class e.state ≡ is.PullSwitch → written_port e.inputs (trimmed text) ≡ Ok port
        → write_value (codes "switch") e text ≡ Ok f → read_value (codes "switch") f any ≡ Ok (port_text port) }
{}

/// The truth value that was written for a port of a Suppressor is read back.
pub fn written_active_is_read()
    ensures { (e f : Element) (active : List Bool) (text any : List ℕ) (port : ℕ) (b : Bool) → e.state ≡ state.Suppressor active → port < 16 → port < e.inputs
        → port < length active → truth (trimmed text) ≡ Ok b → write_value (active_name port) e text ≡ Ok f → read_value (active_name port) f any ≡ Ok (truth_text b) }
{}

/// A Counter's counts are 0 after a reset.
pub fn reset_counts_are_zero()
    ensures { (e f : Element) (text any : List ℕ) → class e.state ≡ is.Counter → write_value (codes "reset_counts") e text ≡ Ok f
        → (read_value (codes "count") f any ≡ Ok (decimal 0)) × (read_value (codes "byte_count") f any ≡ Ok (decimal 0)) }
{}

/// An address that was inserted into the table of an ARPQuerier is listed there.
///
/// A read of the table has a line with the address and its Ethernet address.
pub fn inserted_address_is_listed()
    ensures { (e f : Element) (text any address ether : List ℕ) → class e.state ≡ is.ARPQuerier → written_neighbour (trimmed text) ≡ Ok (address, ether)
        → write_value (codes "insert") e text ≡ Ok f
        → (front : List ℕ) × (back : List ℕ) × (read_value (codes "table") f any ≡ Ok (front ++ (neighbour_line address (Some ether) ++ back))) }
{}

/// A queue with a new capacity keeps its first packets, in order.
///
/// It counts the others as drops, so its length plus its drops stay the same.
pub fn another_capacity_loses_nothing()
    ensures first { (q : Queued) (n : ℕ) → (resized q n).list.packets ≡ take n q.list.packets }
    ensures counted { (q : Queued) (n : ℕ) → length q.list.packets + q.drops < 2 ^ 64
        → length (resized q n).list.packets + (resized q n).drops ≡ length q.list.packets + q.drops }
{}

/// A write changes only the state of an element, and the new state has the same class.
///
/// The element still fits its ports, whatever the text, and no queue holds more packets than it has
/// room for.
pub fn writes_keep_elements_fitting()
    ensures class { (handler text : List ℕ) (e f : Element) → write_value handler e text ≡ Ok f → class f.state ≡ class e.state }
    ensures rest { (handler text : List ℕ) (e f : Element) → write_value handler e text ≡ Ok f → (f.class ≡ e.class) × (f.inputs ≡ e.inputs) × (f.outputs ≡ e.outputs) }
    ensures fits { (handler text : List ℕ) (e f : Element) → write_value handler e text ≡ Ok f → FitsPorts e.inputs e.outputs e.state → FitsPorts f.inputs f.outputs f.state }
    ensures sound { (handler text : List ℕ) (e f : Element) → write_value handler e text ≡ Ok f → IsSound e.state → IsSound f.state }
{}
