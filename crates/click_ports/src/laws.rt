//! Theorems about the definitions.

ghost use Rattle.std.specs.Prelude.{◌≡◌, ◌↔◌, ℕ, ◌<◌, Bool, List, Contains, true};
ghost use Rattle.click_classes.specs.declared.ports.Side.TheVariants.{Input, Output};
ghost use Rattle.click_expand.specs.declared.flat.Connection.{Connection};
ghost use Rattle.click_ports.specs.declared.port.Port.{Port};
ghost use Rattle.click_ports.specs.declared.shape.Shape.{Shape};
ghost use Rattle.click_ports.specs.declared.fault.PortFault.{PortFault};
ghost use Rattle.click_ports.specs.Ports.{joined_port, Has};
ghost use Rattle.click_ports.specs.Links.{IsAgnostic, Linked};
ghost use Rattle.click_ports.specs.Kinds.{Reaches, IsPull, IsPush};
ghost use Rattle.click_ports.specs.Lawful.{Lawful};
ghost use Rattle.click_ports.specs.Breaches.{IsBreach, IsFirstBreach};

/// In a lawful net both ends of a connection are push, or both are pull.
pub fn ends_agree()
    ensures { (ss : List Shape) (cs : List Connection) (c : Connection) → Lawful ss cs → Contains cs c → IsPull ss cs (joined_port Output c) ↔ IsPull ss cs (joined_port Input c) }
{}

/// The kind of a port depends neither on the order of the connections nor on repetitions of them.
pub fn order_is_free()
    ensures { (ss : List Shape) (cs ds : List Connection) → ((c : Connection) → Contains cs c ↔ Contains ds c) → (p : Port) → IsPull ss cs p ↔ IsPull ss ds p }
{}

/// A port that reaches no push or pull port is push.
///
/// This includes each port of a set of agnostic ports that are linked only with one another
/// (`ring`).
pub fn push_by_default()
    ensures alone { (ss : List Shape) (cs : List Connection) (p : Port) → ((q : Port) → Reaches ss cs p q → ⊥) → IsPush ss cs p }
    ensures ring { (ss : List Shape) (cs : List Connection) (ring : Port → Bool) → ((p : Port) → ring p ≡ true → IsAgnostic ss p)
        → ((p q : Port) → ring p ≡ true → Linked ss cs p q → ring q ≡ true) → (p : Port) → ring p ≡ true → IsPush ss cs p }
{}

/// There is at most one first breach, and none in a lawful net.
pub fn one_answer()
    ensures one { (ss : List Shape) (cs : List Connection) (f g : PortFault) → IsFirstBreach ss cs f → IsFirstBreach ss cs g → f ≡ g }
    ensures lawful { (ss : List Shape) (cs : List Connection) (f : PortFault) → Lawful ss cs → IsBreach ss cs f → ⊥ }
{}

/// In a lawful net each port has a connection; a push output or a pull input has exactly one.
///
/// A push at such an output has one target, and a pull at such an input has one source.
pub fn each_port_has_its_connection()
    ensures connected { (ss : List Shape) (cs : List Connection) (p : Port) → Lawful ss cs → Has cs p → (c : Connection) × Contains cs c × (joined_port p.side c ≡ p) }
    ensures one_target { (ss : List Shape) (cs : List Connection) (c d : Connection) → Lawful ss cs → Contains cs c → Contains cs d
        → joined_port Output c ≡ joined_port Output d → IsPush ss cs (joined_port Output c) → c ≡ d }
    ensures one_source { (ss : List Shape) (cs : List Connection) (c d : Connection) → Lawful ss cs → Contains cs c → Contains cs d
        → joined_port Input c ≡ joined_port Input d → IsPull ss cs (joined_port Input c) → c ≡ d }
{}
