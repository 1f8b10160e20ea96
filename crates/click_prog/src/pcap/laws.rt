//! Laws about the definitions of a run.

ghost use Rattle.std.specs.Prelude.{◌≡◌, ℕ, List};
ghost use Rattle.click_packet.specs.Packet.{Packet};
ghost use Rattle.click_capture.specs.Captures.{Record};
ghost use Rattle.click_router.specs.State.{RouterState};
ghost use Rattle.click_prog.specs.Passages.{Leads};
ghost use Rattle.click_prog.specs.Carrying.{AllGive};

/// A packet leads to exactly one list of packets and to one router.
pub fn packets_lead_one_way()
    ensures { (source sink : List ℕ) (p : Packet) (s t u : RouterState) (ps qs : List Packet) → Leads source sink p s ps t → Leads source sink p s qs u → (ps ≡ qs) × (t ≡ u) }
{}

/// The records of a capture lead to exactly one list of records and to one router.
pub fn records_give_one_capture()
    ensures { (source sink : List ℕ) (rs : List Record) (s t u : RouterState) (xs ys : List Record) → AllGive source sink rs s xs t → AllGive source sink rs s ys u → (xs ≡ ys) × (t ≡ u) }
{}
