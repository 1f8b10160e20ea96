//! Theorems about forwarders.

ghost use Rattle.std.specs.Prelude.{◌≡◌, ◌++◌, ℕ, List};
ghost use Rattle.click_router.specs.declared.call.Call.{Call};
ghost use Rattle.click_router.specs.declared.call.Reply.{Reply};
ghost use Rattle.click_links.specs.Ends.{Attempt};
ghost use Rattle.click_links.specs.Forwarding.{Forwards, sent_by, gifts_by};

/// States that two consecutive sequences of what a forwarder does are one.
pub fn forwarding_goes_on()
    ensures { (devices : List (List ℕ)) (calls calls2 calls3 : List (Call × Reply)) (a b c : List Attempt)
        → Forwards devices calls calls2 a b → Forwards devices calls2 calls3 b c → Forwards devices calls calls3 a c }
{}

/// States that each link sends exactly the packets that its device's Transmits returned, in order.
pub fn each_link_sends_what_its_device_gave()
    ensures { (devices : List (List ℕ)) (calls calls2 : List (Call × Reply)) (before after : List Attempt) (forwards : Forwards devices calls calls2 before after) (device : List ℕ)
        → sent_by device after ≡ sent_by device before ++ gifts_by device forwards.made }
{}
