//! Theorems about the definitions.

ghost use Rattle.std.specs.Prelude.{◌≡◌, ◌↔◌, ℕ, ◌+◌, ◌-◌, ◌^◌, ◌<◌, ◌≤◌, [], ◌∷◌, ◌++◌, List, length, count_by, take, max, Ok, Option, Some, None, codes, slice_get, true};
ghost use Rattle.click_base.specs.declared.class.Class.{Class};
ghost use Rattle.click_classes.specs.declared.state.State.{State};
ghost use Rattle.click_classes.specs.declared.values.entry.Entry.{Entry};
ghost use Rattle.click_classes.specs.declared.values.pattern.Pattern.{Pattern};
ghost use Rattle.click_classes.specs.declared.values.prefix.Prefix.{Prefix};
ghost use Rattle.click_packet.specs.Header.{IsGoodHeader};
ghost use Rattle.click_packet.specs.Packet.{Packet};
ghost use Rattle.click_classes.specs.Acts.{pass, act, tries, gives, stored, emission, Stored};
ghost use Rattle.click_classes.specs.PacketList.{PacketList};
ghost use Rattle.click_classes.specs.Queues.{Queued, queue_of, IsSound};
ghost use Rattle.click_classes.specs.QuerierRuns.{QuerierEvent, HasEther, IsAccount, IsSoundQuerier, after_events, all_given, waiting_packets};
ghost use Rattle.click_classes.specs.declared.neighbours.Querier.{Querier};
ghost use Rattle.std.specs.Str.{bytes_eq};
ghost use Rattle.click_classes.specs.Settings.{settings};
ghost use Rattle.click_classes.specs.declared.packet_effects.Verdict.{Verdict};
ghost use Rattle.click_base.specs.Classes.{classes, name, class_of};
ghost use Rattle.click_classes.specs.Ports.{counts};
ghost use Rattle.click_classes.specs.Entries.{table};
ghost use Rattle.click_classes.specs.Fitting.{FitsPorts, HasTurn, AreThere, AreAsked};
ghost use Rattle.click_classes.specs.Made.{IsMade};
ghost use Rattle.click_classes.specs.Matches.{matches};
ghost use Rattle.click_classes.specs.Patterns.{pattern};
ghost use Rattle.click_classes.specs.Routes.{Covers, IsRoute, route};
ghost use Rattle.click_classes.specs.State.{class};
ghost use Rattle.click_classes.specs.TakeOver.{taken_over};
ghost use Rattle.click_classes.specs.Uses.{HasUse};
ghost use Rattle.click_classes.specs.Values.{cleared, prefix};

/// The pattern `-` matches every packet.
pub fn matches_all()
    ensures { (p : Pattern) (bytes : List ℕ) → pattern (codes "-" ∷ []) ≡ Ok p → matches p bytes ≡ true }
{}

/// The bits of a prefix after its length are clear. Clearing an address twice is clearing it once.
pub fn bits_are_cleared()
    ensures prefix { (bytes : List ℕ) (p : Prefix) → prefix bytes ≡ Ok p → cleared p.len p.network ≡ p.network }
    ensures again { (len : ℕ) (address : List ℕ) → cleared len (cleared len address) ≡ cleared len address }
{}

/// A first state is a state of its class, and some numbers of inputs and outputs fit its counts.
pub fn has_use()
    ensures class { (c : Class) (text : List ℕ) (s : State) → IsMade c text (Ok s) → class s ≡ c }
    ensures ports { (c : Class) (text : List ℕ) (s : State) → IsMade c text (Ok s) → HasUse (counts s) }
{}

/// A table has at most one entry for an address.
pub fn one_route()
    ensures { (words : List (List (List ℕ))) (es : List Entry) (address : List ℕ) (e f : Entry) → table [] words ≡ Ok es
        → IsRoute es address e → IsRoute es address f → e ≡ f }
{}

/// A lookup finds the entry with the longest prefix that covers the address.
///
/// If it finds none, no entry of the table covers the address.
pub fn route_is_longest()
    ensures found { (es : List Entry) (address : List ℕ) (e : Entry) → route es address ≡ Some e → IsRoute es address e }
    ensures none { (es : List Entry) (address : List ℕ) → route es address ≡ None → (k : ℕ) (e : Entry) → slice_get es k ≡ Some e
        → Covers e.prefix address → ⊥ }
{}

/// A queue counts every packet that is pushed: the sum of its length and its drops grows by one.
///
/// Its length stays within its capacity, and its high-water mark stays at least its length. The law
/// requires a count of drops below 2^64 - 1.
pub fn queue_counts_each()
    ensures { (outputs input : ℕ) (s : State) (p : Packet) (old : Queued) → queue_of s ≡ Some old → old.drops < 2 ^ 64 - 1
        → (new : Queued) × (queue_of (act outputs s input p).state ≡ Some new)
        × (length new.list.packets + new.drops ≡ length old.list.packets + old.drops + 1)
        × (new.list.capacity ≡ old.list.capacity)
        × (length old.list.packets ≤ old.list.capacity → length new.list.packets ≤ new.list.capacity)
        × (length old.list.packets ≤ old.highest → length new.list.packets ≤ new.highest) }
{}

/// A queue loses only counted packets, and the definition states which ones.
///
/// While there is room it appends each packet. A full Queue drops the new packet, and a full
/// FrontDropQueue its oldest one. Each drop is counted, up to 2^64 - 1. A pull removes the first
/// packet.
pub fn queue_loses_nothing()
    ensures room { (outputs input : ℕ) (s : State) (p : Packet) (old : Queued) → queue_of s ≡ Some old
        → length old.list.packets < old.list.capacity
        → queue_of (act outputs s input p).state ≡ Some (record old {
          list = record old.list { packets = old.list.packets ++ p ∷ [] };
          highest = max (length old.list.packets + 1) old.highest;
        }) }
    ensures full { (outputs input : ℕ) (list : PacketList) (drops highest : ℕ) (p : Packet) → length list.packets ≡ list.capacity
        → drops < 2 ^ 64 - 1 → (act outputs (State.Queue list drops highest) input p).state ≡ State.Queue list (drops + 1) highest }
    ensures full_front { (outputs input : ℕ) (list : PacketList) (drops highest : ℕ) (p first : Packet) (rest : List Packet)
        → length list.packets ≡ list.capacity → list.packets ≡ first ∷ rest → drops < 2 ^ 64 - 1
        → (act outputs (State.FrontDropQueue list drops highest) input p).state
        ≡ State.FrontDropQueue (record list { packets = rest ++ p ∷ [] }) (drops + 1) highest }
    ensures pulled { (s : State) (old : Queued) (first : Packet) (rest : List Packet) → queue_of s ≡ Some old → old.list.packets ≡ first ∷ rest
        → (e : Stored) × (stored s ≡ Some e) × (e.packet ≡ first)
        × (queue_of e.state ≡ Some (record old { list = record old.list { packets = rest } })) }
{}

/// A first state has no packets and no counts, and so its queue is sound.
pub fn made_states_are_settings()
    ensures settings { (c : Class) (text : List ℕ) (s : State) → IsMade c text (Ok s) → settings s ≡ s }
    ensures sound { (c : Class) (text : List ℕ) (s : State) → IsMade c text (Ok s) → IsSound s }
{}

/// A queue never stores more packets than it has room for.
///
/// Its high-water mark is at least the number of its packets, whatever is pushed and pulled.
pub fn queues_stay_sound()
    ensures pushed { (outputs input : ℕ) (s : State) (p : Packet) → IsSound s → IsSound (act outputs s input p).state }
    ensures pulled { (inputs outputs input : ℕ) (s : State) (p : Packet) → IsSound s → IsSound (gives inputs outputs s input p).state }
    ensures stored { (s : State) (e : Stored) → stored s ≡ Some e → IsSound s → IsSound e.state }
    ensures emitted { (s : State) (e : Stored) → emission s ≡ Some e → IsSound s → IsSound e.state }
{}

/// Packets change neither the class of an element nor its settings.
pub fn packets_keep_settings()
    ensures pushed { (outputs input : ℕ) (s : State) (p : Packet) → settings (act outputs s input p).state ≡ settings s }
    ensures pulled { (inputs outputs input : ℕ) (s : State) (p : Packet) → settings (gives inputs outputs s input p).state ≡ settings s }
    ensures stored { (s : State) (e : Stored) → stored s ≡ Some e → settings e.state ≡ settings s }
    ensures emitted { (s : State) (e : Stored) → emission s ≡ Some e → settings e.state ≡ settings s }
    ensures class { (s : State) → class (settings s) ≡ class s }
{}

/// If a packet has a valid header and DecIPTTL lets it pass, its header is valid afterwards.
pub fn aged_header_is_good()
    ensures { (p : Packet) (refused : List (List ℕ)) → (pass State.DecIPTTL p).verdict ≡ Verdict.Forward → IsGoodHeader p.bytes refused
        → IsGoodHeader (pass State.DecIPTTL p).packet.bytes refused }
{}

/// A Tee sends the unchanged packet to all its outputs, in order from output 0.
pub fn tee_copies()
    ensures { (outputs input : ℕ) (n : Option ℕ) (p : Packet) → act outputs (State.Tee n) input p
        ≡ record { state = State.Tee n; packet = p; outputs = record { first = 0; count = outputs } } }
{}

/// An element whose state fits its ports names only ports that exist.
///
/// It pushes packets, and copies of pulled ones, only to outputs that exist. It asks only inputs
/// that exist, each at most once.
pub fn named_ports_are_there()
    ensures pushed { (inputs outputs input : ℕ) (s : State) (p : Packet) → FitsPorts inputs outputs s → input < inputs → AreThere outputs (act outputs s input p).outputs }
    ensures copied { (inputs outputs input : ℕ) (s : State) (p : Packet) → AreThere outputs (gives inputs outputs s input p).copies }
    ensures asked { (inputs outputs output : ℕ) (s : State) → FitsPorts inputs outputs s → output < outputs → AreAsked inputs (tries inputs s output) }
{}

/// An element whose state fits its ports still does after any packet.
///
/// In a state that packets have not changed, the next port exists too: it is port 0.
pub fn ports_stay_there()
    ensures pushed { (inputs outputs input : ℕ) (s : State) (p : Packet) → FitsPorts inputs outputs s → FitsPorts inputs outputs (act outputs s input p).state }
    ensures pulled { (inputs outputs input : ℕ) (s : State) (p : Packet) → FitsPorts inputs outputs s → FitsPorts inputs outputs (gives inputs outputs s input p).state }
    ensures held { (inputs outputs : ℕ) (s : State) (e : Stored) → stored s ≡ Some e → FitsPorts inputs outputs s → FitsPorts inputs outputs e.state }
    ensures emitted { (inputs outputs : ℕ) (s : State) (e : Stored) → emission s ≡ Some e → FitsPorts inputs outputs s → FitsPorts inputs outputs e.state }
    ensures first { (inputs outputs : ℕ) (s : State) → settings s ≡ s → (counts s).inputs.0 ≤ inputs → (counts s).outputs.0 ≤ outputs → HasTurn inputs outputs s }
{}

/// A queue that takes over keeps a prefix of the old queue's packets and counts the others as
/// drops.
pub fn taken_queues_lose_nothing()
    ensures { (outputs : ℕ) (s old : State) (q before : Queued) → class s ≡ class old → queue_of s ≡ Some q → queue_of old ≡ Some before
        → (t : Queued) × (queue_of (taken_over outputs s old) ≡ Some t) × (t.list ≡ record { packets = take q.list.capacity before.list.packets; capacity = q.list.capacity })
        × (length t.list.packets + t.drops ≡ length before.list.packets) × (t.highest ≡ length t.list.packets) }
{}

/// An ARPQuerier is sound from its first state on, whatever happens to it.
pub fn queriers_stay_sound()
    ensures made { (c : Class) (text : List ℕ) (q : Querier) → IsMade c text (Ok (State.ARPQuerier q)) → IsSoundQuerier q }
    ensures kept { (outputs : ℕ) (q : Querier) (es : List QuerierEvent) → IsSoundQuerier q → IsSoundQuerier (after_events outputs q es).querier }
{}

/// Each packet that an ARPQuerier is given leaves once, or is dropped and counted once, or waits.
///
/// What leaves are these packets, each with the Ethernet header of its destination, and queries. If
/// the Ethernet address of an address is known, no packet for that address waits: each has left, or
/// was dropped and counted.
pub fn queriers_account_for_each_packet()
    ensures account { (outputs : ℕ) (q : Querier) (es : List QuerierEvent) → IsSoundQuerier q
        → (sent : List Packet) × (dropped : List Packet) × IsAccount outputs q (all_given es) (after_events outputs q es) sent dropped }
    ensures known { (outputs : ℕ) (q : Querier) (es : List QuerierEvent) (address ether : List ℕ) (sent dropped : List Packet) → IsSoundQuerier q
        → IsAccount outputs q (all_given es) (after_events outputs q es) sent dropped → HasEther (after_events outputs q es).querier address ether
        → let is_for = (λ (p : Packet). bytes_eq p.destination address) in
        count_by is_for (waiting_packets q) + count_by is_for (all_given es) ≡ count_by is_for sent + count_by is_for dropped }
    ensures one { (q : Querier) (address : List ℕ) → IsSoundQuerier q → count_by (λ (p : Packet). bytes_eq p.destination address) (waiting_packets q) ≤ 1 }
{}

/// An ARPQuerier that takes over in a hot swap keeps only its own IP address and Ethernet address.
///
/// The table, the packets that wait and both counts are those of the old one.
pub fn taken_queriers_keep_their_own_addresses()
    ensures { (outputs : ℕ) (q old : Querier) → taken_over outputs (State.ARPQuerier q) (State.ARPQuerier old)
        ≡ State.ARPQuerier (record old { ip = q.ip; ether = q.ether }) }
{}

/// A Counter that takes over from a Counter continues from both its counts.
pub fn taken_counters_go_on()
    ensures { (outputs count byte_count passed passed_bytes : ℕ) → taken_over outputs (State.Counter count byte_count) (State.Counter passed passed_bytes)
        ≡ State.Counter passed passed_bytes }
{}

/// A Switch that takes over keeps the old position if it can.
///
/// It can if the position is -1 or one of its outputs; otherwise it begins with its own. If the old
/// Switch fitted the same ports, the position is always kept.
pub fn taken_switches_keep_their_position()
    ensures none { (outputs : ℕ) (own : Option ℕ) → taken_over outputs (State.Switch own) (State.Switch None) ≡ State.Switch None }
    ensures there { (outputs k : ℕ) (own : Option ℕ) → k < outputs → taken_over outputs (State.Switch own) (State.Switch (Some k)) ≡ State.Switch (Some k) }
    ensures past { (outputs k : ℕ) (own : Option ℕ) → outputs ≤ k → taken_over outputs (State.Switch own) (State.Switch (Some k)) ≡ State.Switch own }
    ensures fitting { (inputs outputs : ℕ) (own k : Option ℕ) → FitsPorts inputs outputs (State.Switch k)
        → taken_over outputs (State.Switch own) (State.Switch k) ≡ State.Switch k }
{}

/// An element of any other class keeps its first state in a hot swap.
///
/// An element whose predecessor of the same name is of another class keeps it too.
pub fn all_others_begin_anew()
    ensures other_class { (outputs : ℕ) (s old : State) → (class s ≡ class old → ⊥) → taken_over outputs s old ≡ s }
    ensures not_taken { (outputs : ℕ) (s old : State) → (class s ≡ Class.Queue → ⊥) → (class s ≡ Class.FrontDropQueue → ⊥) → (class s ≡ Class.Counter → ⊥)
        → (class s ≡ Class.Switch → ⊥) → (class s ≡ Class.ARPQuerier → ⊥) → taken_over outputs s old ≡ s }
{}

/// Taking over keeps the class of an element and its fit to its ports.
///
/// It keeps all settings except a Switch's position, and no queue has more packets than room.
pub fn taking_over_keeps_elements_sound()
    ensures class { (outputs : ℕ) (s old : State) → class (taken_over outputs s old) ≡ class s }
    ensures settings { (outputs : ℕ) (s old : State) → (class s ≡ Class.Switch → ⊥) → settings (taken_over outputs s old) ≡ settings s }
    ensures ports { (inputs outputs : ℕ) (s old : State) → FitsPorts inputs outputs s → FitsPorts inputs outputs (taken_over outputs s old) }
    ensures sound { (outputs : ℕ) (s old : State) → IsSound s → IsSound (taken_over outputs s old) }
{}
