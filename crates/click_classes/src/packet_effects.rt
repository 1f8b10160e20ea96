//! The effects of elements on packets, by class.
//!
//! The functions of each class are in its own file; this module dispatches to them.

ghost use Rattle.std.specs.Prelude.{◌≡◌, ℕ, MatchOption, None, true, false, nat_lt, if◌then◌else◌};
ghost use Rattle.click_base.specs.Classes.{is_gateway};
ghost use Rattle.click_classes.specs.State.{class};
ghost use Rattle.click_classes.specs.Acts.{after, range, side_output, pushed_to, copied_to, is_answer, is_active, pass, passed, act, sent, tries, stored, emission, burst_of, gives};

use crate::classes::address::take_address;
use crate::classes::classifier::classify;
use crate::classes::encap::encapsulate;
use crate::classes::filters::sort_by;
use crate::classes::frames::{host_verdict, turn_frame};
use crate::classes::gateway::{answer_arp, answer_ping, report_error};
use crate::classes::header::{age, header_verdict};
use crate::classes::length::length_verdict;
use crate::classes::paint::paint_tee_verdict;
use crate::classes::plain::count_packet;
use crate::classes::querier::{forward, learn};
use crate::classes::queues::{store, store_dropping_first};
use crate::classes::source::has_next;
use crate::classes::tunnels::{enter_tunnel, remove_header, seal_header, turn_datagram};
use crate::packet_list::PacketList;
use crate::state::State;
use click_packet::Packet;

/// A range of consecutive ports: `count` of them, beginning with `first`.
///
/// In a range of inputs, input 0 follows the last.
#[derive(Clone, Copy, Debug, PartialEq, Eq)]
pub struct PortRange {
    pub first: u16,
    pub count: u16,
}

/// The verdict on a packet that passes an element: where it goes.
#[derive(Clone, Copy, Debug, PartialEq, Eq)]
pub enum Verdict {
    /// The packet goes to output 0.
    Forward,
    /// The packet goes to output 0, and a copy to output 1 if that exists.
    Copied,
    /// The packet goes to output 1 if that exists, or else nowhere; a pull does not return it.
    SideOutput,
    /// The packet goes nowhere.
    Dropped,
}

/// The effect of a pulled packet: which outputs get copies first, and whether the pull returns it.
#[derive(Clone, Copy, Debug, PartialEq, Eq)]
pub struct PullOutcome {
    pub copies: PortRange,
    pub answers: bool,
}

const NONE: PortRange = PortRange { first: 0, count: 0 };

const OUTPUT_0: PortRange = PortRange { first: 0, count: 1 };

/// Returns the port after this one, or port 0 after the last.
pub fn after(ports: u16, port: u16) -> u16
    ensures { result ≡ after ports port }
{
    if u32::from(port) + 1 < u32::from(ports) {
        port + 1
    } else {
        0
    }
}

/// Returns output 1 as a range, or an empty range if it does not exist.
fn side_output(outputs: u16) -> PortRange
    ensures { result ≡ side_output outputs }
{
    PortRange {
        first: 1,
        count: if 1 < outputs { 1 } else { 0 },
    }
}

/// Returns the outputs that get a pushed packet with this verdict.
#[inline(always)]
fn pushed_to(outputs: &u16, verdict: Verdict) -> PortRange
    ensures { result ≡ pushed_to outputs.now verdict }
{
    match verdict {
        Verdict::Forward => OUTPUT_0,
        Verdict::Copied => PortRange {
            first: 0,
            count: if 1 < *outputs { 2 } else { 1 },
        },
        Verdict::SideOutput => side_output(*outputs),
        Verdict::Dropped => NONE,
    }
}

/// Returns the effect of a pulled packet with this verdict.
fn pulled(outputs: u16, verdict: Verdict) -> PullOutcome
    ensures copies { result.copies ≡ copied_to outputs verdict }
    ensures answers { result.answers ≡ is_answer verdict }
{
    match verdict {
        Verdict::Forward => PullOutcome {
            copies: NONE,
            answers: true,
        },
        Verdict::Copied => PullOutcome {
            copies: side_output(outputs),
            answers: true,
        },
        Verdict::SideOutput => PullOutcome {
            copies: side_output(outputs),
            answers: false,
        },
        Verdict::Dropped => PullOutcome {
            copies: NONE,
            answers: false,
        },
    }
}

/// Returns whether packets pass a Suppressor at this port.
fn is_active(active: &[bool; 16], port: u16) -> bool
    ensures { result ≡ is_active active.now port }
{
    usize::from(port) < 16 && active[usize::from(port)]
}

impl State {
    /// Passes a packet through an element of the gateway package.
    ///
    /// perf: out of line, so that these classes cost the other ones no registers.
    #[tactic(auto, unfolding(crate::specs::Acts::pass))]
    #[cold]
    #[inline(never)]
    fn pass_gateway(&self, packet: &mut Packet) -> Verdict
        ensures { is_gateway (class self.now) ≡ true → pass self.now packet.old ≡ passed self.now packet.new result }
    {
        match self {
            State::ARPResponder { stations } => answer_arp(stations.as_slice(), packet),
            State::ICMPError { report } => report_error(report, packet),
            State::ICMPPingResponder => answer_ping(packet),
            State::HostEtherFilter { ether } => host_verdict(*ether, packet),
            State::EtherMirror => turn_frame(packet),
            State::IPMirror => turn_datagram(packet),
            State::SetIPChecksum => seal_header(packet),
            State::StripIPHeader => remove_header(packet),
            State::UDPIPEncap { tunnel } => enter_tunnel(tunnel, packet),
            _ => Verdict::Dropped,
        }
    }

    /// Pushes a packet into an input of an element of the gateway package. Returns the outputs that
    /// get it.
    ///
    /// perf: out of line, so that these classes cost the other ones no registers.
    #[tactic(auto, unfolding(crate::specs::Acts::act))]
    #[cold]
    #[inline(never)]
    fn act_gateway(&mut self, outputs: &u16, input: u16, packet: &mut Packet) -> PortRange
        ensures { is_gateway (class self.old) ≡ true
            → act outputs.now self.old input packet.old ≡ record { state = self.new; packet = packet.new; outputs = result } }
    {
        match self {
            State::ARPQuerier { querier } => {
                if input == 0 {
                    forward(querier, *outputs, packet)
                } else {
                    learn(querier, packet)
                }
            }
            State::IPFilter { rules } => sort_by(rules, packet),
            State::IPClassifier { rules } => sort_by(rules, packet),
            State::ARPResponder { .. }
            | State::ICMPError { .. }
            | State::ICMPPingResponder
            | State::HostEtherFilter { .. }
            | State::EtherMirror
            | State::IPMirror
            | State::SetIPChecksum
            | State::StripIPHeader
            | State::UDPIPEncap { .. } => pushed_to(outputs, self.pass_gateway(packet)),
            _ => NONE,
        }
    }

    /// Passes a packet from an input to the outputs of the verdict that is returned.
    #[tactic(auto, unfolding(crate::specs::Acts::pass))]
    #[inline(always)]
    fn pass(&mut self, packet: &mut Packet) -> Verdict
        ensures { pass self.old packet.old ≡ passed self.new packet.new result }
    {
        match self {
            State::Counter { count, byte_count } => {
                count_packet(count, byte_count, packet);
                Verdict::Forward
            }
            State::Null | State::PushNull | State::PullNull => Verdict::Forward,
            State::Paint { colour } => {
                packet.set_paint(*colour);
                Verdict::Forward
            }
            State::PaintTee { colour } => paint_tee_verdict(*colour, packet),
            State::Strip { count } => {
                packet.strip(usize::from(*count));
                Verdict::Forward
            }
            State::CheckLength { max } => length_verdict(*max, packet),
            State::GetIPAddress { offset } => {
                take_address(*offset, packet);
                Verdict::Forward
            }
            State::CheckIPHeader { refused } => header_verdict(refused, packet),
            State::DecIPTTL => age(packet),
            State::EtherEncap { header } => {
                if encapsulate(header, packet) {
                    Verdict::Forward
                } else {
                    Verdict::Dropped
                }
            }
            State::ARPResponder { .. }
            | State::ICMPError { .. }
            | State::ICMPPingResponder
            | State::HostEtherFilter { .. }
            | State::EtherMirror
            | State::IPMirror
            | State::SetIPChecksum
            | State::StripIPHeader
            | State::UDPIPEncap { .. } => self.pass_gateway(packet),
            State::Queue { .. }
            | State::FrontDropQueue { .. }
            | State::Unqueue
            | State::Switch { .. }
            | State::PullSwitch { .. }
            | State::RoundRobinSwitch { .. }
            | State::RoundRobinSched { .. }
            | State::PrioSched
            | State::Tee { .. }
            | State::PullTee { .. }
            | State::Idle
            | State::Discard
            | State::Suppressor { .. }
            | State::Classifier { .. }
            | State::StaticIPLookup { .. }
            | State::InfiniteSource { .. }
            | State::FromDevice { .. }
            | State::ToDevice { .. }
            | State::ARPQuerier { .. }
            | State::IPFilter { .. }
            | State::IPClassifier { .. } => Verdict::Dropped,
        }
    }

    /// Pushes a packet into an input. Returns the outputs that get it, in order.
    ///
    /// perf: `outputs` is a reference, so that the number is loaded only for classes that need it.
    #[tactic(auto, unfolding(crate::specs::Acts::act, crate::specs::Acts::pass))]
    #[inline(always)]
    pub fn act(&mut self, outputs: &u16, input: u16, packet: &mut Packet) -> PortRange
        ensures { act outputs.now self.old input packet.old ≡ record { state = self.new; packet = packet.new; outputs = result } }
    {
        match self {
            // perf: the cases of `pass` are repeated here, because a second match would cost as
            // much as most of them do.
            State::Null | State::PushNull | State::PullNull => OUTPUT_0,
            State::Paint { colour } => {
                packet.set_paint(*colour);
                OUTPUT_0
            }
            State::Counter { count, byte_count } => {
                count_packet(count, byte_count, packet);
                OUTPUT_0
            }
            State::Strip { count } => {
                packet.strip(usize::from(*count));
                OUTPUT_0
            }
            State::GetIPAddress { offset } => {
                take_address(*offset, packet);
                OUTPUT_0
            }
            State::PaintTee { colour } => pushed_to(outputs, paint_tee_verdict(*colour, packet)),
            State::CheckLength { max } => pushed_to(outputs, length_verdict(*max, packet)),
            State::CheckIPHeader { refused } => pushed_to(outputs, header_verdict(refused, packet)),
            State::DecIPTTL => pushed_to(outputs, age(packet)),
            State::EtherEncap { header } => {
                if encapsulate(header, packet) {
                    OUTPUT_0
                } else {
                    NONE
                }
            }
            State::Queue {
                list,
                drops,
                highest,
            } => {
                store(list, drops, highest, packet);
                NONE
            }
            State::FrontDropQueue {
                list,
                drops,
                highest,
            } => {
                store_dropping_first(list, drops, highest, packet);
                NONE
            }
            State::Switch { output } => match output {
                Some(output) => PortRange {
                    first: u16::from(*output),
                    count: 1,
                },
                None => NONE,
            },
            State::RoundRobinSwitch { next } => {
                let first = *next;
                *next = after(*outputs, first);
                PortRange { first, count: 1 }
            }
            State::Tee { .. } => PortRange {
                first: 0,
                count: *outputs,
            },
            State::Suppressor { active } => {
                if is_active(active, input) {
                    PortRange {
                        first: input,
                        count: 1,
                    }
                } else {
                    NONE
                }
            }
            State::Classifier { patterns } => match classify(patterns, packet) {
                Some(output) => PortRange {
                    first: output as u16,
                    count: 1,
                },
                None => NONE,
            },
            State::StaticIPLookup { entries } => match entries.find(packet.destination()) {
                Some(entry) => {
                    if let Some(gateway) = entry.gateway {
                        packet.set_destination(gateway);
                    }
                    PortRange {
                        first: u16::from(entry.output),
                        count: 1,
                    }
                }
                None => NONE,
            },
            State::ARPResponder { .. }
            | State::ARPQuerier { .. }
            | State::ICMPError { .. }
            | State::ICMPPingResponder
            | State::HostEtherFilter { .. }
            | State::EtherMirror
            | State::IPMirror
            | State::SetIPChecksum
            | State::StripIPHeader
            | State::UDPIPEncap { .. }
            | State::IPFilter { .. }
            | State::IPClassifier { .. } => self.act_gateway(outputs, input, packet),
            State::Unqueue
            | State::PullSwitch { .. }
            | State::RoundRobinSched { .. }
            | State::PrioSched
            | State::PullTee { .. }
            | State::Idle
            | State::Discard
            | State::InfiniteSource { .. }
            | State::FromDevice { .. }
            | State::ToDevice { .. } => NONE,
        }
    }

    /// Returns the inputs that a pull at an output asks, in order, up to the first packet.
    #[tactic(auto, unfolding(crate::specs::Acts::tries))]
    #[inline(always)]
    pub fn tries(&self, inputs: u16, output: u16) -> PortRange
        ensures { result ≡ tries inputs self.now output }
    {
        match self {
            State::PullSwitch { input } => match input {
                Some(input) => PortRange {
                    first: u16::from(*input),
                    count: 1,
                },
                None => NONE,
            },
            State::RoundRobinSched { next } => PortRange {
                first: *next,
                count: inputs,
            },
            State::PrioSched => PortRange {
                first: 0,
                count: inputs,
            },
            State::Suppressor { active } => PortRange {
                first: output,
                count: if is_active(active, output) { 1 } else { 0 },
            },
            State::PullTee { .. }
            | State::Counter { .. }
            | State::Null
            | State::PullNull
            | State::Paint { .. }
            | State::PaintTee { .. }
            | State::Strip { .. }
            | State::CheckLength { .. }
            | State::GetIPAddress { .. }
            | State::CheckIPHeader { .. }
            | State::DecIPTTL
            | State::EtherEncap { .. }
            | State::ARPResponder { .. }
            | State::ICMPError { .. }
            | State::ICMPPingResponder
            | State::HostEtherFilter { .. }
            | State::EtherMirror
            | State::IPMirror
            | State::SetIPChecksum
            | State::StripIPHeader
            | State::UDPIPEncap { .. } => PortRange { first: 0, count: 1 },
            State::Queue { .. }
            | State::FrontDropQueue { .. }
            | State::Unqueue
            | State::Switch { .. }
            | State::RoundRobinSwitch { .. }
            | State::Tee { .. }
            | State::Idle
            | State::Discard
            | State::PushNull
            | State::Classifier { .. }
            | State::StaticIPLookup { .. }
            | State::InfiniteSource { .. }
            | State::FromDevice { .. }
            | State::ToDevice { .. }
            | State::ARPQuerier { .. }
            | State::IPFilter { .. }
            | State::IPClassifier { .. } => NONE,
        }
    }

    /// Stores a packet that is pushed into a Queue, without moving `packet`.
    ///
    /// Returns false, and changes nothing, if the element is of another class.
    #[tactic(auto, unfolding(crate::specs::Acts::act))]
    #[inline(always)]
    pub fn store(&mut self, packet: &Packet) -> bool
        ensures stored { result ≡ true → (outputs input : ℕ)
            → act outputs self.old input packet.now ≡ record { state = self.new; packet = packet.now; outputs = record { first = 0; count = 0 } } }
        ensures other { result ≡ false → self.new ≡ self.old }
    {
        let State::Queue {
            list,
            drops,
            highest,
        } = self
        else {
            return false;
        };
        store(list, drops, highest, packet);
        true
    }

    /// Removes the packet that the element returns without a pull of its own, and writes it to
    /// `packet`.
    ///
    /// Returns false, and changes nothing, if there is none.
    #[tactic(auto, unfolding(crate::specs::Acts::stored))]
    #[inline(always)]
    pub fn take_stored(&mut self, packet: &mut Packet) -> bool
        ensures { MatchOption (stored self.old) ((result ≡ false) × (self.new ≡ self.old) × (packet.new ≡ packet.old))
            (λ s. (result ≡ true) × (s ≡ record { packet = packet.new; state = self.new })) }
    {
        match self {
            State::Queue { list, .. } => {
                if list.len() == 0 {
                    return false;
                }
                list.pop_front(packet);
                true
            }
            State::FrontDropQueue { list, .. } => {
                if list.len() == 0 {
                    return false;
                }
                list.pop_front(packet);
                true
            }
            _ => false,
        }
    }

    /// Writes the packet that a source emits next to `packet`, and counts it.
    ///
    /// Returns false, and changes nothing, if there is none.
    #[tactic(auto, unfolding(crate::specs::Acts::emission))]
    #[inline(always)]
    pub fn emit(&mut self, packet: &mut Packet) -> bool
        ensures { MatchOption (emission self.old) ((result ≡ false) × (self.new ≡ self.old) × (packet.new ≡ packet.old))
            (λ s. (result ≡ true) × (s ≡ record { packet = packet.new; state = self.new })) }
    {
        let State::InfiniteSource {
            bytes,
            limit,
            active,
            count,
            ..
        } = self
        else {
            return false;
        };
        if !has_next(bytes, *limit, *active, *count) {
            return false;
        }
        *count = count.saturating_add(1);
        let _fits = packet.fill(bytes.as_slice());
        true
    }

    /// Returns the maximum number of packets that a source emits when its task runs once.
    #[inline(always)]
    fn burst(&self) -> u8
        ensures { result ≡ burst_of self.now }
    {
        match self {
            State::InfiniteSource { burst, .. } => *burst,
            _ => 0,
        }
    }

    /// Begins a run of a source's task: writes the first packet to `packet`, and counts it.
    ///
    /// Returns the maximum number of packets of the run, or 0, and changes nothing, if there is
    /// none.
    #[inline(always)]
    pub fn emit_first(&mut self, packet: &mut Packet) -> u8
        ensures { MatchOption (if nat_lt 0 (burst_of self.old) then emission self.old else None) ((result ≡ 0) × (self.new ≡ self.old) × (packet.new ≡ packet.old))
            (λ s. (result ≡ burst_of self.old) × (s ≡ record { packet = packet.new; state = self.new })) }
    {
        let most = self.burst();
        if most > 0 && self.emit(packet) {
            most
        } else {
            0
        }
    }

    /// Handles a packet that was pulled through an input. Returns its effect.
    #[tactic(auto, unfolding(crate::specs::Acts::gives))]
    #[inline(always)]
    pub fn gives(
        &mut self,
        inputs: u16,
        outputs: u16,
        input: u16,
        packet: &mut Packet,
    ) -> PullOutcome
        ensures { gives inputs outputs self.old input packet.old
            ≡ record { state = self.new; packet = packet.new; copies = result.copies; answers = result.answers } }
    {
        match self {
            State::RoundRobinSched { next } => {
                *next = after(inputs, input);
                pulled(outputs, Verdict::Forward)
            }
            State::PullSwitch { .. } | State::PrioSched | State::Suppressor { .. } => {
                pulled(outputs, Verdict::Forward)
            }
            State::PullTee { .. } => PullOutcome {
                copies: PortRange {
                    first: 1,
                    count: outputs.saturating_sub(1),
                },
                answers: true,
            },
            State::Queue { .. }
            | State::FrontDropQueue { .. }
            | State::Unqueue
            | State::Counter { .. }
            | State::Switch { .. }
            | State::RoundRobinSwitch { .. }
            | State::Tee { .. }
            | State::Idle
            | State::Discard
            | State::Null
            | State::PushNull
            | State::PullNull
            | State::Paint { .. }
            | State::PaintTee { .. }
            | State::Strip { .. }
            | State::CheckLength { .. }
            | State::Classifier { .. }
            | State::GetIPAddress { .. }
            | State::StaticIPLookup { .. }
            | State::CheckIPHeader { .. }
            | State::DecIPTTL
            | State::EtherEncap { .. }
            | State::InfiniteSource { .. }
            | State::FromDevice { .. }
            | State::ToDevice { .. }
            | State::ARPResponder { .. }
            | State::ARPQuerier { .. }
            | State::ICMPError { .. }
            | State::ICMPPingResponder
            | State::HostEtherFilter { .. }
            | State::EtherMirror
            | State::IPMirror
            | State::SetIPChecksum
            | State::StripIPHeader
            | State::UDPIPEncap { .. }
            | State::IPFilter { .. }
            | State::IPClassifier { .. } => {
                let verdict = self.pass(packet);
                pulled(outputs, verdict)
            }
        }
    }
}
