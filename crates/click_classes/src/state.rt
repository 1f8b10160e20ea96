//! The state of an element.

ghost use Rattle.std.specs.Prelude.{◌≡◌};
ghost use Rattle.click_classes.specs.State.{class};

use crate::neighbours::Querier;
use crate::packet_list::PacketList;
use crate::patterns::Patterns;
use crate::routes::Routes;
use crate::values::report::Report;
use crate::values::station::Station;
use click_base::Class;
use click_base::sequence::Sequence;
use click_gateway::Tunnel;
use click_patterns::Rules;

/// The state of an element of each class: what its arguments and handlers set, and what packets
/// change.
#[derive(Drop)]
pub enum State {
    /// The packets, the number of drops, and the greatest number of packets.
    Queue {
        list: PacketList,
        drops: u64,
        highest: usize,
    },
    /// The packets, the number of drops, and the greatest number of packets.
    FrontDropQueue {
        list: PacketList,
        drops: u64,
        highest: usize,
    },
    Unqueue,
    /// The numbers of packets and bytes that passed.
    Counter {
        count: u64,
        byte_count: u64,
    },
    /// The output that packets go to; `None` for -1.
    Switch {
        output: Option<u8>,
    },
    /// The input that packets come from; `None` for -1.
    PullSwitch {
        input: Option<u8>,
    },
    /// The output that the next packet goes to.
    RoundRobinSwitch {
        next: u16,
    },
    /// The input that the next pull asks first.
    RoundRobinSched {
        next: u16,
    },
    PrioSched,
    /// The required number of outputs, if the argument gives it.
    Tee {
        outputs: Option<u16>,
    },
    /// The required number of outputs, if the argument gives it.
    PullTee {
        outputs: Option<u16>,
    },
    Idle,
    Discard,
    Null,
    PushNull,
    PullNull,
    /// Whether each input is active.
    Suppressor {
        active: [bool; 16],
    },
    Paint {
        colour: u8,
    },
    PaintTee {
        colour: u8,
    },
    /// The number of bytes that are removed.
    Strip {
        count: u16,
    },
    /// The maximum length of a packet, in bytes.
    CheckLength {
        max: u16,
    },
    /// The pattern of each output.
    Classifier {
        patterns: Patterns,
    },
    /// The offset of the address.
    GetIPAddress {
        offset: u16,
    },
    /// The table.
    StaticIPLookup {
        entries: Routes,
    },
    /// The source addresses that are refused.
    CheckIPHeader {
        refused: Sequence<[u8; 4]>,
    },
    DecIPTTL,
    /// The header: destination, source and type.
    EtherEncap {
        header: [u8; 14],
    },
    /// The bytes of each packet and the settings of the source.
    ///
    /// `limit` is the maximum number of packets; `None` if it has no limit. `burst` is the maximum
    /// number for each run of the task. `count` is the number of packets so far.
    InfiniteSource {
        bytes: Sequence<u8>,
        limit: Option<u64>,
        burst: u8,
        active: bool,
        count: u64,
    },
    FromDevice {
        device: Sequence<u8>,
    },
    ToDevice {
        device: Sequence<u8>,
    },
    /// `stations` are those for which it replies.
    ARPResponder {
        stations: Sequence<Station>,
    },
    /// `querier` has the addresses of the station, the table and the drops.
    ARPQuerier {
        querier: Querier,
    },
    ICMPError {
        report: Report,
    },
    ICMPPingResponder,
    /// The address of the station.
    HostEtherFilter {
        ether: [u8; 6],
    },
    EtherMirror,
    IPMirror,
    SetIPChecksum,
    StripIPHeader,
    UDPIPEncap {
        tunnel: Tunnel,
    },
    /// The rules, each with an action.
    IPFilter {
        rules: Rules,
    },
    /// The rules, one for each output.
    IPClassifier {
        rules: Rules,
    },
}

impl State {
    /// Returns the class of the element.
    pub fn class(&self) -> Class
        ensures { result ≡ class self.now }
    {
        match self {
            State::Queue { .. } => Class::Queue,
            State::FrontDropQueue { .. } => Class::FrontDropQueue,
            State::Unqueue => Class::Unqueue,
            State::Counter { .. } => Class::Counter,
            State::Switch { .. } => Class::Switch,
            State::PullSwitch { .. } => Class::PullSwitch,
            State::RoundRobinSwitch { .. } => Class::RoundRobinSwitch,
            State::RoundRobinSched { .. } => Class::RoundRobinSched,
            State::PrioSched => Class::PrioSched,
            State::Tee { .. } => Class::Tee,
            State::PullTee { .. } => Class::PullTee,
            State::Idle => Class::Idle,
            State::Discard => Class::Discard,
            State::Null => Class::Null,
            State::PushNull => Class::PushNull,
            State::PullNull => Class::PullNull,
            State::Suppressor { .. } => Class::Suppressor,
            State::Paint { .. } => Class::Paint,
            State::PaintTee { .. } => Class::PaintTee,
            State::Strip { .. } => Class::Strip,
            State::CheckLength { .. } => Class::CheckLength,
            State::Classifier { .. } => Class::Classifier,
            State::GetIPAddress { .. } => Class::GetIPAddress,
            State::StaticIPLookup { .. } => Class::StaticIPLookup,
            State::CheckIPHeader { .. } => Class::CheckIPHeader,
            State::DecIPTTL => Class::DecIPTTL,
            State::EtherEncap { .. } => Class::EtherEncap,
            State::InfiniteSource { .. } => Class::InfiniteSource,
            State::FromDevice { .. } => Class::FromDevice,
            State::ToDevice { .. } => Class::ToDevice,
            State::ARPResponder { .. } => Class::ARPResponder,
            State::ARPQuerier { .. } => Class::ARPQuerier,
            State::ICMPError { .. } => Class::ICMPError,
            State::ICMPPingResponder => Class::ICMPPingResponder,
            State::HostEtherFilter { .. } => Class::HostEtherFilter,
            State::EtherMirror => Class::EtherMirror,
            State::IPMirror => Class::IPMirror,
            State::SetIPChecksum => Class::SetIPChecksum,
            State::StripIPHeader => Class::StripIPHeader,
            State::UDPIPEncap { .. } => Class::UDPIPEncap,
            State::IPFilter { .. } => Class::IPFilter,
            State::IPClassifier { .. } => Class::IPClassifier,
        }
    }
}
