//! The element classes and their names.

ghost use Rattle.std.specs.Prelude.{◌≡◌};
ghost use Rattle.std.specs.Str.{bytes_eq};
ghost use Rattle.click_base.specs.Classes.{name as name_of, class_of, gateway_class_of};

/// An element class (Click element reference).
#[derive(Clone, Copy, Debug, PartialEq, Eq)]
pub enum Class {
    Queue,
    FrontDropQueue,
    Unqueue,
    Counter,
    Switch,
    PullSwitch,
    RoundRobinSwitch,
    RoundRobinSched,
    PrioSched,
    Tee,
    PullTee,
    Idle,
    Discard,
    Null,
    PushNull,
    PullNull,
    Suppressor,
    Paint,
    PaintTee,
    Strip,
    CheckLength,
    Classifier,
    GetIPAddress,
    StaticIPLookup,
    CheckIPHeader,
    DecIPTTL,
    EtherEncap,
    InfiniteSource,
    FromDevice,
    ToDevice,
    ARPResponder,
    ARPQuerier,
    ICMPError,
    ICMPPingResponder,
    HostEtherFilter,
    EtherMirror,
    IPMirror,
    SetIPChecksum,
    StripIPHeader,
    UDPIPEncap,
    IPFilter,
    IPClassifier,
}

/// The thirty classes that are always visible, in the order of Click's element reference.
pub const CLASSES: [Class; 30] = [
    Class::Queue,
    Class::FrontDropQueue,
    Class::Unqueue,
    Class::Counter,
    Class::Switch,
    Class::PullSwitch,
    Class::RoundRobinSwitch,
    Class::RoundRobinSched,
    Class::PrioSched,
    Class::Tee,
    Class::PullTee,
    Class::Idle,
    Class::Discard,
    Class::Null,
    Class::PushNull,
    Class::PullNull,
    Class::Suppressor,
    Class::Paint,
    Class::PaintTee,
    Class::Strip,
    Class::CheckLength,
    Class::Classifier,
    Class::GetIPAddress,
    Class::StaticIPLookup,
    Class::CheckIPHeader,
    Class::DecIPTTL,
    Class::EtherEncap,
    Class::InfiniteSource,
    Class::FromDevice,
    Class::ToDevice,
];

/// The classes of the gateway package. They are visible only after `require(gateway);`.
pub const GATEWAY_CLASSES: [Class; 12] = [
    Class::ARPResponder,
    Class::ARPQuerier,
    Class::ICMPError,
    Class::ICMPPingResponder,
    Class::HostEtherFilter,
    Class::EtherMirror,
    Class::IPMirror,
    Class::SetIPChecksum,
    Class::StripIPHeader,
    Class::UDPIPEncap,
    Class::IPFilter,
    Class::IPClassifier,
];

impl Class {
    /// Returns the name that stands for the class in configurations.
    pub fn name(self) -> &'static [u8]
        ensures { result.now ≡ name_of self }
    {
        match self {
            Class::Queue => b"Queue",
            Class::FrontDropQueue => b"FrontDropQueue",
            Class::Unqueue => b"Unqueue",
            Class::Counter => b"Counter",
            Class::Switch => b"Switch",
            Class::PullSwitch => b"PullSwitch",
            Class::RoundRobinSwitch => b"RoundRobinSwitch",
            Class::RoundRobinSched => b"RoundRobinSched",
            Class::PrioSched => b"PrioSched",
            Class::Tee => b"Tee",
            Class::PullTee => b"PullTee",
            Class::Idle => b"Idle",
            Class::Discard => b"Discard",
            Class::Null => b"Null",
            Class::PushNull => b"PushNull",
            Class::PullNull => b"PullNull",
            Class::Suppressor => b"Suppressor",
            Class::Paint => b"Paint",
            Class::PaintTee => b"PaintTee",
            Class::Strip => b"Strip",
            Class::CheckLength => b"CheckLength",
            Class::Classifier => b"Classifier",
            Class::GetIPAddress => b"GetIPAddress",
            Class::StaticIPLookup => b"StaticIPLookup",
            Class::CheckIPHeader => b"CheckIPHeader",
            Class::DecIPTTL => b"DecIPTTL",
            Class::EtherEncap => b"EtherEncap",
            Class::InfiniteSource => b"InfiniteSource",
            Class::FromDevice => b"FromDevice",
            Class::ToDevice => b"ToDevice",
            Class::ARPResponder => b"ARPResponder",
            Class::ARPQuerier => b"ARPQuerier",
            Class::ICMPError => b"ICMPError",
            Class::ICMPPingResponder => b"ICMPPingResponder",
            Class::HostEtherFilter => b"HostEtherFilter",
            Class::EtherMirror => b"EtherMirror",
            Class::IPMirror => b"IPMirror",
            Class::SetIPChecksum => b"SetIPChecksum",
            Class::StripIPHeader => b"StripIPHeader",
            Class::UDPIPEncap => b"UDPIPEncap",
            Class::IPFilter => b"IPFilter",
            Class::IPClassifier => b"IPClassifier",
        }
    }
}

/// Returns whether the class has this name.
///
/// perf: the lengths are compared first, because most names differ in length.
fn is_named(class: Class, name: &[u8]) -> bool
    ensures { result ≡ bytes_eq (name_of class) name.now }
{
    let own = class.name();
    own.len() == name.len() && own == name
}

/// Returns the class with this name, if it is one of the thirty that are always visible.
#[tactic(auto, unfolding(crate::specs::Classes::class_of))]
pub fn class_of(name: &[u8]) -> Option<Class>
    ensures { result ≡ class_of name.now }
{
    CLASSES.iter().copied().find(|class| is_named(*class, name))
}

/// Returns the class of the gateway package with this name, if there is one.
#[tactic(auto, unfolding(crate::specs::Classes::gateway_class_of))]
pub fn gateway_class_of(name: &[u8]) -> Option<Class>
    ensures { result ≡ gateway_class_of name.now }
{
    GATEWAY_CLASSES
        .iter()
        .copied()
        .find(|class| is_named(*class, name))
}
