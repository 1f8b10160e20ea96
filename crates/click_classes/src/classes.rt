//! The classes, each with its arguments, and the first state of an element.

ghost use Rattle.std.specs.Prelude.{◌≡◌, ◌⊎◌, Result, Err};
ghost use Rattle.click_classes.specs.declared.fault.ArgFault.{ArgFault};
ghost use Rattle.click_classes.specs.declared.fault.ArgFault.TheVariants.{NoMemory};
ghost use Rattle.click_classes.specs.declared.state.State.{State};
ghost use Rattle.click_classes.specs.Made.{IsFresh, IsMade};
ghost use Rattle.click_classes.specs.Steps.{OrNoMemory};

pub mod address;
pub mod classifier;
pub mod devices;
pub mod encap;
pub mod filters;
pub mod frames;
pub mod gateway;
pub mod header;
pub mod length;
pub mod lookup;
pub mod paint;
pub mod plain;
pub mod querier;
pub mod queues;
pub mod schedulers;
pub mod source;
pub mod switches;
pub mod tees;
pub mod tunnels;

use self::address::make_get_ip_address;
use self::classifier::make_classifier;
use self::devices::{make_from_device, make_to_device};
use self::encap::make_ether_encap;
use self::filters::{make_ip_classifier, make_ip_filter};
use self::frames::{make_ether_mirror, make_host_ether_filter};
use self::gateway::{make_arp_responder, make_icmp_error, make_icmp_ping_responder};
use self::header::{make_check_ip_header, make_dec_ip_ttl};
use self::length::{make_check_length, make_strip};
use self::lookup::make_static_ip_lookup;
use self::paint::{make_paint, make_paint_tee};
use self::plain::{
    make_counter, make_discard, make_idle, make_null, make_pull_null, make_push_null, make_unqueue,
};
use self::querier::make_arp_querier;
use self::queues::{make_front_drop_queue, make_queue};
use self::schedulers::{make_prio_sched, make_round_robin_sched};
use self::source::make_infinite_source;
use self::switches::{make_pull_switch, make_round_robin_switch, make_suppressor, make_switch};
use self::tees::{make_pull_tee, make_tee};
use self::tunnels::{
    make_ip_mirror, make_set_ip_checksum, make_strip_ip_header, make_udp_ip_encap,
};
use crate::arguments::Arguments;
use crate::fault::ArgFault;
use crate::state::State;
use click_base::Class;
use click_text::arguments;
use std::alloc::Global;

/// Returns the first state of an element with these arguments, or their first fault.
pub fn first_state(alloc: Global, class: Class, arguments: &Arguments) -> Result<State, ArgFault>
    ensures { OrNoMemory (IsFresh class arguments.now) result }
{
    match class {
        Class::Queue => make_queue(alloc, arguments),
        Class::FrontDropQueue => make_front_drop_queue(alloc, arguments),
        Class::Unqueue => make_unqueue(arguments),
        Class::Counter => make_counter(arguments),
        Class::Switch => make_switch(arguments),
        Class::PullSwitch => make_pull_switch(arguments),
        Class::RoundRobinSwitch => make_round_robin_switch(arguments),
        Class::RoundRobinSched => make_round_robin_sched(arguments),
        Class::PrioSched => make_prio_sched(arguments),
        Class::Tee => make_tee(arguments),
        Class::PullTee => make_pull_tee(arguments),
        Class::Idle => make_idle(arguments),
        Class::Discard => make_discard(arguments),
        Class::Null => make_null(arguments),
        Class::PushNull => make_push_null(arguments),
        Class::PullNull => make_pull_null(arguments),
        Class::Suppressor => make_suppressor(arguments),
        Class::Paint => make_paint(arguments),
        Class::PaintTee => make_paint_tee(arguments),
        Class::Strip => make_strip(arguments),
        Class::CheckLength => make_check_length(arguments),
        Class::Classifier => make_classifier(alloc, arguments),
        Class::GetIPAddress => make_get_ip_address(arguments),
        Class::StaticIPLookup => make_static_ip_lookup(alloc, arguments),
        Class::CheckIPHeader => make_check_ip_header(alloc, arguments),
        Class::DecIPTTL => make_dec_ip_ttl(arguments),
        Class::EtherEncap => make_ether_encap(arguments),
        Class::InfiniteSource => make_infinite_source(alloc, arguments),
        Class::FromDevice => make_from_device(alloc, arguments),
        Class::ToDevice => make_to_device(alloc, arguments),
        Class::ARPResponder => make_arp_responder(alloc, arguments),
        Class::ARPQuerier => make_arp_querier(alloc, arguments),
        Class::ICMPError => make_icmp_error(arguments),
        Class::ICMPPingResponder => make_icmp_ping_responder(arguments),
        Class::HostEtherFilter => make_host_ether_filter(arguments),
        Class::EtherMirror => make_ether_mirror(arguments),
        Class::IPMirror => make_ip_mirror(arguments),
        Class::SetIPChecksum => make_set_ip_checksum(arguments),
        Class::StripIPHeader => make_strip_ip_header(arguments),
        Class::UDPIPEncap => make_udp_ip_encap(arguments),
        Class::IPFilter => make_ip_filter(alloc, arguments),
        Class::IPClassifier => make_ip_classifier(alloc, arguments),
    }
}

/// Returns the first state of an element with this configuration string, or the first fault.
///
/// The number of arguments is tested first, and then the arguments from left to right.
pub fn make(alloc: Global, class: Class, text: &[u8]) -> Result<State, ArgFault>
    // The result is the one that the definition states, or out of memory.
    ensures made { OrNoMemory (IsMade class text.now) result }
    // Conversely, the result that the definition states is returned, or out of memory.
    ensures only { (r : Result State ArgFault) → IsMade class text.now r → (result ≡ r) ⊎ (result ≡ Err NoMemory) }
{
    let spans = arguments(alloc, text)?;
    first_state(alloc, class, &Arguments::of(text, spans.as_slice()))
}
