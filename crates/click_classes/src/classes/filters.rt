//! The classes of the gateway package that sort packets by rules in words: IPFilter and
//! IPClassifier.

ghost use Rattle.std.specs.Prelude.{◌≡◌, ◌≤◌, length};
ghost use Rattle.click_patterns.specs.RuleLists.{decided};
ghost use Rattle.click_classes.specs.Acts.{output_of, switched};
ghost use Rattle.click_classes.specs.Made.{HaveRules, ByRules};
ghost use Rattle.click_classes.specs.Steps.{OrNoMemory};
ghost use Rattle.click_classes.specs.declared.state.State.{State};

use crate::arguments::Arguments;
use crate::fault::ArgFault;
use crate::packet_effects::PortRange;
use crate::state::State;
use click_filter::Action;
use click_packet::Packet;
use click_patterns::{PatternError, RuleForm, Rules};
use std::alloc::Global;

/// Returns the rules of the arguments.
///
/// Fails with `BadEntry` if an argument is no rule of this form, or if there are more than 4,096
/// tests.
fn rules_of(alloc: Global, form: RuleForm, arguments: &Arguments) -> Result<Rules, ArgFault>
    requires few { length arguments.now ≤ 256 }
    ensures { OrNoMemory (HaveRules form arguments.now) result }
{
    let texts = arguments.texts(alloc)?;
    match Rules::read(alloc, form, texts.as_slice()) {
        Ok(rules) => Ok(rules),
        Err(PatternError::Bad) => Err(ArgFault::BadEntry),
        Err(PatternError::NoMemory) => Err(ArgFault::NoMemory),
    }
}

/// `IPFilter(ACTION PATTERN, ..)` lets packets through by rules. It is in the package `gateway`.
///
/// - Arguments: 1 to 256 rules. A rule is an action and a pattern. All rules together have at most
///   4,096 tests.
/// - An action is `allow` (output 0), `deny` or `drop` (no output), or the number of an output from
///   0 to 255.
/// - A pattern is a test of the IP header or of the header behind it, such as `src 10.0.0.0/8`,
///   `tcp dst port 80` or `icmp type echo`. Tests are joined by `and`, `or`, `not` and parentheses.
///   [LANGUAGE](LANGUAGE.md), "Patterns of packets", has all tests.
/// - Ports: one push input. As many push outputs as the greatest output that an action names, and
///   one; none if no action names one.
/// - Packets begin with an IP header, and should come from a CheckIPHeader. The first rule whose
///   pattern is true for a packet decides what happens to it. If none is, the packet is dropped.
/// - Handlers: none.
///
/// Ports, TCP flags and ICMP types are in first fragments only. A list of rules that allows by
/// ports has to say what happens to later fragments: `deny ip frag` first, or `allow ip frag` for
/// the networks that need it. A first fragment can be too short for the flags (RFC 1858). It is
/// false for `tcp opt ack`, so `allow .. && tcp opt ack` does not let it through. But
/// `deny tcp opt syn, allow all` does, and `allow not tcp port 22` lets every later fragment
/// through. Write what is allowed, and end with `deny all`.
///
/// ```click
/// require(gateway);
/// FromDevice(a) -> Strip(14) -> CheckIPHeader
///   -> IPFilter(allow src 10.0.0.0/8 && tcp dst port 80, deny icmp type redirect, allow icmp, deny all)
///   -> Discard;
/// ```
///
/// ```calls
/// require(gateway); FromDevice(a) -> f :: IPFilter(allow tcp dst port 80 or icmp type echo, 1 udp, deny all);
/// f -> Queue -> ToDevice(x); f [1] -> Queue -> ToDevice(y);
/// > poll a 4500001800000000400600000a0100020a0200020fa00050,4500001800000000400600000a0100020a0200020fa00016
/// entered 2
/// > poll a 4500001800000000401100000a0100020a0200020fa00035,4500001800000000400100000a0100020a02000208000000
/// entered 2
/// > transmit x
/// sent 4500001800000000400600000a0100020a0200020fa00050 0 0.0.0.0
/// > transmit x
/// sent 4500001800000000400100000a0100020a02000208000000 0 0.0.0.0
/// > transmit x
/// sent none
/// > transmit y
/// sent 4500001800000000401100000a0100020a0200020fa00035 0 0.0.0.0
/// > transmit y
/// sent none
/// ```
pub fn make_ip_filter(alloc: Global, arguments: &Arguments) -> Result<State, ArgFault>
    ensures { OrNoMemory (ByRules RuleForm.WithAction State.IPFilter arguments.now) result }
{
    if !arguments.are(1, 256) {
        return Err(ArgFault::ArgumentCount);
    }
    let rules = rules_of(alloc, RuleForm::WithAction, arguments)?;
    Ok(State::IPFilter { rules })
}

/// `IPClassifier(PATTERN, ..)` sorts packets by patterns. It is in the package `gateway`.
///
/// - Arguments: 1 to 256 patterns, as in the rules of an IPFilter. All patterns together have at
///   most 4,096 tests.
/// - Ports: one push input; one push output for each pattern.
/// - Packets begin with an IP header, and should come from a CheckIPHeader. A packet goes to the
///   output of the first pattern that is true for it. If none is, it is dropped.
/// - Handlers: none.
///
/// ```click
/// require(gateway);
/// FromDevice(a) -> Strip(14) -> CheckIPHeader -> k :: IPClassifier(icmp type echo, tcp, -);
/// k -> Discard; k [1] -> Discard; k [2] -> Discard;
/// ```
///
/// ```calls
/// require(gateway); FromDevice(a) -> k :: IPClassifier(src 10.0.0.0/8 and not ip frag, ip ttl < 3);
/// k -> Queue -> ToDevice(x); k [1] -> Queue -> ToDevice(y);
/// > poll a 4500001400000000400600000a0100020a020002,4500001400002000020600000a0100020a020002
/// entered 2
/// > poll a 4500001400000000030600000b0100020a020002
/// entered 1
/// > transmit x
/// sent 4500001400000000400600000a0100020a020002 0 0.0.0.0
/// > transmit x
/// sent none
/// > transmit y
/// sent 4500001400002000020600000a0100020a020002 0 0.0.0.0
/// > transmit y
/// sent none
/// ```
pub fn make_ip_classifier(alloc: Global, arguments: &Arguments) -> Result<State, ArgFault>
    ensures { OrNoMemory (ByRules RuleForm.PatternAlone State.IPClassifier arguments.now) result }
{
    if !arguments.are(1, 256) {
        return Err(ArgFault::ArgumentCount);
    }
    let rules = rules_of(alloc, RuleForm::PatternAlone, arguments)?;
    Ok(State::IPClassifier { rules })
}

/// Returns the output to which rules send a packet, or no output if they drop it.
pub fn sort_by(rules: &Rules, packet: &Packet) -> PortRange
    ensures { (state : State) → switched state (output_of (decided rules.now packet.now.bytes)) packet.now ≡ record { state = state; packet = packet.now; outputs = result } }
{
    match rules.decide(packet.bytes()) {
        Action::Output(output) => PortRange {
            first: u16::from(output),
            count: 1,
        },
        Action::Drop => PortRange { first: 0, count: 0 },
    }
}
