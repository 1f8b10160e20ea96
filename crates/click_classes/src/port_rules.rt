//! The ports of the classes: push, pull or agnostic (TOCS 2000), and how many there may be.

ghost use Rattle.std.specs.Prelude.{◌≡◌};
ghost use Rattle.click_classes.specs.Ports.{codes_of, code, passes, counts, outputs_for, at_least, up_to_256};

use crate::ports::{Code, Codes, Counts, Side};
use crate::state::State;
use crate::values::entry::Entry;
use click_base::Class;

/// Returns codes with one code for all inputs and one for all outputs.
fn same(inputs: Code, outputs: Code) -> Codes
    ensures { result ≡ record { inputs = inputs; output = outputs; further = outputs } }
{
    Codes {
        inputs,
        output: outputs,
        further: outputs,
    }
}

/// Returns the codes of a class. A side without ports is agnostic.
fn codes_of(class: Class) -> Codes
    ensures { result ≡ codes_of class }
{
    match class {
        Class::Queue | Class::FrontDropQueue => same(Code::Push, Code::Pull),
        Class::Unqueue => same(Code::Pull, Code::Push),
        Class::Switch
        | Class::RoundRobinSwitch
        | Class::Tee
        | Class::PushNull
        | Class::Classifier
        | Class::StaticIPLookup
        | Class::ARPQuerier
        | Class::IPFilter
        | Class::IPClassifier => same(Code::Push, Code::Push),
        Class::PullSwitch | Class::RoundRobinSched | Class::PrioSched | Class::PullNull => same(
            Code::Pull,
            Code::Pull,
        ),
        Class::PullTee => Codes {
            inputs: Code::Pull,
            output: Code::Pull,
            further: Code::Push,
        },
        Class::PaintTee
        | Class::CheckLength
        | Class::CheckIPHeader
        | Class::DecIPTTL
        | Class::ARPResponder
        | Class::ICMPPingResponder
        | Class::HostEtherFilter => Codes {
            inputs: Code::Agnostic,
            output: Code::Agnostic,
            further: Code::Push,
        },
        Class::InfiniteSource | Class::FromDevice => same(Code::Agnostic, Code::Push),
        Class::ToDevice => same(Code::Pull, Code::Agnostic),
        Class::Counter
        | Class::Idle
        | Class::Discard
        | Class::Null
        | Class::Suppressor
        | Class::Paint
        | Class::Strip
        | Class::GetIPAddress
        | Class::EtherEncap
        | Class::ICMPError
        | Class::EtherMirror
        | Class::IPMirror
        | Class::SetIPChecksum
        | Class::StripIPHeader
        | Class::UDPIPEncap => same(Code::Agnostic, Code::Agnostic),
    }
}

/// Returns the code of a port of the class.
pub fn code(class: Class, side: Side, port: u16) -> Code
    ensures { result ≡ code class side port }
{
    let codes = codes_of(class);
    match side {
        Side::Input => codes.inputs,
        Side::Output if port == 0 => codes.output,
        Side::Output => codes.further,
    }
}

/// Returns whether packets pass from this input to this output inside an element of the class.
pub fn passes(class: Class, input: u16, output: u16) -> bool
    ensures { result ≡ passes class input output }
{
    match class {
        Class::Idle => false,
        Class::Suppressor => input == output,
        _ => true,
    }
}

/// Returns the number of ports that a switch needs if it uses this port.
fn ports_for(port: Option<u8>) -> u16
    ensures { result ≡ at_least port }
{
    match port {
        Some(port) => u16::from(port) + 1,
        None => 0,
    }
}

/// Returns the range for the outputs of a Tee: the number of the argument, or else 1 to 256.
fn copies(outputs: Option<u16>) -> (u16, u16)
    ensures { result ≡ up_to_256 outputs }
{
    match outputs {
        Some(outputs) => (outputs, outputs),
        None => (1, 256),
    }
}

/// Returns the number of outputs that the entries of a table need.
fn outputs_for(entries: &[Entry]) -> u16
    ensures { result ≡ outputs_for entries.now }
{
    let mut most = 0;
    for entry in entries {
        let outputs = u16::from(entry.output) + 1;
        if most < outputs {
            most = outputs;
        }
    }
    most
}

/// Returns the numbers of ports that an element in this state may have.
pub fn counts(state: &State) -> Counts
    ensures { result ≡ counts state.now }
{
    let (inputs, outputs) = match state {
        State::Switch { output } => ((1, 1), (ports_for(*output), 256)),
        State::PullSwitch { input } => ((ports_for(*input), 256), (1, 1)),
        State::RoundRobinSwitch { .. } => ((1, 1), (1, 256)),
        State::RoundRobinSched { .. } | State::PrioSched => ((1, 256), (1, 1)),
        State::Tee { outputs } | State::PullTee { outputs } => ((1, 1), copies(*outputs)),
        State::Idle => ((0, 256), (0, 256)),
        State::Discard | State::ToDevice { .. } => ((1, 1), (0, 0)),
        State::Suppressor { .. } => ((1, 16), (1, 16)),
        State::PaintTee { .. }
        | State::CheckLength { .. }
        | State::CheckIPHeader { .. }
        | State::DecIPTTL
        | State::ARPResponder { .. }
        | State::ICMPPingResponder
        | State::HostEtherFilter { .. } => ((1, 1), (1, 2)),
        State::ARPQuerier { .. } => ((2, 2), (1, 2)),
        State::Classifier { patterns } => {
            let outputs = patterns.len().min(65_535) as u16;
            ((1, 1), (outputs, outputs))
        }
        State::StaticIPLookup { entries } => ((1, 1), (outputs_for(entries.as_slice()), 256)),
        State::IPFilter { rules } | State::IPClassifier { rules } => {
            let outputs = rules.outputs();
            ((1, 1), (outputs, outputs))
        }
        State::InfiniteSource { .. } | State::FromDevice { .. } => ((0, 0), (1, 1)),
        _ => ((1, 1), (1, 1)),
    };
    Counts {
        inputs,
        outputs,
        equal: matches!(state, State::Suppressor { .. }),
    }
}
