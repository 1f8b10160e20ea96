//! The mode `--pcap`: reads a capture from standard input, sends its packets through a router, and
//! writes a capture to standard output.

ghost use Rattle.std.specs.Prelude.{◌≡◌};
ghost use Rattle.click_prog.specs.PcapStatuses.{passage_status};

pub mod arguments;
pub mod buffered;
pub mod capture_router;
pub mod carry_fault;
pub mod carrying;
pub mod laws;
pub mod reading;
pub mod ready;
pub mod status;
pub mod tally;

use crate::pcap::arguments::options_of;
use crate::pcap::buffered::BUFFER_BYTES;
use crate::pcap::capture_router::{CaptureRouter, PassageFault};
use crate::pcap::carry_fault::CarryFault;
use crate::pcap::carrying::carry;
use crate::pcap::status::carry_status;
use crate::pcap::tally::Tally;
use click_cli::{Status, refuse_arguments, refuse_configuration};
use click_streams::{Reading, Writing};
use std::io::{BufReader, Write};

/// Runs the mode with the words of its command line, of which the first is `--pcap`.
pub fn run_pcap(rt: &HostRuntime, words: &[String]) -> Status {
    let alloc = rt.alloc();
    match options_of(alloc, words) {
        Ok(options) => run(
            rt,
            options.text.unwrap().as_bytes(),
            options.source.unwrap().as_bytes(),
            options.sink.unwrap().as_bytes(),
        ),
        Err(error) => refuse_arguments(rt, &error),
    }
}

/// Opens a router of the text, and sends the packets through it.
fn run(rt: &HostRuntime, text: &[u8], source: &[u8], sink: &[u8]) -> Status {
    match CaptureRouter::open(rt.alloc(), text, source, sink) {
        Ok(passage) => match carried(rt, passage) {
            Ok(()) => Status::Good,
            Err(carry_fault) => carry_status(carry_fault),
        },
        Err(why) => refuse(rt, &why),
    }
}

/// Sends the packets through the router. Prints the fault, if the run stops early, and the counts.
fn carried(rt: &HostRuntime, mut passage: CaptureRouter) -> Result<(), CarryFault> {
    let mut tally = Tally::default();
    let ended = carry_standard(rt, &mut passage, &mut tally);
    if let Err(carry_fault) = ended {
        tell_fault(rt, carry_fault);
    }
    tell_tally(rt, &tally);
    ended
}

/// Sends the packets of standard input through the router to standard output.
fn carry_standard(
    rt: &HostRuntime,
    passage: &mut CaptureRouter,
    tally: &mut Tally,
) -> Result<(), CarryFault> {
    let alloc = rt.alloc();
    let Ok(input) = BufReader::with_capacity(alloc, BUFFER_BYTES, rt.stdin()) else {
        return Err(CarryFault::NoMemory);
    };
    let mut reader = Reading::new(input);
    let writer = Writing::new(rt.stdout());
    let (_, ended) = carry(alloc, passage, &mut reader, writer, tally);
    ended
}

/// Prints the fault at which a run stopped early.
fn tell_fault(rt: &HostRuntime, carry_fault: CarryFault) {
    // A failed write does not change the status.
    let _ = match format!(in rt.alloc(); "error: {carry_fault}\n") {
        Ok(text) => rt.stderr().write_all(text.as_bytes()),
        Err(_) => rt.stderr().write_all(b"error: out of memory\n"),
    };
}

/// Prints the counts.
fn tell_tally(rt: &HostRuntime, tally: &Tally) {
    // A failed write does not change the status.
    if let Ok(line) = tally.line(rt.alloc()) {
        let _ = rt.stderr().write_all(line.as_bytes());
    }
}

/// Prints the reason why a run cannot begin, but nothing for out of memory.
fn refuse(rt: &HostRuntime, why: &PassageFault) -> Status
    ensures { result ≡ passage_status why.now }
{
    match why {
        PassageFault::Config(fault) => {
            refuse_configuration(rt.alloc(), &mut rt.stderr(), b"", fault)
        }
        PassageFault::NoSource => refuse_device(rt, "--in", "FromDevice"),
        PassageFault::NoSink => refuse_device(rt, "--out", "ToDevice"),
        PassageFault::NoMemory => Status::NoMemory,
    }
}

/// Prints which option names a device for which the router has no element of this class.
fn refuse_device(rt: &HostRuntime, option: &str, class: &str) -> Status
    ensures { result ≡ Status.Faulty }
{
    // A failed write does not change the status.
    let _ = eprintln!(rt;
        "error: {option} <DEVICE>: the configuration has no {class} for this device"
    );
    Status::Faulty
}
