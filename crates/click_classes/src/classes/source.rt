//! The class that creates packets: InfiniteSource.

ghost use Rattle.std.specs.Prelude.{◌≡◌, ◌-◌, ◌^◌, ◌&&◌, None, true, slice_get, length, nat_le};
ghost use Rattle.click_classes.specs.Acts.{is_below};
ghost use Rattle.click_classes.specs.Values.{number_in, number_or_minus_one, truth};
ghost use Rattle.click_classes.specs.Made.{optional, infinite_source, ByFirst};
ghost use Rattle.click_classes.specs.kept.Answers.{AreBytes};
ghost use Rattle.click_classes.specs.Steps.{OrNoMemory};

use crate::arguments::Arguments;
use crate::fault::ArgFault;
use crate::state::State;
use crate::values::number::{number_in, number_or_minus_one};
use crate::values::truth::truth;
use click_base::sequence::Sequence;
use click_text::unquote;
use std::alloc::Global;

/// Returns the bytes of each packet.
fn source_bytes(alloc: Global, arguments: &Arguments) -> Result<Sequence<u8>, ArgFault>
    ensures { OrNoMemory (AreBytes (slice_get arguments.now 0)) result }
{
    let Some(first) = arguments.get(0) else {
        let zeros = vec![in alloc; 0; 64]?;
        return Ok(Sequence::of(zeros));
    };
    let Some(bytes) = unquote(alloc, first)? else {
        return Err(ArgFault::BadText);
    };
    if bytes.len() > 1_600 {
        return Err(ArgFault::OutOfRange);
    }
    Ok(Sequence::of(bytes))
}

/// Returns the maximum number of packets; `None` if it has no limit.
fn limit(arguments: &Arguments) -> Result<Option<u64>, ArgFault>
    ensures { result ≡ optional arguments.now 1 None (number_or_minus_one (2 ^ 64 - 1)) }
{
    match arguments.get(1) {
        Some(bytes) => number_or_minus_one(bytes, u64::MAX),
        None => Ok(None),
    }
}

/// Returns the maximum number of packets that are emitted when the task runs once.
fn burst(arguments: &Arguments) -> Result<u8, ArgFault>
    ensures { result ≡ optional arguments.now 2 1 (number_in 1 64) }
{
    let Some(bytes) = arguments.get(2) else {
        return Ok(1);
    };
    let burst = number_in(bytes, 1, 64)?;
    Ok(burst as u8)
}

/// Returns whether the source is active at first.
fn active(arguments: &Arguments) -> Result<bool, ArgFault>
    ensures { result ≡ optional arguments.now 3 true truth }
{
    match arguments.get(3) {
        Some(bytes) => truth(bytes),
        None => Ok(true),
    }
}

/// Returns whether a source with this limit may emit one more packet.
fn is_below(limit: Option<u64>, count: u64) -> bool
    ensures { result ≡ is_below limit count }
{
    match limit {
        Some(limit) => count < limit,
        None => true,
    }
}

/// Returns whether a source has a packet to emit now.
pub fn has_next(bytes: &Sequence<u8>, limit: Option<u64>, active: bool, count: u64) -> bool
    ensures { result ≡ (active && is_below limit count && nat_le (length bytes.now) 1600) }
{
    active && is_below(limit, count) && bytes.len() <= 1_600
}

/// `InfiniteSource([BYTES [, LIMIT [, BURST [, ACTIVE]]]])` emits packets.
///
/// - Arguments: BYTES, at most 1,600 bytes when unquoted; default 64 zero bytes. LIMIT, a number
///   from 0 to 2^64 - 1, or -1 for none; default -1. BURST, a number from 1 to 64; default 1.
///   ACTIVE, a truth value; default true.
/// - Ports: no input, one push output.
/// - While it is active, its task pushes up to BURST packets of BYTES in each round and counts
///   each. It pushes none once the count has reached LIMIT.
/// - Read handlers: `active`, whether it is active; `count`, the number of packets so far.
/// - Write handlers: `active`, a truth value (not a truth value); `reset` sets `count` to 0.
///
/// ```click
/// InfiniteSource("ab", 5, 2) -> Discard;
/// ```
///
/// ```calls
/// InfiniteSource("ab", 5, 2) -> q :: Queue -> ToDevice(x);
/// i :: InfiniteSource(c, -1, 64, false) -> Discard;
/// > round
/// worked 2
/// > read q.length
/// value 32
/// > transmit x
/// sent 6162 0 0.0.0.0
/// > round
/// worked 2
/// > round
/// worked 1
/// > round
/// worked 0
/// > read InfiniteSource@1.count
/// value 35
/// > read i.count
/// value 30
/// ```
#[tactic(auto, unfolding(crate::specs::Made::infinite_source))]
pub fn make_infinite_source(alloc: Global, arguments: &Arguments) -> Result<State, ArgFault>
    ensures { OrNoMemory (ByFirst 4 infinite_source arguments.now) result }
{
    if !arguments.are(0, 4) {
        return Err(ArgFault::ArgumentCount);
    }
    let bytes = source_bytes(alloc, arguments)?;
    let limit = limit(arguments)?;
    let burst = burst(arguments)?;
    let active = active(arguments)?;
    Ok(State::InfiniteSource {
        bytes,
        limit,
        burst,
        active,
        count: 0,
    })
}
