//! The class that sorts packets by their bytes: Classifier.

ghost use Rattle.click_classes.specs.Made.{classifier, ByWords};
ghost use Rattle.click_classes.specs.Patterns.{pattern};
ghost use Rattle.click_classes.specs.Steps.{each, OrNoMemory};
ghost use Rattle.click_classes.specs.kept.Answers.{IsOrNoMemory};
ghost use Rattle.std.specs.Prelude.{◌≡◌, ◌<◌, IfSome};
ghost use Rattle.click_classes.specs.Acts.{classified};

use crate::arguments::Arguments;
use crate::fault::ArgFault;
use crate::patterns::Patterns;
use crate::state::State;
use crate::values::pattern::{Pattern, read_pattern};
use click_base::sequence::Sequence;
use click_packet::Packet;
use std::alloc::Global;

/// Returns the pattern of each argument. Each argument is given by its words.
pub fn patterns(
    alloc: Global,
    arguments: &[Sequence<Sequence<u8>>],
) -> Result<Sequence<Pattern>, ArgFault>
    ensures { IsOrNoMemory (each pattern arguments.now) result }
{
    let mut list = Sequence::new(alloc);
    for words in arguments {
        let pattern = read_pattern(alloc, words.as_slice())?;
        list.push(pattern)?;
    }
    Ok(list)
}

/// `Classifier(PATTERN, ..)` sorts packets by their bytes.
///
/// - Arguments: 1 to 256 patterns. A pattern is `-`, which every packet matches, or clauses with
///   white space between them, all of which have to hold. A clause is `[!]OFFSET/DIGITS[%MASK]`.
///   OFFSET is a number from 0 to 1,599 in decimal digits. DIGITS is an even number of hexadecimal
///   digits or `?`, from 2 to 128. MASK is as many hexadecimal digits. The clause holds if the
///   packet has these bytes, from OFFSET on, and they agree with DIGITS. Bits that are not set in
///   MASK, or are under a `?`, are ignored. With `!` the clause holds if this is not so.
/// - Ports: one push input; one push output for each pattern.
/// - A packet goes to the output of the first pattern that it matches. If it matches none, it is
///   dropped.
/// - Handlers: none.
///
/// ```click
/// FromDevice(a) -> k :: Classifier(12/0800, -); k -> Discard; k [1] -> Discard;
/// ```
///
/// ```calls
/// FromDevice(a) -> k :: Classifier(12/0800, !12/08??, 12/0?06%0f0f); k -> Queue -> ToDevice(x);
/// k [1] -> Queue -> ToDevice(y); k [2] -> Queue -> ToDevice(z);
/// > poll a 0000000000000000000000000800,00000000000000000000000086dd,0000000000000000000000000806
/// entered 3
/// > poll a 0000000000000000000000000896,0000000000000000000000000807,00000000000000000000000008
/// entered 3
/// > transmit x
/// sent 0000000000000000000000000800 0 0.0.0.0
/// > transmit x
/// sent none
/// > transmit y
/// sent 00000000000000000000000086dd 0 0.0.0.0
/// > transmit y
/// sent 00000000000000000000000008 0 0.0.0.0
/// > transmit y
/// sent none
/// > transmit z
/// sent 0000000000000000000000000806 0 0.0.0.0
/// > transmit z
/// sent 0000000000000000000000000896 0 0.0.0.0
/// > transmit z
/// sent none
/// ```
#[tactic(auto, unfolding(crate::specs::Made::classifier))]
pub fn make_classifier(alloc: Global, arguments: &Arguments) -> Result<State, ArgFault>
    ensures { OrNoMemory (ByWords 1 256 classifier arguments.now) result }
{
    if !arguments.are(1, 256) {
        return Err(ArgFault::ArgumentCount);
    }
    let words = arguments.words(alloc)?;
    let written = patterns(alloc, words.as_slice())?;
    let patterns = Patterns::of(alloc, written)?;
    Ok(State::Classifier { patterns })
}

/// Returns the output of the first pattern that the packet matches, among at most 256 patterns.
pub fn classify(patterns: &Patterns, packet: &Packet) -> Option<usize>
    ensures output { result ≡ classified patterns.now packet.now.bytes }
    ensures bound { IfSome result (λ output. output < 256) }
{
    patterns.first_match(packet.bytes())
}
