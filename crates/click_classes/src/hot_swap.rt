//! What an element of a new configuration takes over from an old one.

ghost use Rattle.std.specs.Prelude.{◌≡◌, length, true};
ghost use Rattle.click_classes.specs.TakeOver.{filled, left_over, kept_position, taken_over};

use crate::neighbours::Querier;
use crate::packet_list::PacketList;
use crate::state::State;

/// Takes the first packets of an old queue, as many as there is room for.
///
/// The others count as drops. If `keeps`, the old queue is unchanged.
fn take_packets(
    list: &mut PacketList,
    drops: &mut u64,
    highest: &mut usize,
    old: &mut PacketList,
    keeps: bool,
)
    ensures list { list.new ≡ filled list.old old.old }
    ensures drops { drops.new ≡ left_over list.old old.old }
    ensures highest { highest.new ≡ length (filled list.old old.old).packets }
    ensures kept { keeps ≡ true → old.new ≡ old.old }
{
    let had = old.len();
    if keeps {
        list.fill(old);
    } else {
        list.take_from(old);
    }
    *highest = list.len();
    *drops = (had - *highest) as u64;
}

/// Returns the position of a Switch after a hot swap, from its own and the old position.
///
/// The old position is kept if it is -1 or one of the `outputs` outputs.
fn position_after(outputs: u16, own: Option<u8>, old: Option<u8>) -> Option<u8>
    ensures { result ≡ kept_position outputs own old }
{
    match old {
        Some(output) if u16::from(output) >= outputs => own,
        _ => old,
    }
}

/// Takes over the table and the counts of an old ARPQuerier.
///
/// If `keeps` is true, the old one is left unchanged.
fn take_neighbours(querier: &mut Querier, old: &mut Querier, keeps: bool)
    ensures taken { querier.new ≡ record querier.old { table = old.old.table; packets = old.old.packets; drops = old.old.drops } }
    ensures kept { keeps ≡ true → old.new ≡ old.old }
{
    querier.table.take_from(&mut old.table, keeps);
    querier.packets = old.packets;
    querier.drops = old.drops;
}

impl State {
    ghost use Rattle.std.specs.Prelude.{◌≡◌, true};
    ghost use Rattle.click_classes.specs.TakeOver.{taken_over};

    /// Takes over the state of the old element of the same name, if it is of the same class.
    ///
    /// A Queue or FrontDropQueue takes packets, and a Counter both counts. A Switch takes the
    /// position if it is -1 or one of its `outputs` outputs. An ARPQuerier takes the table, the
    /// packets that wait and the counts. All other elements take nothing. If `keeps`, `old` is
    /// unchanged; otherwise its packets are unspecified. Does not allocate.
    pub fn take_over(&mut self, outputs: u16, old: &mut State, keeps: bool)
        ensures taken { self.new ≡ taken_over outputs self.old old.old }
        ensures kept { keeps ≡ true → old.new ≡ old.old }
    {
        match (self, old) {
            (
                State::Queue {
                    list,
                    drops,
                    highest,
                },
                State::Queue { list: stored, .. },
            ) => take_packets(list, drops, highest, stored, keeps),
            (
                State::FrontDropQueue {
                    list,
                    drops,
                    highest,
                },
                State::FrontDropQueue { list: stored, .. },
            ) => take_packets(list, drops, highest, stored, keeps),
            (
                State::Counter { count, byte_count },
                State::Counter {
                    count: passed,
                    byte_count: passed_bytes,
                },
            ) => {
                *count = *passed;
                *byte_count = *passed_bytes;
            }
            (State::Switch { output }, State::Switch { output: stood }) => {
                *output = position_after(outputs, *output, *stood);
            }
            (State::ARPQuerier { querier }, State::ARPQuerier { querier: old }) => {
                take_neighbours(querier, old, keeps);
            }
            _ => {}
        }
    }
}
