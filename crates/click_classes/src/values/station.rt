//! The stations for which an ARPResponder replies.

ghost use Rattle.std.specs.Prelude.{◌≡◌, ◌<◌, length, find, option_map};
ghost use Rattle.std.specs.List.{list_any};
ghost use Rattle.click_classes.specs.Gateway.{station_for};
ghost use Rattle.click_classes.specs.Made.{station};
ghost use Rattle.click_classes.specs.Routes.{covers};
ghost use Rattle.click_classes.specs.Steps.{each};
ghost use Rattle.click_classes.specs.Values.{prefix};
ghost use Rattle.click_classes.specs.kept.Answers.{IsOrNoMemory};

use crate::fault::ArgFault;
use crate::values::ethernet::ethernet;
use crate::values::prefix::{Prefix, cleared, read_prefix};
use click_base::sequence::Sequence;
use std::alloc::Global;

/// The prefixes of a station's addresses, and its Ethernet address.
#[derive(Drop)]
pub struct Station {
    pub prefixes: Sequence<Prefix>,
    pub ether: [u8; 6],
}

/// Returns whether the address is in the prefix.
fn covers(prefix: &Prefix, address: [u8; 4]) -> bool
    ensures { result ≡ covers prefix.now address }
{
    cleared(prefix.len, address) == prefix.network
}

/// Returns whether the address is in one of the prefixes.
fn has_one(prefixes: &[Prefix], address: [u8; 4]) -> bool
    ensures { result ≡ list_any (λ f. covers f address) prefixes.now }
{
    prefixes.iter().any(|prefix| covers(prefix, address))
}

/// Returns the Ethernet address of the first station with this address.
pub fn station_for(stations: &[Station], address: [u8; 4]) -> Option<[u8; 6]>
    ensures { result ≡ option_map (λ s. s.ether) (station_for stations.now address) }
{
    for station in stations {
        if has_one(station.prefixes.as_slice(), address) {
            return Some(station.ether);
        }
    }
    None
}

/// Returns the prefix that each word spells.
fn each_prefix(alloc: Global, words: &[Sequence<u8>]) -> Result<Sequence<Prefix>, ArgFault>
    ensures { IsOrNoMemory (each prefix words.now) result }
{
    let mut list = Sequence::new(alloc);
    for word in words {
        let prefix = read_prefix(word.as_slice())?;
        list.push(prefix)?;
    }
    Ok(list)
}

/// Parses 1 to 64 prefixes, and then an Ethernet address.
#[tactic(auto, unfolding(crate::specs::Made::station))]
pub fn read_station(alloc: Global, words: &[Sequence<u8>]) -> Result<Station, ArgFault>
    ensures { IsOrNoMemory (station words.now) result }
{
    if words.len() < 2 || 65 < words.len() {
        return Err(ArgFault::BadEntry);
    }
    let last = words.len() - 1;
    let prefixes = each_prefix(alloc, &words[..last])?;
    let ether = ethernet(words[last].as_slice())?;
    Ok(Station { prefixes, ether })
}
