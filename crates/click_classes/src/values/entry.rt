//! Entries of StaticIPLookup.

ghost use Rattle.std.specs.Prelude.{◌≡◌, []};
ghost use Rattle.click_classes.specs.Entries.{entry, table};
ghost use Rattle.click_classes.specs.kept.Answers.{IsOrNoMemory};

use crate::fault::ArgFault;
use crate::values::address::address;
use crate::values::number::number_in;
use crate::values::prefix::{Prefix, read_prefix};
use click_base::sequence::Sequence;
use std::alloc::Global;
use std::collections::BTreeSet;

/// An entry: where packets go if the prefix covers their destination.
#[derive(Clone, Copy, Debug, PartialEq, Eq)]
pub struct Entry {
    pub prefix: Prefix,
    pub gateway: Option<[u8; 4]>,
    pub output: u8,
}

/// Returns the entry that words spell: a prefix, optionally a gateway, and an output from 0 to 255.
#[tactic(auto, unfolding(crate::specs::Entries::entry))]
pub fn read_entry(words: &[Sequence<u8>]) -> Result<Entry, ArgFault>
    ensures { result ≡ entry words.now }
{
    if words.len() == 2 {
        let prefix = read_prefix(words[0].as_slice())?;
        let output = number_in(words[1].as_slice(), 0, 255)?;
        return Ok(Entry {
            prefix,
            gateway: None,
            output: output as u8,
        });
    }
    if words.len() == 3 {
        let prefix = read_prefix(words[0].as_slice())?;
        let gateway = address(words[1].as_slice())?;
        let output = number_in(words[2].as_slice(), 0, 255)?;
        return Ok(Entry {
            prefix,
            gateway: Some(gateway),
            output: output as u8,
        });
    }
    Err(ArgFault::BadEntry)
}

/// Returns the entries of the arguments, each of which is given by its words.
///
/// Fails with `BadEntry` if two entries have the same prefix.
pub fn read_table(
    alloc: Global,
    arguments: &[Sequence<Sequence<u8>>],
) -> Result<Sequence<Entry>, ArgFault>
    ensures { IsOrNoMemory (table [] arguments.now) result }
{
    let mut entries = Sequence::new(alloc);
    // The prefixes of the entries so far.
    let mut seen: BTreeSet<Prefix> = BTreeSet::new(alloc);
    for words in arguments {
        let entry = read_entry(words.as_slice())?;
        let Ok(is_new) = seen.insert(entry.prefix) else {
            return Err(ArgFault::NoMemory);
        };
        if !is_new {
            return Err(ArgFault::BadEntry);
        }
        entries.push(entry)?;
    }
    Ok(entries)
}
