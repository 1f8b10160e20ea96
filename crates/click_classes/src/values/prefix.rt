//! Prefixes of internet addresses (Click element reference, "IP prefix").

ghost use Rattle.std.specs.Prelude.{◌≡◌};
ghost use Rattle.click_classes.specs.Values.{first_bits, cleared, prefix};

use crate::fault::ArgFault;
use crate::values::address::address;
use crate::values::groups::place;
use click_base::decimal_in;

/// A prefix: the addresses whose first `len` bits are those of `network`.
#[derive(Clone, Copy, Debug, PartialEq, Eq, PartialOrd, Ord)]
pub struct Prefix {
    pub network: [u8; 4],
    pub len: u8,
}

/// Returns the byte with only its first bits kept.
#[tactic(auto, unfolding(crate::specs::Values::first_bits))]
fn first_bits(bits: u8, byte: u8) -> u8
    ensures { result ≡ first_bits bits byte }
{
    let unit = 1u16 << (8 - bits.min(8));
    (u16::from(byte) / unit * unit) as u8
}

/// Returns the address with the bits after the first `len` cleared.
#[tactic(auto, unfolding(crate::specs::Values::cleared))]
pub fn cleared(len: u8, address: [u8; 4]) -> [u8; 4]
    ensures { result ≡ cleared len address }
{
    [
        first_bits(len, address[0]),
        first_bits(len.saturating_sub(8), address[1]),
        first_bits(len.saturating_sub(16), address[2]),
        first_bits(len.saturating_sub(24), address[3]),
    ]
}

/// Returns the prefix that the bytes spell: an address, `/` and a length of 0 to 32.
///
/// An address alone is a prefix of length 32. Bits after the length are cleared.
#[tactic(auto, unfolding(crate::specs::Values::prefix))]
pub fn read_prefix(bytes: &[u8]) -> Result<Prefix, ArgFault>
    ensures { result ≡ prefix bytes.now }
{
    let Some(at) = place(bytes, b'/') else {
        return Ok(Prefix {
            network: address(bytes)?,
            len: 32,
        });
    };
    let full = address(&bytes[..at])?;
    match decimal_in(&bytes[at + 1..], 32) {
        Some(len) => Ok(Prefix {
            network: cleared(len as u8, full),
            len: len as u8,
        }),
        None => Err(ArgFault::BadAddress),
    }
}
