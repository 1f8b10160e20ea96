//! Ethernet addresses (Click element reference, "Ethernet address").

ghost use Rattle.std.specs.Prelude.{◌≡◌};
ghost use Rattle.click_classes.specs.Values.{ethernet};

use crate::fault::ArgFault;
use crate::values::groups::{Group, read_separated};

/// Returns the Ethernet address that the bytes spell, or `BadAddress`.
///
/// It is six groups of one or two hexadecimal digits, joined by `:`.
#[tactic(auto, unfolding(crate::specs::Values::ethernet))]
pub fn ethernet(bytes: &[u8]) -> Result<[u8; 6], ArgFault>
    ensures { result ≡ ethernet bytes.now }
{
    let mut octets = [0; 6];
    if read_separated(bytes, b':', Group::Pair, &mut octets) {
        Ok(octets)
    } else {
        Err(ArgFault::BadAddress)
    }
}
