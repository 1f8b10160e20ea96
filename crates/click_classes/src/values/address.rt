//! Internet addresses (Click element reference, "IP address").

ghost use Rattle.std.specs.Prelude.{◌≡◌};
ghost use Rattle.click_classes.specs.Values.{address};

use crate::fault::ArgFault;
use crate::values::groups::{Group, read_separated};

/// Returns the address that the bytes spell, or `BadAddress`.
///
/// An address is four decimal numbers of one to three digits, each at most 255, joined by `.`.
#[tactic(auto, unfolding(crate::specs::Values::address))]
pub fn address(bytes: &[u8]) -> Result<[u8; 4], ArgFault>
    ensures { result ≡ address bytes.now }
{
    let mut octets = [0; 4];
    if read_separated(bytes, b'.', Group::Octet, &mut octets) {
        Ok(octets)
    } else {
        Err(ArgFault::BadAddress)
    }
}
