//! Truth values (Click element reference, "bool").

ghost use Rattle.std.specs.Prelude.{◌≡◌};
ghost use Rattle.click_classes.specs.Values.{truth};

use crate::fault::ArgFault;

/// Returns the truth value: `true`, `yes` or `1`, or else `false`, `no` or `0`.
///
/// Fails with `BadNumber` for other bytes.
#[tactic(auto, unfolding(crate::specs::Values::truth))]
pub fn truth(bytes: &[u8]) -> Result<bool, ArgFault>
    ensures { result ≡ truth bytes.now }
{
    if bytes == b"true".as_slice() || bytes == b"yes".as_slice() || bytes == b"1".as_slice() {
        return Ok(true);
    }
    if bytes == b"false".as_slice() || bytes == b"no".as_slice() || bytes == b"0".as_slice() {
        return Ok(false);
    }
    Err(ArgFault::BadNumber)
}
