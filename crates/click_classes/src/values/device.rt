//! Names of devices.

ghost use Rattle.std.specs.Prelude.{◌≡◌};
ghost use Rattle.std.specs.List.{list_all};
ghost use Rattle.click_classes.specs.Values.{device_byte, is_device};

/// Returns whether the byte is a letter, a digit, `_`, `.`, `:` or `-`.
fn is_device_byte(byte: u8) -> bool
    ensures { result ≡ device_byte byte }
{
    byte.is_ascii_alphanumeric() || byte == b'_' || byte == b'.' || byte == b':' || byte == b'-'
}

fn all_device_bytes(bytes: &[u8]) -> bool
    ensures { result ≡ list_all device_byte bytes.now }
{
    bytes.iter().all(|byte| is_device_byte(*byte))
}

/// Returns whether the bytes are the name of a device.
///
/// A name has 1 to 64 letters, digits, `_`, `.`, `:` and `-`.
#[tactic(auto, unfolding(crate::specs::Values::is_device))]
pub fn is_device(bytes: &[u8]) -> bool
    ensures { result ≡ is_device bytes.now }
{
    1 <= bytes.len() && bytes.len() <= 64 && all_device_bytes(bytes)
}
