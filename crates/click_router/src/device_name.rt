//! The name of a device in a call.

ghost use Rattle.std.specs.Prelude.{◌≡◌, ◌≤◌, length, IfOk, IsOk};

use smallvec::SmallVec;
use std::alloc::{AllocError, Global};
use std::marker::Model;

/// The name of a device. Contracts see it as the list of its bytes.
///
/// perf: up to 16 bytes are stored in place, so that a call does not allocate memory for the name
/// of its device. Linux limits the names of its devices to 15 bytes.
#[derive(Drop)]
pub struct DeviceName {
    bytes: SmallVec<u8, 16>,
}

impl Model for DeviceName {
    ghost use Rattle.std.specs.Prelude.{ℕ, List};

    ghost Value = { List ℕ };

    ghost view = { λ n. n.bytes.items };
}

impl DeviceName {
    /// Returns a copy of the name. Fails with out of memory only if the name has more than 16
    /// bytes.
    pub fn copy_of(alloc: Global, name: &[u8]) -> Result<DeviceName, AllocError>
        ensures copied { IfOk result (λ copy. copy ≡ name.now) }
        ensures inline { length name.now ≤ 16 → IsOk result }
    {
        Ok(DeviceName {
            bytes: SmallVec::from_slice(alloc, name)?,
        })
    }

    /// Returns the bytes of the name.
    pub fn as_slice(&self) -> &[u8]
        ensures { result.now ≡ self.now }
    {
        self.bytes.as_slice()
    }

    /// Returns a copy of the name. Fails with out of memory only if the name has more than 16
    /// bytes.
    pub fn copy(&self, alloc: Global) -> Result<DeviceName, AllocError>
        ensures copied { IfOk result (λ copy. copy ≡ self.now) }
        ensures inline { length self.now ≤ 16 → IsOk result }
    {
        DeviceName::copy_of(alloc, self.as_slice())
    }
}
