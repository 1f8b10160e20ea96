//! Reports why a program does not start.

ghost use Rattle.std.specs.Prelude.{◌≡◌, ◌++◌, ◌∷◌, [], OnOk};
ghost use Rattle.std.specs.Io.KnownBytes.{Appends};
ghost use Rattle.clap.specs.Values.{kind_of};
ghost use Rattle.click_cli.specs.Statuses.{config_status, parse_status};

use crate::status::Status;
use clap::Error;
use clap::error::ErrorKind;
use click_router::{ConfigFault, FaultKind};
use std::alloc::Global;
use std::io::{self, Write};

/// Reports what clap says of the words, and returns the status. Reports nothing if it is out of
/// memory.
pub fn refuse_arguments(host: &HostRuntime, error: &Error) -> Status
    ensures { result ≡ parse_status (kind_of error.now) }
{
    if error.kind() == ErrorKind::OutOfMemory {
        return Status::NoMemory;
    }
    // A failed write does not change the status.
    let _ = host.eprint(error);
    Status::Wrong
}

/// Reports the fault of a configuration as a line that begins with `before`, and returns the
/// status. Reports nothing if the fault is out of memory.
pub fn refuse_configuration<W: Write>(
    alloc: Global,
    errors: &mut W,
    before: &[u8],
    fault: &ConfigFault,
) -> Status
    ensures { result ≡ config_status fault.now.kind }
{
    if fault.kind == FaultKind::NoMemory {
        return Status::NoMemory;
    }
    // A failed write does not change the status.
    let _ = match fault.text(alloc) {
        Ok(text) => write_line(errors, before, text.as_slice()),
        Err(_) => write_line(errors, before, b"faulty configuration"),
    };
    Status::Faulty
}

/// Writes a line of these two parts.
fn write_line<W: Write>(to: &mut W, before: &[u8], text: &[u8]) -> io::Result<()>
    ensures { OnOk result (Appends (W.contents to.old) (W.contents to.new) (before.now ++ text.now ++ 10 ∷ [])) }
{
    to.write_all(before)?;
    to.write_all(text)?;
    to.write_all(b"\n")
}
