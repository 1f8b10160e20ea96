//! The words of a command line.

ghost use Rattle.std.specs.Prelude.{◌≡◌, IfErr};
ghost use Rattle.std.specs.declared.io.ErrorKind.{ErrorKind};
ghost use Rattle.click_cli.specs.Statuses.{unread_status};

use crate::status::Status;
use std::{env, io};

/// Returns the words that the program was called with. If they cannot be read, reports why and
/// returns the status.
pub fn words_of(host: &HostRuntime, program: &str) -> Result<Vec<String>, Status>
    ensures { IfErr result (λ status. (kind : ErrorKind) × (status ≡ unread_status kind)) }
{
    let words = match env::args(host) {
        Ok(words) => words,
        Err(error) => return Err(refuse_words(host, program, error.kind())),
    };
    match words.collect::<Vec<String>>(host.alloc()) {
        Ok(words) => Ok(words),
        Err(_) => Err(refuse_words(host, program, io::ErrorKind::OutOfMemory)),
    }
}

/// Reports that some word is not UTF-8, and returns the status. Reports nothing if it is out of
/// memory.
fn refuse_words(host: &HostRuntime, program: &str, kind: io::ErrorKind) -> Status
    ensures { result ≡ unread_status kind }
{
    if kind == io::ErrorKind::OutOfMemory {
        return Status::NoMemory;
    }
    // A failed write does not change the status.
    let _ = eprintln!(host; "{program}: an argument is not UTF-8");
    Status::Wrong
}
