//! The exit statuses of the mode `--pcap`.

ghost use Rattle.std.specs.Prelude.{◌≡◌};
ghost use Rattle.click_prog.specs.PcapStatuses.{carry_status};

use crate::pcap::carry_fault::CarryFault;
use click_cli::Status;

/// Returns the status of a run that stopped early.
pub fn carry_status(carry_fault: CarryFault) -> Status
    ensures { result ≡ carry_status carry_fault }
{
    match carry_fault {
        CarryFault::ShortHeader { .. }
        | CarryFault::Header(_)
        | CarryFault::Cut { .. }
        | CarryFault::TooLong { .. }
        | CarryFault::GivesOn { .. }
        | CarryFault::Uncounted => Status::Faulty,
        CarryFault::NoMemory => Status::NoMemory,
        CarryFault::ReadFailed | CarryFault::WriteFailed => Status::DeviceFailed,
    }
}
