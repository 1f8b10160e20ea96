//! The port through which a session makes its calls.

use click_router::{Call, Reply, StoredReply};
use std::alloc::Global;
use thiserror::Error;

/// The reason why a call was not answered.
#[derive(Clone, Copy, Debug, PartialEq, Eq, Error)]
pub enum AskFault {
    #[error("out of memory")]
    NoMemory,
    /// The history has as many entries as it has room for.
    #[error("history full")]
    HistoryFull,
}

/// What answers the calls of a session, such as a router.
pub trait Port {
    ghost use Rattle.std.specs.Prelude.{Result, ◌≡◌, false};
    ghost use Rattle.click_router.specs.Polls.{is_poll};
    ghost use Rattle.click_router.specs.declared.call.Call.{Call};
    ghost use Rattle.click_router.specs.declared.call.Reply.{Reply};
    ghost use Rattle.click_control.specs.declared.port.AskFault.{AskFault};

    /// The effect of a call: the port before it, the call, its result, and the port after it.
    ghost asks: { Self → Call → Result Reply AskFault → Self → Type 0 };

    /// Makes one call, which is not a Poll, and returns the reply as a history stores it.
    ///
    /// perf: a `StoredReply` is small; a `Reply` has room for a packet.
    fn ask_stored(&mut self, alloc: Global, call: Call) -> Result<StoredReply, AskFault>
        requires { is_poll call ≡ false }
        ensures { asks self.old call result self.new };

    /// Makes one call, which is not a Poll, and returns its reply. A session uses `ask_stored`
    /// only.
    fn ask(&mut self, alloc: Global, call: Call) -> Result<Reply, AskFault>
        requires { is_poll call ≡ false }
        ensures { asks self.old call result self.new }
    {
        match self.ask_stored(alloc, call) {
            Ok(reply) => Ok(reply.into_reply()),
            Err(fault) => Err(fault),
        }
    }
}
