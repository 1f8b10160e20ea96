//! The part of a reply that a session shows, borrowed from either form of a reply.

ghost use Rattle.std.specs.Prelude.{◌≡◌};
ghost use Rattle.click_control.specs.ReplyText.{text_of};
ghost use Rattle.click_control.specs.kept.ReplyRef.{shown_reply, refusal_of};
ghost use Rattle.click_control.specs.declared.command.Answer.{Answer};
ghost use Rattle.click_control.specs.declared.command.Command.{Command};

use click_handlers::HandlerFault;
use click_router::{CompactReply, ConfigFault, Refusal, Reply, StoredReply};

/// The reason why a call was refused, borrowed from a reply.
#[derive(Clone, Copy)]
pub enum RefusalRef<'a> {
    NoElement,
    NoHandler,
    WrongWay,
    Handler(HandlerFault),
    Config(&'a ConfigFault),
}

/// The part of a reply that a session shows.
///
/// perf: it is small, and copies nothing of the reply.
#[derive(Clone, Copy)]
pub enum ReplyRef<'a> {
    Value(&'a [u8]),
    Done,
    Refused(RefusalRef<'a>),
    /// A reply that no command of a session gets.
    Nothing,
}

/// Borrows the reason why a call was refused.
fn borrow_refusal(why: &Refusal) -> RefusalRef<'_>
    ensures { refusal_of result ≡ why.now }
{
    match why {
        Refusal::NoElement => RefusalRef::NoElement,
        Refusal::NoHandler => RefusalRef::NoHandler,
        Refusal::WrongWay => RefusalRef::WrongWay,
        Refusal::Handler(fault) => RefusalRef::Handler(*fault),
        Refusal::Config(fault) => RefusalRef::Config(fault),
    }
}

/// Borrows what a session shows of a reply.
pub fn borrow_reply(reply: &Reply) -> ReplyRef<'_>
    ensures { (command : Command) → text_of command (Answer.Replied (shown_reply result)) ≡ text_of command (Answer.Replied reply.now) }
{
    match reply {
        Reply::Value(bytes) => ReplyRef::Value(bytes.as_slice()),
        Reply::Done => ReplyRef::Done,
        Reply::Refused(why) => ReplyRef::Refused(borrow_refusal(why)),
        Reply::Entered(_) | Reply::Worked(_) | Reply::Sent(_) | Reply::NoDevice =>
            ReplyRef::Nothing,
    }
}

/// Borrows what a session shows of a reply that is in the form that a history stores.
pub fn borrow_stored_reply(reply: &StoredReply) -> ReplyRef<'_>
    ensures { (command : Command) → text_of command (Answer.Replied (shown_reply result)) ≡ text_of command (Answer.Replied reply.now) }
{
    match reply.compact() {
        CompactReply::Value(bytes) => ReplyRef::Value(bytes.as_slice()),
        CompactReply::Done => ReplyRef::Done,
        CompactReply::NoElement => ReplyRef::Refused(RefusalRef::NoElement),
        CompactReply::NoHandler => ReplyRef::Refused(RefusalRef::NoHandler),
        CompactReply::WrongWay => ReplyRef::Refused(RefusalRef::WrongWay),
        CompactReply::Handler(fault) => ReplyRef::Refused(RefusalRef::Handler(*fault)),
        CompactReply::Config(fault) => ReplyRef::Refused(RefusalRef::Config(fault)),
        CompactReply::Entered(_)
        | CompactReply::Worked(_)
        | CompactReply::Sent(_)
        | CompactReply::SentNone
        | CompactReply::NoDevice => { ReplyRef::Nothing }
    }
}
