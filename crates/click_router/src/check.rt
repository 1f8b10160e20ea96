//! Checks whether a handler can be read or written, from the names and classes of the elements
//! alone.

ghost use Rattle.std.specs.Prelude.{◌≡◌};
ghost use Rattle.click_router.specs.One as spec;

use crate::call::Refusal;
use crate::globals::{has_global, is_hotconfig};
use crate::stored_reply::{CompactReply, StoredReply};
use click_base::Class;
use click_handlers::{has_read, has_write};

/// The direction of a handler call.
#[derive(Clone, Copy, Debug, PartialEq, Eq)]
pub enum Access {
    Read,
    Write,
}

/// The answer to a check: whether a handler can be read, or written (Click manual, "Handlers").
///
/// A name is split at its last dot. A name without a dot is a global handler.
#[derive(Clone, Copy, Debug, PartialEq, Eq)]
pub enum Check {
    Yes,
    /// No element has that name.
    NoElement,
    /// There is no such handler, neither to read nor to write.
    NoHandler,
    /// There is such a handler in the opposite direction only.
    WrongWay,
}

/// Returns the answer of a check, by whether the handler exists in either direction.
fn check_of(has: bool, has_other: bool) -> Check
    ensures { result ≡ spec.check_of has has_other }
{
    if has {
        Check::Yes
    } else if has_other {
        Check::WrongWay
    } else {
        Check::NoHandler
    }
}

/// Checks whether a global handler can be read or written.
pub(crate) fn check_own(way: Access, name: &[u8]) -> Check
    ensures { result ≡ spec.check_of (spec.has_own way name.now) (spec.has_own (spec.other_way way) name.now) }
{
    match way {
        Access::Read => check_of(has_global(name), is_hotconfig(name)),
        Access::Write => check_of(is_hotconfig(name), has_global(name)),
    }
}

/// Checks whether a handler of an element with this class can be read or written. `None` stands for
/// no element.
pub(crate) fn check_element(class: Option<Class>, way: Access, handler: &[u8]) -> Check
    ensures { result ≡ spec.check_element class way handler.now }
{
    let Some(class) = class else {
        return Check::NoElement;
    };
    match way {
        Access::Read => check_of(has_read(class, handler), has_write(class, handler)),
        Access::Write => check_of(has_write(class, handler), has_read(class, handler)),
    }
}

/// Returns the reply to CheckRead or CheckWrite.
pub(crate) fn check_reply(check: Check) -> StoredReply
    ensures { result ≡ spec.check_reply check }
{
    match check {
        Check::Yes => StoredReply::of(CompactReply::Done),
        Check::NoElement => StoredReply::refusal(Refusal::NoElement),
        Check::NoHandler => StoredReply::refusal(Refusal::NoHandler),
        Check::WrongWay => StoredReply::refusal(Refusal::WrongWay),
    }
}
