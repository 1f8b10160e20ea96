//! The result of a write.

ghost use Rattle.std.specs.Prelude.{◌≡◌, None, Some};

use crate::fault::HandlerFault;
use click_engine::Element;

/// An element after a write. If there is a fault, it is the unchanged element.
#[derive(Drop)]
pub struct Written {
    pub element: Element,
    pub fault: Option<HandlerFault>,
}

/// Returns the result of a successful write.
pub(crate) fn done(element: Element) -> Written
    ensures { result ≡ record { element = element; fault = None } }
{
    Written {
        element,
        fault: None,
    }
}

/// Returns the result of a refused write.
pub(crate) fn refused(element: Element, fault: HandlerFault) -> Written
    ensures { result ≡ record { element = element; fault = Some fault } }
{
    Written {
        element,
        fault: Some(fault),
    }
}
