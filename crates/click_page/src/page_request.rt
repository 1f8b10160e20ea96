//! The requests of the page.

use click_base::sequence::Sequence;

/// What a request asks for.
#[derive(Drop)]
pub enum PageRequest {
    /// The page itself.
    Page,
    /// The picture of the running configuration.
    Picture,
    /// The flat form of the running configuration.
    Flat,
    /// Reads of these handlers, at most 256.
    Read {
        handlers: Sequence<Sequence<u8>>,
    },
    /// A write of the text to the handler.
    Write {
        handler: Sequence<u8>,
        text: Sequence<u8>,
    },
    /// The metrics of the running configuration.
    Metrics,
    /// Nothing: the request is refused, and makes no call.
    Refused(RequestRefusal),
}

/// The reason why a request is refused.
#[derive(Clone, Copy, Debug, PartialEq, Eq, thiserror::Error)]
pub enum RequestRefusal {
    /// Its Host or its target names another host. A page of another origin may have sent it.
    #[error("this page is at 127.0.0.1 alone")]
    ForeignHost,
    #[error("there is nothing of that name")]
    NotFound,
    /// The path needs GET or HEAD.
    #[error("another method is wanted here")]
    WantsGet,
    /// The path needs POST.
    #[error("another method is wanted here")]
    WantsPost,
    /// It is a write, and lacks the header that browsers do not let a page of another origin send.
    #[error("a write needs the header x-click-page")]
    MissingHeader,
    /// Its query has a parameter other than `handler`, no handler, an empty one, more than one for
    /// a write, or more than 256.
    #[error("the query names no handlers, or too many")]
    WrongQuery,
}
