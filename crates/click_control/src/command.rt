//! The commands of a session, and their answers.

use crate::port::AskFault;
use click_base::sequence::Sequence;
use click_router::Reply;

/// One command of a session (Click manual, "ControlSocket").
#[derive(Drop)]
pub enum Command {
    /// `READ handler text`, where the text is the rest of the line without blanks at its ends; or
    /// `READDATA handler n`, where the text is the next n bytes.
    Read {
        handler: Sequence<u8>,
        text: Sequence<u8>,
    },
    /// `WRITE handler text` or `WRITEDATA handler n`, with the text as in `Read`.
    Write {
        handler: Sequence<u8>,
        text: Sequence<u8>,
    },
    /// `CHECKREAD handler`, which asks whether the handler can be read.
    CheckRead {
        handler: Sequence<u8>,
    },
    /// `CHECKWRITE handler`, which asks whether the handler can be written.
    CheckWrite {
        handler: Sequence<u8>,
    },
    /// `QUIT`.
    Quit,
    /// A known command word with the wrong words after it.
    Syntax,
    /// A line of more than 65,536 bytes before its end.
    LineTooLong,
    /// A payload of more than 1,048,576 bytes.
    DataTooLong,
    /// An unknown command word, as received.
    Unknown {
        word: Sequence<u8>,
    },
}

/// The outcome of a command.
#[derive(Drop)]
pub enum Answer {
    /// The port's reply.
    Replied(Reply),
    /// The call failed: the port did not reply.
    Failed(AskFault),
    /// The command makes no call, or a read-only session may not make it.
    NoCall,
}
