//! Tokens, and the syntax tree of a configuration.

ghost use Rattle.std.specs.Prelude.{◌≡◌};
ghost use Rattle.click_text.specs.FaultText.{kind_text};
ghost use Rattle.click_text.specs.Faults.{span_of, no_memory};
ghost use Rattle.click_text.specs.kept.EndFault.{end_fault};
ghost use Rattle.click_text.specs.Spans.{bytes_at, string_text};
ghost use Rattle.click_text.specs.Spelling.{too_large};

use click_base::sequence::Sequence;
use std::alloc::AllocError;
use std::fmt;
use thiserror::Error;

/// A range of bytes of a text, from `start` up to but not including `end`. Offsets begin at 0.
#[derive(Clone, Copy, Debug, PartialEq, Eq)]
pub struct Span {
    pub start: usize,
    pub end: usize,
}

impl Span {
    /// Returns the bytes of the span. If the text is too short, returns those that it has.
    pub fn of<'a>(&self, text: &'a [u8]) -> &'a [u8]
        ensures { result.now ≡ bytes_at text.now self.now }
    {
        let rest = &text[self.start.min(text.len())..];
        &rest[..self.end.saturating_sub(self.start).min(rest.len())]
    }

    /// Returns the text between the parentheses of a configuration string, whose span this is.
    pub fn text_of<'a>(&self, text: &'a [u8]) -> &'a [u8]
        ensures { result.now ≡ string_text text.now self.now }
    {
        match self.of(text) {
            [_, inside @ .., _] => inside,
            _ => &[],
        }
    }
}

/// A token and its span.
#[derive(Clone, Copy, Debug, PartialEq, Eq)]
pub enum Token {
    /// A word that is neither a number nor a keyword.
    Word(Span),
    /// Digits only: the port number that they spell, or `None` above 255.
    Number(Option<u8>, Span),
    /// A parameter: `$` and a name.
    Formal(Span),
    /// A configuration string with its parentheses.
    String(Span),
    DoubleColon(Span),
    Arrow(Span),
    Semicolon(Span),
    Comma(Span),
    OpenBracket(Span),
    CloseBracket(Span),
    Open(Span),
    Close(Span),
    Bar(Span),
    Elementclass(Span),
    Require(Span),
}

/// A port as written: its number, and its span with the brackets.
#[derive(Clone, Copy, Debug, PartialEq, Eq)]
pub struct WrittenPort {
    pub number: u8,
    pub span: Span,
}

/// A class as written: by a name or by a body.
#[derive(Clone, Copy, Debug, PartialEq, Eq)]
pub enum ClassReference {
    /// The name of a class.
    Named(Span),
    /// The index of a body among the configuration's bodies.
    Body(usize),
}

/// The head of an element of a chain.
#[derive(Clone, Copy, Debug, PartialEq, Eq)]
pub enum Head {
    /// A word: the name of an element, or a class.
    Word(Span),
    /// A name, and the class that is declared for it.
    Declared(Span, ClassReference),
    /// The index of a body among the configuration's bodies.
    Compound(usize),
}

/// An element of a chain.
#[derive(Clone, Copy, Debug, PartialEq, Eq)]
pub struct Element {
    pub head: Head,
    /// The span of its configuration string with the parentheses, if it has one.
    pub text: Option<Span>,
}

/// A further element of a chain, with the ports of the connection to it. A port that is not written
/// is 0.
#[derive(Clone, Copy, Debug, PartialEq, Eq)]
pub struct Link {
    pub from: Option<WrittenPort>,
    pub to: Option<WrittenPort>,
    pub element: Element,
}

/// Elements, each connected to the next.
#[derive(Drop)]
pub struct Chain {
    pub first: Element,
    pub links: Sequence<Link>,
}

/// A declaration of several names: an element of this class for each name.
#[derive(Drop)]
pub struct Declaration {
    /// The names, at least two.
    pub names: Sequence<Span>,
    pub class: ClassReference,
    /// The span of their configuration string with the parentheses, if they have one.
    pub text: Option<Span>,
}

/// A statement. Empty statements are left out.
#[derive(Drop)]
pub enum Statement {
    Chain(Chain),
    Declaration(Declaration),
    /// `elementclass` with a name for the body that has this index.
    Definition { name: Span, body: usize },
    /// `elementclass` with a name for a class that is named.
    Synonym { name: Span, class: Span },
    /// `require` with its configuration string.
    Requirement { text: Option<Span> },
}

/// The body of a compound: the text between two braces, including them.
#[derive(Drop)]
pub struct Body {
    pub span: Span,
    /// The names of its parameters, each with its `$`.
    pub formals: Sequence<Span>,
    pub statements: Sequence<Statement>,
}

/// A whole configuration: its text, its statements and its bodies.
///
/// A body comes after all bodies inside it, and is referred to by its index.
#[derive(Drop)]
pub struct Config {
    pub text: Sequence<u8>,
    pub statements: Sequence<Statement>,
    pub bodies: Sequence<Body>,
}

/// The kind of a fault of a text. It is printed as its number and its name.
#[derive(Clone, Copy, Debug, Error, PartialEq, Eq)]
#[error("{}", self.text())]
pub enum FaultKind {
    BadByte,
    UnclosedComment,
    UnclosedString,
    Unexpected,
    TooDeep,
    TooLarge,
    NoMemory,
}

/// A fault of a text: its kind and its span. TooLarge and NoMemory have the span 0 to 0.
#[derive(Clone, Copy, Debug, Error, PartialEq, Eq)]
#[error("{kind}{place}", place = self.place())]
pub struct TextFault {
    pub kind: FaultKind,
    pub span: Span,
}

/// The way in which reading tokens ends: after the whole text, or where no piece begins.
#[derive(Clone, Copy, Debug, PartialEq, Eq)]
pub enum Ending {
    Whole,
    Stuck(TextFault),
}

impl Token {
    /// Returns the span of the token.
    pub(crate) fn span(&self) -> Span
        ensures { result ≡ span_of self.now }
    {
        match *self {
            Token::Word(span) => span,
            Token::Number(_, span) => span,
            Token::Formal(span) => span,
            Token::String(span) => span,
            Token::DoubleColon(span) => span,
            Token::Arrow(span) => span,
            Token::Semicolon(span) => span,
            Token::Comma(span) => span,
            Token::OpenBracket(span) => span,
            Token::CloseBracket(span) => span,
            Token::Open(span) => span,
            Token::Close(span) => span,
            Token::Bar(span) => span,
            Token::Elementclass(span) => span,
            Token::Require(span) => span,
        }
    }
}

impl Ending {
    /// Returns the fault of a text of `size` bytes that ends too early.
    pub(crate) fn fault(&self, size: usize) -> TextFault
        ensures { result ≡ end_fault size self.now }
    {
        match *self {
            Ending::Whole => TextFault {
                kind: FaultKind::Unexpected,
                span: Span {
                    start: size,
                    end: size,
                },
            },
            Ending::Stuck(fault) => fault,
        }
    }
}

/// The position part of a printed fault: its span in bytes, if it has one.
#[derive(Clone, Copy)]
struct Place(Option<Span>);

impl fmt::Display for Place {
    fn fmt<W: fmt::Write>(&self, f: &mut fmt::Formatter<W>) -> fmt::Result {
        match self.0 {
            Some(span) => write!(f, " at bytes {} to {}", span.start, span.end),
            None => Ok(()),
        }
    }
}

impl FaultKind {
    /// Returns the number and the name of the fault, as operators see them.
    pub fn text(self) -> &'static str
        ensures { result.now ≡ kind_text self }
    {
        match self {
            FaultKind::BadByte => "1 BadByte",
            FaultKind::UnclosedComment => "2 UnclosedComment",
            FaultKind::UnclosedString => "3 UnclosedString",
            FaultKind::Unexpected => "4 Unexpected",
            FaultKind::TooDeep => "5 TooDeep",
            FaultKind::TooLarge => "6 TooLarge",
            FaultKind::NoMemory => "7 NoMemory",
        }
    }
}

impl TextFault {
    fn place(&self) -> Place {
        match self.kind {
            FaultKind::TooLarge | FaultKind::NoMemory => Place(None),
            _ => Place(Some(self.span)),
        }
    }

    /// Returns the fault of running out of memory.
    pub fn no_memory() -> TextFault
        ensures { result ≡ no_memory }
    {
        TextFault {
            kind: FaultKind::NoMemory,
            span: Span { start: 0, end: 0 },
        }
    }

    /// Returns the fault of a text that is too long.
    pub fn too_large() -> TextFault
        ensures { result ≡ too_large }
    {
        TextFault {
            kind: FaultKind::TooLarge,
            span: Span { start: 0, end: 0 },
        }
    }
}

impl From<AllocError> for TextFault {
    ghost from_gives = { λ _ f. f ≡ no_memory };

    fn from(_error: AllocError) -> TextFault {
        TextFault::no_memory()
    }
}
