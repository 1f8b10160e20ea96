//! The tokens that are left, and the parsing of every part that contains no body.

ghost use Rattle.std.specs.Prelude.{◌≡◌, ℕ, ◌<◌, ◌≤◌, ◌++◌, ◌∷◌, [], List, Option, length, drop, OnOk, IfOk, IfErr, MatchOption};
ghost use Rattle.click_text.specs.declared.syntax.Span.{Span};
ghost use Rattle.click_text.specs.declared.syntax.Token.{Token};
ghost use Rattle.click_text.specs.declared.syntax.WrittenPort.{WrittenPort};
ghost use Rattle.click_text.specs.declared.syntax.ClassReference.{ClassReference};
ghost use Rattle.click_text.specs.declared.syntax.Head.{Head};
ghost use Rattle.click_text.specs.declared.syntax.Element.{Element};
ghost use Rattle.click_text.specs.declared.syntax.Link.{Link};
ghost use Rattle.click_text.specs.declared.syntax.Statement.{Statement};
ghost use Rattle.click_text.specs.declared.syntax.Body.{Body};
ghost use Rattle.click_text.specs.Grammar.{element, declaration};
ghost use Rattle.click_text.specs.kept.ParserStates.{Place, inside, Use, of_names, Context, linked, Side, out, into, outcome, between, name_wanted, name_read, class_wanted, listed_read, define, define_named, required, ending, body_opened, formal_wanted, formal_read, element_wanted, word_read, head_read, after, port_wanted, number_wanted, close_wanted, arrow_wanted, a_requirement, element_read, ported, past_element, past_word, past_name, past_formal, Stops, Lists};

use crate::syntax::{Span, Token, WrittenPort};
use click_base::sequence::Sequence;
use std::alloc::{AllocError, Global};

/// The reason for which the parser stopped. It stops before the token that it could not take.
#[derive(Clone, Copy, Debug, PartialEq, Eq)]
pub enum ParseStop {
    Memory,
    Unexpected,
    TooDeep,
}

impl From<AllocError> for ParseStop {
    ghost use Rattle.click_text.specs.declared.tokens.ParseStop.TheVariants.{Memory};

    ghost from_gives = { λ _ s. s ≡ Memory };

    fn from(_error: AllocError) -> ParseStop {
        ParseStop::Memory
    }
}

/// The ports that are written before and after an arrow.
#[derive(Clone, Copy, Debug, PartialEq, Eq)]
pub struct ArrowPorts {
    pub from: Option<WrittenPort>,
    pub to: Option<WrittenPort>,
}

/// The tokens that are left.
#[derive(Clone, Copy)]
pub struct Tokens<'a> {
    pub items: &'a [Token],
}

impl<'a> Tokens<'a> {
    /// Returns the next token without removing it.
    pub fn peek(&self) -> Option<Token>
        ensures { MatchOption result (self.now.items.now ≡ []) (λ t. self.now.items.now ≡ t ∷ drop 1 self.now.items.now) }
    {
        self.items.first().copied()
    }

    /// Removes the next token.
    pub fn skip(&mut self)
        requires { 0 < length self.old.items.now }
        ensures { self.new.items.now ≡ drop 1 self.old.items.now }
    {
        self.items = &self.items[1..];
    }

    /// Returns the next token if it is the first of several names, which means that a comma
    /// follows.
    pub fn first_of_names(&self) -> Option<Span>
        ensures { MatchOption result ((s : Span) → Lists self.now.items.now s → ⊥) (λ s. Lists self.now.items.now s) }
    {
        let Some(token) = self.peek() else {
            return None;
        };
        let Token::Word(first) = token else {
            return None;
        };
        let mut rest = *self;
        rest.skip();
        let Some(next) = rest.peek() else {
            return None;
        };
        let Token::Comma(_) = next else {
            return None;
        };
        Some(first)
    }

    /// Parses the names of a declaration after the first one, and the `::` after them.
    pub fn names(&mut self, alloc: Global, first: Span) -> Result<Sequence<Span>, ParseStop>
        ensures goes_on { IfOk result (λ ns. (n : ℕ) (bs : List Body) (p : Place) (ss : List Statement) →
            outcome n (name_read bs p ss (first ∷ [])) self.old.items.now ≡ outcome n (class_wanted bs (of_names ns p ss)) self.new.items.now) }
        ensures stops { IfErr result (λ s. (n : ℕ) (bs : List Body) (p : Place) (ss : List Statement) →
            Stops s (outcome n (name_read bs p ss (first ∷ [])) self.old.items.now) self.new.items.now) }
        ensures shorter { OnOk result (length self.new.items.now ≤ length self.old.items.now) }
    {
        let mut names = Sequence::new(alloc);
        names.push(first)?;
        'names: loop {
            if !self.more_names()? {
                return Ok(names);
            }
            let name = self.word()?;
            names.push(name)?;
        }
    }

    /// Parses what follows a name of a declaration: returns true for a comma, false for `::`.
    fn more_names(&mut self) -> Result<bool, ParseStop>
        ensures goes_on { IfOk result (λ more. (n : ℕ) (bs : List Body) (p : Place) (ss : List Statement) (ns : List Span) →
            outcome n (name_read bs p ss ns) self.old.items.now ≡ outcome n (past_name more bs p ss ns) self.new.items.now) }
        ensures stops { IfErr result (λ s. (n : ℕ) (bs : List Body) (p : Place) (ss : List Statement) (ns : List Span) →
            Stops s (outcome n (name_read bs p ss ns) self.old.items.now) self.new.items.now) }
        ensures shorter { OnOk result (length self.new.items.now < length self.old.items.now) }
    {
        let Some(token) = self.peek() else {
            return Err(ParseStop::Unexpected);
        };
        match token {
            Token::Comma(_) => {
                self.skip();
                Ok(true)
            }
            Token::DoubleColon(_) => {
                self.skip();
                Ok(false)
            }
            _ => Err(ParseStop::Unexpected),
        }
    }

    /// Parses a word: a further name of a declaration, or the name of a definition.
    pub fn word(&mut self) -> Result<Span, ParseStop>
        ensures goes_on { IfOk result (λ s. (n : ℕ) (bs : List Body) (p : Place) (ss : List Statement) (ns : List Span) →
            outcome n (name_wanted bs p ss ns) self.old.items.now ≡ outcome n (name_read bs p ss (ns ++ s ∷ [])) self.new.items.now) }
        ensures stops { IfErr result (λ s. (n : ℕ) (bs : List Body) (p : Place) (ss : List Statement) (ns : List Span) →
            Stops s (outcome n (name_wanted bs p ss ns) self.old.items.now) self.new.items.now) }
        ensures defines { IfOk result (λ s. (n : ℕ) (bs : List Body) (p : Place) (ss : List Statement) →
            outcome n (define bs p ss) self.old.items.now ≡ outcome n (define_named bs p ss s) self.new.items.now) }
        ensures stops_defining { IfErr result (λ s. (n : ℕ) (bs : List Body) (p : Place) (ss : List Statement) →
            Stops s (outcome n (define bs p ss) self.old.items.now) self.new.items.now) }
        ensures shorter { OnOk result (length self.new.items.now < length self.old.items.now) }
    {
        let Some(token) = self.peek() else {
            return Err(ParseStop::Unexpected);
        };
        let Token::Word(name) = token else {
            return Err(ParseStop::Unexpected);
        };
        self.skip();
        Ok(name)
    }

    /// Parses the parameters of a body after its opening brace, with the `|` after them, if it has
    /// any.
    pub fn formals(&mut self, alloc: Global) -> Result<Sequence<Span>, ParseStop>
        ensures goes_on { IfOk result (λ fs. (n : ℕ) (bs : List Body) (a : Span) (u : Use) →
            outcome n (body_opened bs a u) self.old.items.now ≡ outcome n (between bs (inside a fs u) []) self.new.items.now) }
        ensures stops { IfErr result (λ s. (n : ℕ) (bs : List Body) (a : Span) (u : Use) →
            Stops s (outcome n (body_opened bs a u) self.old.items.now) self.new.items.now) }
        ensures shorter { OnOk result (length self.new.items.now ≤ length self.old.items.now) }
    {
        let mut formals = Sequence::new(alloc);
        let Some(token) = self.peek() else {
            return Ok(formals);
        };
        let Token::Formal(_) = token else {
            return Ok(formals);
        };
        'formals: loop {
            let formal = self.formal()?;
            formals.push(formal)?;
            if !self.more_formals()? {
                return Ok(formals);
            }
        }
    }

    /// Parses a parameter.
    fn formal(&mut self) -> Result<Span, ParseStop>
        ensures goes_on { IfOk result (λ s. (n : ℕ) (bs : List Body) (a : Span) (u : Use) (fs : List Span) →
            outcome n (formal_wanted bs a u fs) self.old.items.now ≡ outcome n (formal_read bs a u (fs ++ s ∷ [])) self.new.items.now) }
        ensures stops { IfErr result (λ s. (n : ℕ) (bs : List Body) (a : Span) (u : Use) (fs : List Span) →
            Stops s (outcome n (formal_wanted bs a u fs) self.old.items.now) self.new.items.now) }
        ensures shorter { OnOk result (length self.new.items.now < length self.old.items.now) }
    {
        let Some(token) = self.peek() else {
            return Err(ParseStop::Unexpected);
        };
        let Token::Formal(formal) = token else {
            return Err(ParseStop::Unexpected);
        };
        self.skip();
        Ok(formal)
    }

    /// Parses what follows a parameter: returns true for a comma, false for `|`.
    fn more_formals(&mut self) -> Result<bool, ParseStop>
        ensures goes_on { IfOk result (λ more. (n : ℕ) (bs : List Body) (a : Span) (u : Use) (fs : List Span) →
            outcome n (formal_read bs a u fs) self.old.items.now ≡ outcome n (past_formal more bs a u fs) self.new.items.now) }
        ensures stops { IfErr result (λ s. (n : ℕ) (bs : List Body) (a : Span) (u : Use) (fs : List Span) →
            Stops s (outcome n (formal_read bs a u fs) self.old.items.now) self.new.items.now) }
        ensures shorter { OnOk result (length self.new.items.now < length self.old.items.now) }
    {
        let Some(token) = self.peek() else {
            return Err(ParseStop::Unexpected);
        };
        match token {
            Token::Comma(_) => {
                self.skip();
                Ok(true)
            }
            Token::Bar(_) => {
                self.skip();
                Ok(false)
            }
            _ => Err(ParseStop::Unexpected),
        }
    }

    /// Parses the end of a statement that is not a chain.
    pub fn end(&mut self) -> Result<(), ParseStop>
        ensures goes_on { OnOk result ((n : ℕ) (bs : List Body) (p : Place) (ss : List Statement) (st : Statement) →
            outcome n (ending bs p ss st) self.old.items.now ≡ outcome n (between bs p (ss ++ st ∷ [])) self.new.items.now) }
        ensures stops { IfErr result (λ s. (n : ℕ) (bs : List Body) (p : Place) (ss : List Statement) (st : Statement) →
            Stops s (outcome n (ending bs p ss st) self.old.items.now) self.new.items.now) }
        ensures shorter { OnOk result (length self.new.items.now ≤ length self.old.items.now) }
    {
        let Some(token) = self.peek() else {
            return Ok(());
        };
        match token {
            Token::Semicolon(_) => {
                self.skip();
                Ok(())
            }
            Token::Close(_) => Ok(()),
            _ => Err(ParseStop::Unexpected),
        }
    }

    /// Parses what follows an element: an arrow with its ports, or the end of the chain.
    pub fn next_arrow(&mut self) -> Result<Option<ArrowPorts>, ParseStop>
        ensures goes_on { IfOk result (λ arrow_ports. (n : ℕ) (bs : List Body) (p : Place) (ss : List Statement) (f : Element) (ls : List Link) →
            outcome n (after bs p ss f ls) self.old.items.now ≡ outcome n (past_element arrow_ports bs p ss f ls) self.new.items.now) }
        ensures stops { IfErr result (λ s. (n : ℕ) (bs : List Body) (p : Place) (ss : List Statement) (f : Element) (ls : List Link) →
            Stops s (outcome n (after bs p ss f ls) self.old.items.now) self.new.items.now) }
        ensures shorter { OnOk result (length self.new.items.now ≤ length self.old.items.now) }
    {
        let Some(token) = self.peek() else {
            return Ok(None);
        };
        match token {
            Token::Semicolon(_) => {
                self.skip();
                Ok(None)
            }
            Token::Close(_) => Ok(None),
            _ => {
                let arrow_ports = self.arrow_ports()?;
                Ok(Some(arrow_ports))
            }
        }
    }

    /// Parses an arrow with its ports.
    fn arrow_ports(&mut self) -> Result<ArrowPorts, ParseStop>
        ensures goes_on { IfOk result (λ arrow_ports. (n : ℕ) (bs : List Body) (p : Place) (ss : List Statement) (f : Element) (ls : List Link) →
            outcome n (port_wanted bs p ss f ls out) self.old.items.now ≡ outcome n (element_wanted bs (linked p ss f ls arrow_ports.from arrow_ports.to)) self.new.items.now) }
        ensures stops { IfErr result (λ s. (n : ℕ) (bs : List Body) (p : Place) (ss : List Statement) (f : Element) (ls : List Link) →
            Stops s (outcome n (port_wanted bs p ss f ls out) self.old.items.now) self.new.items.now) }
        ensures shorter { OnOk result (length self.new.items.now < length self.old.items.now) }
    {
        let from = self.port()?;
        self.arrow()?;
        let to = self.port()?;
        Ok(ArrowPorts { from, to })
    }

    /// Parses an arrow.
    fn arrow(&mut self) -> Result<(), ParseStop>
        ensures goes_on { OnOk result ((n : ℕ) (bs : List Body) (p : Place) (ss : List Statement) (f : Element) (ls : List Link) (from : Option WrittenPort) →
            outcome n (arrow_wanted bs p ss f ls from) self.old.items.now ≡ outcome n (port_wanted bs p ss f ls (into from)) self.new.items.now) }
        ensures stops { IfErr result (λ s. (n : ℕ) (bs : List Body) (p : Place) (ss : List Statement) (f : Element) (ls : List Link) (from : Option WrittenPort) →
            Stops s (outcome n (arrow_wanted bs p ss f ls from) self.old.items.now) self.new.items.now) }
        ensures shorter { OnOk result (length self.new.items.now < length self.old.items.now) }
    {
        let Some(token) = self.peek() else {
            return Err(ParseStop::Unexpected);
        };
        let Token::Arrow(_) = token else {
            return Err(ParseStop::Unexpected);
        };
        self.skip();
        Ok(())
    }

    /// Parses a port in brackets, if there is one.
    fn port(&mut self) -> Result<Option<WrittenPort>, ParseStop>
        ensures goes_on { IfOk result (λ q. (n : ℕ) (bs : List Body) (p : Place) (ss : List Statement) (f : Element) (ls : List Link) (side : Side) →
            outcome n (port_wanted bs p ss f ls side) self.old.items.now ≡ outcome n (ported bs p ss f ls side q) self.new.items.now) }
        ensures stops { IfErr result (λ s. (n : ℕ) (bs : List Body) (p : Place) (ss : List Statement) (f : Element) (ls : List Link) (side : Side) →
            Stops s (outcome n (port_wanted bs p ss f ls side) self.old.items.now) self.new.items.now) }
        ensures shorter { OnOk result (length self.new.items.now ≤ length self.old.items.now) }
    {
        let Some(token) = self.peek() else {
            return Ok(None);
        };
        let Token::OpenBracket(bracket) = token else {
            return Ok(None);
        };
        self.skip();
        let number = self.number()?;
        let Some(token) = self.peek() else {
            return Err(ParseStop::Unexpected);
        };
        let Token::CloseBracket(end) = token else {
            return Err(ParseStop::Unexpected);
        };
        self.skip();
        let span = Span {
            start: bracket.start,
            end: end.end,
        };
        Ok(Some(WrittenPort { number, span }))
    }

    /// Parses the number of a port.
    fn number(&mut self) -> Result<u8, ParseStop>
        ensures goes_on { IfOk result (λ m. (n : ℕ) (bs : List Body) (p : Place) (ss : List Statement) (f : Element) (ls : List Link) (side : Side) (a : Span) →
            outcome n (number_wanted bs p ss f ls side a) self.old.items.now ≡ outcome n (close_wanted bs p ss f ls side a m) self.new.items.now) }
        ensures stops { IfErr result (λ s. (n : ℕ) (bs : List Body) (p : Place) (ss : List Statement) (f : Element) (ls : List Link) (side : Side) (a : Span) →
            Stops s (outcome n (number_wanted bs p ss f ls side a) self.old.items.now) self.new.items.now) }
        ensures shorter { OnOk result (length self.new.items.now < length self.old.items.now) }
    {
        let Some(token) = self.peek() else {
            return Err(ParseStop::Unexpected);
        };
        let Token::Number(number, _) = token else {
            return Err(ParseStop::Unexpected);
        };
        let Some(number) = number else {
            return Err(ParseStop::Unexpected);
        };
        self.skip();
        Ok(number)
    }

    /// Removes a `::` if it is next. Returns whether it was.
    pub fn double_colon(&mut self) -> bool
        ensures goes_on { (n : ℕ) (bs : List Body) (cx : Context) (s : Span) →
            outcome n (word_read bs cx s) self.old.items.now ≡ outcome n (past_word result bs cx s) self.new.items.now }
        ensures shorter { length self.new.items.now ≤ length self.old.items.now }
    {
        let Some(token) = self.peek() else {
            return false;
        };
        let Token::DoubleColon(_) = token else {
            return false;
        };
        self.skip();
        true
    }

    /// Parses a configuration string, if there is one.
    ///
    /// It may follow a head, the class of several names, or `require`.
    pub fn string(&mut self) -> Option<Span>
        ensures of_head { (n : ℕ) (bs : List Body) (cx : Context) (h : Head) →
            outcome n (head_read bs cx h) self.old.items.now ≡ outcome n (element_read bs cx (element h result)) self.new.items.now }
        ensures of_names { (n : ℕ) (bs : List Body) (p : Place) (ss : List Statement) (ns : List Span) (c : ClassReference) →
            outcome n (listed_read bs p ss ns c) self.old.items.now ≡ outcome n (ending bs p ss (declaration ns c result)) self.new.items.now }
        ensures of_requirement { (n : ℕ) (bs : List Body) (p : Place) (ss : List Statement) →
            outcome n (required bs p ss) self.old.items.now ≡ outcome n (between bs p (ss ++ a_requirement result ∷ [])) self.new.items.now }
        ensures shorter { length self.new.items.now ≤ length self.old.items.now }
    {
        let Some(token) = self.peek() else {
            return None;
        };
        let Token::String(span) = token else {
            return None;
        };
        self.skip();
        Some(span)
    }
}
