//! The parser: recursive descent over a list of tokens.

ghost use Rattle.std.specs.Prelude.{◌≡◌, ℕ, ◌<◌, ◌≤◌, ◌++◌, ◌∷◌, [], List, Some, length, drop, OnOk, IfOk, IfErr};
ghost use Rattle.click_text.specs.declared.syntax.Token.{Token};
ghost use Rattle.click_text.specs.declared.syntax.Statement.{Statement};
ghost use Rattle.click_text.specs.Grammar.{IsText, NestsWithin, tree_of};
ghost use Rattle.click_text.specs.Faults.{IsFaultAmong, IsMemoryOr};
ghost use Rattle.click_text.specs.kept.ParserStates.{Place, top, Use, Target, Context, start, State, step, outcome, between, statement_wanted, name_read, define, body_opened, element_wanted, head_read, class_wanted, classified, body_read, element_read, Stops, NoStatement};

use crate::syntax::{
    Body, Chain, ClassReference, Config, Declaration, Element, Ending, FaultKind, Head, Link, Span,
    Statement, TextFault, Token,
};
use crate::tokens::{ParseStop, Tokens};
use click_base::sequence::Sequence;
use std::alloc::Global;

/// The maximum number of braces that may be open at once.
pub const MAX_OPEN_BRACES: usize = 32;

/// The state of parsing: the tokens that are left, and the bodies that were closed.
#[derive(Drop)]
pub struct Parser<'a> {
    alloc: Global,
    tokens: Tokens<'a>,
    bodies: Sequence<Body>,
}

// In each function `depth` is the number of open braces.
impl<'a> Parser<'a> {
    /// Parses statements up to a closing brace or the end of the tokens.
    #[cycle(parser)]
    fn statements(&mut self, depth: usize) -> Result<Sequence<Statement>, ParseStop>
        ensures goes_on { IfOk result (λ ss. (p : Place) →
            outcome depth (between self.old.bodies p []) self.old.tokens.items.now ≡ outcome depth (between self.new.bodies p ss) self.new.tokens.items.now) }
        ensures stops { IfErr result (λ s. (p : Place) →
            Stops s (outcome depth (between self.old.bodies p []) self.old.tokens.items.now) self.new.tokens.items.now) }
        ensures ended { OnOk result (NoStatement self.new.tokens.items.now) }
        ensures shorter { OnOk result (length self.new.tokens.items.now ≤ length self.old.tokens.items.now) }
    {
        let mut statements = Sequence::new(self.alloc);
        'rows: loop {
            let Some(token) = self.tokens.peek() else {
                return Ok(statements);
            };
            match token {
                Token::Close(_) => return Ok(statements),
                Token::Semicolon(_) => self.tokens.skip(),
                _ => {
                    let statement = self.statement(depth)?;
                    statements.push(statement)?;
                }
            }
        }
    }

    /// Parses one statement, including its end if it has one.
    #[cycle(parser)]
    fn statement(&mut self, depth: usize) -> Result<Statement, ParseStop>
        ensures goes_on { IfOk result (λ st. (p : Place) (ss : List Statement) →
            outcome depth (statement_wanted self.old.bodies p ss) self.old.tokens.items.now ≡ outcome depth (between self.new.bodies p (ss ++ st ∷ [])) self.new.tokens.items.now) }
        ensures stops { IfErr result (λ s. (p : Place) (ss : List Statement) →
            Stops s (outcome depth (statement_wanted self.old.bodies p ss) self.old.tokens.items.now) self.new.tokens.items.now) }
        ensures shorter { OnOk result (length self.new.tokens.items.now < length self.old.tokens.items.now) }
    {
        let Some(token) = self.tokens.peek() else {
            return Err(ParseStop::Unexpected);
        };
        if let Some(first) = self.tokens.first_of_names() {
            self.tokens.skip();
            return self.declaration(first, depth);
        }
        match token {
            Token::Elementclass(_) => {
                self.tokens.skip();
                self.definition(depth)
            }
            Token::Require(_) => {
                self.tokens.skip();
                let text = self.tokens.string();
                Ok(Statement::Requirement { text })
            }
            _ => {
                let chain = self.chain(depth)?;
                Ok(Statement::Chain(chain))
            }
        }
    }

    /// Parses the rest of a declaration, after the first of its names.
    #[cycle(parser)]
    fn declaration(&mut self, first: Span, depth: usize) -> Result<Statement, ParseStop>
        ensures goes_on { IfOk result (λ st. (p : Place) (ss : List Statement) →
            outcome depth (name_read self.old.bodies p ss (first ∷ [])) self.old.tokens.items.now ≡ outcome depth (between self.new.bodies p (ss ++ st ∷ [])) self.new.tokens.items.now) }
        ensures stops { IfErr result (λ s. (p : Place) (ss : List Statement) →
            Stops s (outcome depth (name_read self.old.bodies p ss (first ∷ [])) self.old.tokens.items.now) self.new.tokens.items.now) }
        ensures shorter { OnOk result (length self.new.tokens.items.now ≤ length self.old.tokens.items.now) }
    {
        let names = self.tokens.names(self.alloc, first)?;
        let class = self.class(depth)?;
        let text = self.tokens.string();
        self.tokens.end()?;
        Ok(Statement::Declaration(Declaration { names, class, text }))
    }

    /// Parses the rest of a definition or synonym, after `elementclass`.
    #[cycle(parser)]
    fn definition(&mut self, depth: usize) -> Result<Statement, ParseStop>
        ensures goes_on { IfOk result (λ st. (p : Place) (ss : List Statement) →
            outcome depth (define self.old.bodies p ss) self.old.tokens.items.now ≡ outcome depth (between self.new.bodies p (ss ++ st ∷ [])) self.new.tokens.items.now) }
        ensures stops { IfErr result (λ s. (p : Place) (ss : List Statement) →
            Stops s (outcome depth (define self.old.bodies p ss) self.old.tokens.items.now) self.new.tokens.items.now) }
        ensures shorter { OnOk result (length self.new.tokens.items.now ≤ length self.old.tokens.items.now) }
    {
        let name = self.tokens.word()?;
        let Some(token) = self.tokens.peek() else {
            return Err(ParseStop::Unexpected);
        };
        match token {
            Token::Word(class) => {
                self.tokens.skip();
                self.tokens.end()?;
                Ok(Statement::Synonym { name, class })
            }
            Token::Open(brace) => {
                let body = self.body(brace, depth)?;
                Ok(Statement::Definition { name, body })
            }
            _ => Err(ParseStop::Unexpected),
        }
    }

    /// Parses a chain, including its end.
    #[cycle(parser)]
    fn chain(&mut self, depth: usize) -> Result<Chain, ParseStop>
        ensures goes_on { IfOk result (λ c. (p : Place) (ss : List Statement) →
            outcome depth (element_wanted self.old.bodies (start p ss)) self.old.tokens.items.now ≡ outcome depth (between self.new.bodies p (ss ++ Statement.Chain c ∷ [])) self.new.tokens.items.now) }
        ensures stops { IfErr result (λ s. (p : Place) (ss : List Statement) →
            Stops s (outcome depth (element_wanted self.old.bodies (start p ss)) self.old.tokens.items.now) self.new.tokens.items.now) }
        ensures shorter { OnOk result (length self.new.tokens.items.now < length self.old.tokens.items.now) }
    {
        let first = self.element(depth)?;
        let mut links = Sequence::new(self.alloc);
        'links: loop {
            let Some(arrow_ports) = self.tokens.next_arrow()? else {
                return Ok(Chain { first, links });
            };
            let element = self.element(depth)?;
            links.push(Link {
                from: arrow_ports.from,
                to: arrow_ports.to,
                element,
            })?;
        }
    }

    /// Parses an element.
    #[cycle(parser)]
    fn element(&mut self, depth: usize) -> Result<Element, ParseStop>
        ensures goes_on { IfOk result (λ e. (cx : Context) →
            outcome depth (element_wanted self.old.bodies cx) self.old.tokens.items.now ≡ outcome depth (element_read self.new.bodies cx e) self.new.tokens.items.now) }
        ensures stops { IfErr result (λ s. (cx : Context) →
            Stops s (outcome depth (element_wanted self.old.bodies cx) self.old.tokens.items.now) self.new.tokens.items.now) }
        ensures shorter { OnOk result (length self.new.tokens.items.now < length self.old.tokens.items.now) }
    {
        let head = self.head(depth)?;
        let text = self.tokens.string();
        Ok(Element { head, text })
    }

    /// Parses the head of an element: a word, a declared name or a body.
    #[cycle(parser)]
    fn head(&mut self, depth: usize) -> Result<Head, ParseStop>
        ensures goes_on { IfOk result (λ h. (cx : Context) →
            outcome depth (element_wanted self.old.bodies cx) self.old.tokens.items.now ≡ outcome depth (head_read self.new.bodies cx h) self.new.tokens.items.now) }
        ensures stops { IfErr result (λ s. (cx : Context) →
            Stops s (outcome depth (element_wanted self.old.bodies cx) self.old.tokens.items.now) self.new.tokens.items.now) }
        ensures shorter { OnOk result (length self.new.tokens.items.now < length self.old.tokens.items.now) }
    {
        let Some(token) = self.tokens.peek() else {
            return Err(ParseStop::Unexpected);
        };
        match token {
            Token::Word(word) => {
                self.tokens.skip();
                if !self.tokens.double_colon() {
                    return Ok(Head::Word(word));
                }
                let class = self.class(depth)?;
                Ok(Head::Declared(word, class))
            }
            Token::Open(brace) => {
                let body = self.body(brace, depth)?;
                Ok(Head::Compound(body))
            }
            _ => Err(ParseStop::Unexpected),
        }
    }

    /// Parses a class: a word or a body.
    #[cycle(parser)]
    fn class(&mut self, depth: usize) -> Result<ClassReference, ParseStop>
        ensures goes_on { IfOk result (λ c. (g : Target) →
            outcome depth (class_wanted self.old.bodies g) self.old.tokens.items.now ≡ outcome depth (classified self.new.bodies g c) self.new.tokens.items.now) }
        ensures stops { IfErr result (λ s. (g : Target) →
            Stops s (outcome depth (class_wanted self.old.bodies g) self.old.tokens.items.now) self.new.tokens.items.now) }
        ensures shorter { OnOk result (length self.new.tokens.items.now < length self.old.tokens.items.now) }
    {
        let Some(token) = self.tokens.peek() else {
            return Err(ParseStop::Unexpected);
        };
        match token {
            Token::Word(name) => {
                self.tokens.skip();
                Ok(ClassReference::Named(name))
            }
            Token::Open(brace) => {
                let body = self.body(brace, depth)?;
                Ok(ClassReference::Body(body))
            }
            _ => Err(ParseStop::Unexpected),
        }
    }

    /// Parses a body that begins with this brace. Returns its index among the bodies.
    #[cycle(parser)]
    fn body(&mut self, brace: Span, depth: usize) -> Result<usize, ParseStop>
        requires { self.old.tokens.items.now ≡ Token.Open brace ∷ drop 1 self.old.tokens.items.now }
        ensures goes_on { IfOk result (λ at. (s : State) (u : Use) → step s (Token.Open brace) ≡ Some (body_opened self.old.bodies brace u) →
            outcome depth s self.old.tokens.items.now ≡ outcome depth (body_read self.new.bodies u at) self.new.tokens.items.now) }
        ensures stops { IfErr result (λ e. (s : State) (u : Use) → step s (Token.Open brace) ≡ Some (body_opened self.old.bodies brace u) →
            Stops e (outcome depth s self.old.tokens.items.now) self.new.tokens.items.now) }
        ensures shorter { OnOk result (length self.new.tokens.items.now < length self.old.tokens.items.now) }
    {
        if depth >= MAX_OPEN_BRACES {
            return Err(ParseStop::TooDeep);
        }
        self.tokens.skip();
        let formals = self.tokens.formals(self.alloc)?;
        let statements = self.statements(depth + 1)?;
        let Some(token) = self.tokens.peek() else {
            return Err(ParseStop::Unexpected);
        };
        let Token::Close(close) = token else {
            return Err(ParseStop::Unexpected);
        };
        self.tokens.skip();
        let at = self.bodies.len();
        let span = Span {
            start: brace.start,
            end: close.end,
        };
        self.bodies.push(Body {
            span,
            formals,
            statements,
        })?;
        Ok(at)
    }

    /// Returns the fault for which the parser stopped, in a text of `size` bytes with this ending.
    fn fault(&self, stop: ParseStop, size: usize, ending: Ending) -> TextFault
        ensures { (ts : List Token) → Stops stop (outcome 0 (between [] top []) ts) self.now.tokens.items.now → IsMemoryOr result (IsFaultAmong size ts ending result) }
    {
        let next = self.tokens.peek();
        match stop {
            ParseStop::Memory => TextFault::no_memory(),
            ParseStop::Unexpected => match next {
                None => ending.fault(size),
                Some(token) => TextFault {
                    kind: FaultKind::Unexpected,
                    span: token.span(),
                },
            },
            ParseStop::TooDeep => match next {
                None => ending.fault(size),
                Some(token) => TextFault {
                    kind: FaultKind::TooDeep,
                    span: token.span(),
                },
            },
        }
    }
}

/// Returns the configuration of a text with these tokens and this ending, or the first fault.
pub fn config_of(
    alloc: Global,
    text: &[u8],
    tokens: &[Token],
    ending: Ending,
) -> Result<Config, TextFault>
    ensures text { IfOk result (λ c. c.text ≡ text.now) }
    ensures whole { OnOk result (ending ≡ Ending.Whole) }
    ensures tree { IfOk result (λ c. IsText tokens.now (tree_of c)) }
    ensures nests { OnOk result (NestsWithin 0 tokens.now) }
    ensures err { IfErr result (λ f. IsMemoryOr f (IsFaultAmong (length text.now) tokens.now ending f)) }
{
    let mut parser = Parser {
        alloc,
        tokens: Tokens { items: tokens },
        bodies: Sequence::new(alloc),
    };
    let statements = match parser.statements(0) {
        Ok(statements) => statements,
        Err(stop) => return Err(parser.fault(stop, text.len(), ending)),
    };
    if let Some(token) = parser.tokens.peek() {
        return Err(TextFault {
            kind: FaultKind::Unexpected,
            span: token.span(),
        });
    }
    if let Ending::Stuck(fault) = ending {
        return Err(fault);
    }
    let text = Sequence::of(text.to_vec(alloc)?);
    let Parser { bodies, .. } = parser;
    Ok(Config {
        text,
        statements,
        bodies,
    })
}
