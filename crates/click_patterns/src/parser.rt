//! The parser: recursive descent over a list of tokens. At most 32 parentheses and `not` are open,
//! so the recursion is bounded.

ghost use Rattle.std.specs.Prelude.{◌≡◌, ◌<◌, ◌≤◌, ◌++◌, ◌∷◌, [], List, Some, None, length, take, drop, false, OnOk, IfOk, IfErr};
ghost use Rattle.click_filter.specs.declared.rule.Action.{Action};
ghost use Rattle.click_filter.specs.declared.test.Test.{Test};
ghost use Rattle.click_filter.specs.Trees.{Tree, flat};
ghost use Rattle.click_patterns.specs.declared.token.Token.{Token};
ghost use Rattle.click_patterns.specs.Tests.{test_of};
ghost use Rattle.click_patterns.specs.Grammar.{is_word, words, behind, goes_on, IsChain, IsPart, IsNegation, IsPattern};
ghost use Rattle.click_patterns.specs.Arguments.{action_of, without_white, IsArgument};

use crate::lexer::{PatternError, is_white, scan, word_len};
use crate::test_words::{split, test_of};
use crate::token::{Join, Token};
use crate::values::output_number;
use click_filter::{Action, Node, Pattern, Rule};
use std::alloc::Global;

/// The maximum number of parentheses and `not` that may be open at once.
pub const MAX_OPEN: usize = 32;

/// The tokens that are left, and the nodes so far.
#[derive(Drop)]
struct Parser<'a> {
    tokens: &'a [Token],
    nodes: Vec<Node>,
}

/// Returns whether the token is a word.
fn is_word(token: Token) -> bool
    ensures { result ≡ is_word token }
{
    match token {
        Token::Open | Token::Close | Token::Not | Token::Join(_) => false,
        _ => true,
    }
}

/// Returns the number of tokens of the test with which the tokens begin.
fn word_count(tokens: &[Token]) -> usize
    ensures within { result ≤ length tokens.now }
    ensures words { take result tokens.now ≡ words false tokens.now }
    ensures behind { drop result tokens.now ≡ behind false tokens.now }
{
    let mut after_source = false;
    let mut count = 0;
    'words: while count < tokens.len() {
        let token = tokens[count];
        let is_part = match token {
            Token::Join(_) => after_source,
            _ => is_word(token),
        };
        if !is_part {
            return count;
        }
        after_source = match token {
            Token::Src => true,
            _ => false,
        };
        count += 1;
    }
    count
}

/// Returns whether the next token is this `and` or `or`.
fn goes_on(join: Join, tokens: &[Token]) -> bool
    ensures { result ≡ goes_on join tokens.now }
{
    match tokens {
        [Token::Join(next), ..] => *next == join,
        _ => false,
    }
}

impl<'a> Parser<'a> {
    /// Parses one part or more, all joined by `and` or all by `or`.
    #[cycle(parser)]
    fn chain(&mut self, join: Join, depth: usize) -> Result<(), PatternError>
        ensures ok { OnOk result ((t : Tree) × IsChain join depth self.old.tokens.now t self.new.tokens.now × (self.new.nodes.items ≡ self.old.nodes.items ++ flat t)) }
        ensures err { IfErr result (λ e. e ≡ PatternError.Bad → (t : Tree) (rest : List Token) → IsChain join depth self.old.tokens.now t rest → ⊥) }
        ensures shorter { OnOk result (length self.new.tokens.now < length self.old.tokens.now) }
    {
        self.part(join, depth)?;
        'parts: while goes_on(join, self.tokens) {
            self.tokens = &self.tokens[1..];
            self.part(join, depth)?;
            self.nodes.push(match join {
                Join::And => Node::And,
                Join::Or => Node::Or,
            })?;
        }
        Ok(())
    }

    /// Parses one part of a chain.
    #[cycle(parser)]
    fn part(&mut self, join: Join, depth: usize) -> Result<(), PatternError>
        ensures ok { OnOk result ((t : Tree) × IsPart join depth self.old.tokens.now t self.new.tokens.now × (self.new.nodes.items ≡ self.old.nodes.items ++ flat t)) }
        ensures err { IfErr result (λ e. e ≡ PatternError.Bad → (t : Tree) (rest : List Token) → IsPart join depth self.old.tokens.now t rest → ⊥) }
        ensures shorter { OnOk result (length self.new.tokens.now < length self.old.tokens.now) }
    {
        match join {
            Join::Or => self.chain(Join::And, depth),
            Join::And => self.negation(depth),
        }
    }

    /// Parses a negation, a pattern in parentheses, or a test.
    #[cycle(parser)]
    fn negation(&mut self, depth: usize) -> Result<(), PatternError>
        ensures ok { OnOk result ((t : Tree) × IsNegation depth self.old.tokens.now t self.new.tokens.now × (self.new.nodes.items ≡ self.old.nodes.items ++ flat t)) }
        ensures err { IfErr result (λ e. e ≡ PatternError.Bad → (t : Tree) (rest : List Token) → IsNegation depth self.old.tokens.now t rest → ⊥) }
        ensures shorter { OnOk result (length self.new.tokens.now < length self.old.tokens.now) }
    {
        let (first, rest) = split(self.tokens);
        let Some(token) = first else {
            return Err(PatternError::Bad);
        };
        match token {
            Token::Not => {
                if depth >= MAX_OPEN {
                    return Err(PatternError::Bad);
                }
                self.tokens = rest;
                self.negation(depth + 1)?;
                self.nodes.push(Node::Not)?;
                Ok(())
            }
            Token::Open => {
                if depth >= MAX_OPEN {
                    return Err(PatternError::Bad);
                }
                self.tokens = rest;
                self.chain(Join::Or, depth + 1)?;
                self.close()
            }
            _ => self.test(),
        }
    }

    /// Removes a closing parenthesis.
    fn close(&mut self) -> Result<(), PatternError>
        ensures ok { OnOk result ((self.old.tokens.now ≡ Token.Close ∷ self.new.tokens.now) × (self.new.nodes.items ≡ self.old.nodes.items)) }
        ensures err { IfErr result (λ e. (rest : List Token) → self.old.tokens.now ≡ Token.Close ∷ rest → ⊥) }
        ensures shorter { OnOk result (length self.new.tokens.now < length self.old.tokens.now) }
    {
        match self.tokens {
            [Token::Close, rest @ ..] => {
                self.tokens = rest;
                Ok(())
            }
            _ => Err(PatternError::Bad),
        }
    }

    /// Parses a test.
    fn test(&mut self) -> Result<(), PatternError>
        ensures ok { OnOk result ((x : Test) × (test_of (words false self.old.tokens.now) ≡ Some x) × (self.new.tokens.now ≡ behind false self.old.tokens.now)
            × (self.new.nodes.items ≡ self.old.nodes.items ++ Node.Test x ∷ [])) }
        ensures err { IfErr result (λ e. e ≡ PatternError.Bad → test_of (words false self.old.tokens.now) ≡ None) }
        ensures shorter { OnOk result (length self.new.tokens.now < length self.old.tokens.now) }
    {
        let count = word_count(self.tokens);
        let Some(test) = test_of(&self.tokens[..count]) else {
            return Err(PatternError::Bad);
        };
        self.nodes.push(Node::Test(test))?;
        self.tokens = &self.tokens[count..];
        Ok(())
    }
}

/// Returns the pattern that a text spells.
///
/// Fails with `Bad` if and only if the text is no pattern, or with `NoMemory`.
pub fn parse(alloc: Global, text: &[u8]) -> Result<Pattern, PatternError>
    ensures ok { IfOk result (λ p. (t : Tree) × IsPattern text.now t × (p.nodes.items ≡ flat t)) }
    ensures err { IfErr result (λ e. e ≡ PatternError.Bad → (t : Tree) → IsPattern text.now t → ⊥) }
{
    let tokens = scan(alloc, text)?;
    let mut parser = Parser {
        tokens: &tokens,
        nodes: Vec::new(alloc),
    };
    parser.chain(Join::Or, 0)?;
    if !parser.tokens.is_empty() {
        return Err(PatternError::Bad);
    }
    Ok(Pattern {
        nodes: parser.nodes,
    })
}

/// Returns the action that a word names: `allow`, `deny`, `drop` or the number of an output.
#[tactic(auto, unfolding(crate::specs::Arguments::action_of))]
fn action_of(word: &[u8]) -> Option<Action>
    ensures { result ≡ action_of word.now }
{
    if word == b"allow".as_slice() {
        return Some(Action::Output(0));
    }
    if word == b"deny".as_slice() {
        return Some(Action::Drop);
    }
    if word == b"drop".as_slice() {
        return Some(Action::Drop);
    }
    Some(Action::Output(output_number(word)?))
}

/// Returns the text without the white space at its front.
fn without_white(text: &[u8]) -> &[u8]
    ensures { result.now ≡ without_white text.now }
{
    for (i, byte) in text.iter().enumerate() {
        if !is_white(*byte) {
            return &text[i..];
        }
    }
    &text[text.len()..]
}

/// Returns the rule that an argument of IPFilter spells.
///
/// Fails with `Bad` if and only if the text is no action and pattern, or with `NoMemory`.
pub fn parse_rule(alloc: Global, text: &[u8]) -> Result<Rule, PatternError>
    ensures ok { IfOk result (λ r. (t : Tree) × IsArgument text.now r.action t × (r.pattern.nodes.items ≡ flat t)) }
    ensures err { IfErr result (λ e. e ≡ PatternError.Bad → (a : Action) (t : Tree) → IsArgument text.now a t → ⊥) }
{
    let text = without_white(text);
    let len = word_len(text);
    let Some(action) = action_of(&text[..len]) else {
        return Err(PatternError::Bad);
    };
    let pattern = parse(alloc, &text[len..])?;
    Ok(Rule { action, pattern })
}
