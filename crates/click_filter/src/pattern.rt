//! Patterns in a flat form.

use crate::test::Test;

/// A node of a pattern.
#[derive(Clone, Copy, Debug, PartialEq, Eq)]
pub enum Node {
    Test(Test),
    Not,
    And,
    Or,
}

/// A pattern: its nodes in such an order that each follows what it joins.
#[derive(Drop)]
pub struct Pattern {
    pub nodes: Vec<Node>,
}
