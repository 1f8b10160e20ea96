//! The numbers of the ports that a port is linked with.

ghost use Rattle.std.specs.Prelude.{◌≡◌, [], ◌∷◌, ◌++◌, IfOk, OnOk, OnErr, length};

use std::alloc::{AllocError, Global};
use std::marker::Model;
use std::slice::from_ref;

/// The storage of a row.
///
/// perf: most rows have one number, which needs no allocation.
#[derive(Drop)]
pub enum Numbers {
    None,
    One(usize),
    Many(Vec<usize>),
}

/// Numbers in order.
#[derive(Drop)]
pub struct Row {
    numbers: Numbers,
}

impl Model for Row {
    ghost use Rattle.std.specs.Prelude.{ℕ, List};
    ghost use Rattle.click_ports.specs.kept.Rows.{listed};

    ghost Value = { List ℕ };

    ghost view = { λ r. listed r.numbers };
}

/// Returns a list of two numbers, with room for more.
fn both(alloc: Global, first: usize, second: usize) -> Result<Vec<usize>, AllocError>
    ensures { IfOk result (λ all. all.items ≡ first ∷ second ∷ []) }
{
    let mut all = Vec::with_capacity(alloc, 4)?;
    all.push(first)?;
    all.push(second)?;
    Ok(all)
}

impl Row {
    /// Returns an empty row.
    pub fn new() -> Row
        ensures { result ≡ [] }
    {
        Row {
            numbers: Numbers::None,
        }
    }

    /// Returns the numbers, in order.
    pub fn as_slice(&self) -> &[usize]
        ensures { result.now ≡ self.now }
    {
        match &self.numbers {
            Numbers::None => &[],
            Numbers::One(number) => from_ref(number),
            Numbers::Many(all) => all.as_slice(),
        }
    }

    /// Returns the number of items.
    pub fn len(&self) -> usize
        ensures { result ≡ length self.now }
    {
        self.as_slice().len()
    }

    /// Appends a number. If it fails with out of memory, the row is unchanged.
    pub fn push(&mut self, alloc: Global, number: usize) -> Result<(), AllocError>
        ensures ok { OnOk result (self.new ≡ self.old ++ number ∷ []) }
        ensures err { OnErr result (self.new ≡ self.old) }
    {
        match &mut self.numbers {
            Numbers::None => {
                self.numbers = Numbers::One(number);
            }
            Numbers::One(first) => {
                let all = both(alloc, *first, number)?;
                self.numbers = Numbers::Many(all);
            }
            Numbers::Many(all) => all.push(number)?,
        }
        Ok(())
    }
}
