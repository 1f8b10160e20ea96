//! Rows: the calls of handlers, stored with their contracts.

ghost use Rattle.std.specs.Prelude.{◌≡◌, ◌++◌, ◌∷◌, [], map, OnOk};
ghost use Rattle.std.specs.Str.{bytes_eq};
ghost use Rattle.click_handlers.specs.Names.{of_class, reads_of, writes_of};
ghost use Rattle.click_classes.specs.State.{class};
ghost use Rattle.click_handlers.specs.Answers.{IsReadAnswer, AnswersReads, IsWriteAnswer, AnswersWrites};
ghost use Rattle.click_handlers.specs.Reads.{read_value};
ghost use Rattle.click_handlers.specs.Writes.{write_value};

use crate::fault::HandlerFault;
use crate::names::{reads_of, writes_of};
use crate::written::Written;
use click_base::Class;
use click_engine::Element;
use std::alloc::{AllocError, Global};

/// Returns whether two names are equal.
///
/// perf: a function of its own, so that a row of another class needs no room for names.
#[inline(always)]
fn is_same(one: &[u8], other: &[u8]) -> bool
    ensures { result ≡ bytes_eq one.now other.now }
{
    one == other
}

/// A row as a table sees it: the handler that it is of, and the names that a class has in such
/// rows.
pub(crate) trait HandlerRow {
    ghost use Rattle.std.specs.Prelude.{◌≡◌, ℕ, List, map};
    ghost use Rattle.click_base.specs.declared.class.Class.{Class};
    ghost use Rattle.click_handlers.specs.Names.{HandlerName, is_named};

    ghost handler: { Self → HandlerName };

    ghost names: { Class → List (List ℕ) };

    /// Returns whether this is the row of the class and the name.
    fn is_handler(&self, class: Class, name: &[u8]) -> bool
        ensures { result ≡ is_named class name.now (handler self.now) };

    /// Returns the names of a class, in order.
    fn names_of(class: Class) -> &'static [&'static [u8]]
        ensures { map (λ n. n.now) result.now ≡ names class };
}

/// A call that reads a handler. It borrows the element and a text.
pub type ReadCall = Box<dyn Fn(Global, &Element, &[u8]) -> Result<Vec<u8>, HandlerFault> + Send>;

/// A handler of a class that can be read.
#[derive(Drop)]
pub struct ReadRow {
    pub class: Class,
    pub name: Vec<u8>,
    call: ReadCall,
    ghost answers: { AnswersReads (pre call) (post call) class name.items },
}

impl ReadRow {
    /// Stores a call. By the precondition it gives the value of the handler with that name, for
    /// every element of the class.
    pub fn new(class: Class, name: Vec<u8>, call: ReadCall) -> ReadRow
        requires { AnswersReads (pre call) (post call) class name.items }
        ensures class { result.class ≡ class }
        ensures name { result.name ≡ name }
    {
        ReadRow { class, name, call }
    }

    /// Reads the handler of an element of the class.
    pub fn answer(
        &self,
        alloc: Global,
        element: &Element,
        text: &[u8],
    ) -> Result<Vec<u8>, HandlerFault>
        requires { class element.now.state ≡ self.now.class }
        ensures { IsReadAnswer (read_value self.now.name.items element.now text.now) result }
    {
        read_through(&self.call, alloc, element, text)
    }
}

impl HandlerRow for ReadRow {
    ghost handler = { λ r. of_class r.class r.name.items };

    ghost names = { reads_of };

    fn is_handler(&self, class: Class, name: &[u8]) -> bool {
        self.class == class && is_same(self.name.as_slice(), name)
    }

    fn names_of(class: Class) -> &'static [&'static [u8]]
        ensures { map (λ n. n.now) result.now ≡ reads_of class }
    {
        reads_of(class)
    }
}

/// Makes the stored call.
fn read_through(
    call: &ReadCall,
    alloc: Global,
    element: &Element,
    text: &[u8],
) -> Result<Vec<u8>, HandlerFault>
    requires { pre call.now alloc element text }
    ensures { post call.now alloc element.entry text.entry result }
{
    call(alloc, element, text)
}

/// A call that writes a handler. It takes the element and a text, and returns the element.
pub type WriteCall = Box<dyn Fn(Global, Element, &[u8]) -> Written + Send>;

/// A handler of a class that can be written.
#[derive(Drop)]
pub struct WriteRow {
    pub class: Class,
    pub name: Vec<u8>,
    call: WriteCall,
    ghost answers: { AnswersWrites (pre call) (post call) class name.items },
}

impl WriteRow {
    /// Stores a call. By the precondition it does what a write of the handler with that name does,
    /// for every element of the class.
    pub fn new(class: Class, name: Vec<u8>, call: WriteCall) -> WriteRow
        requires { AnswersWrites (pre call) (post call) class name.items }
        ensures class { result.class ≡ class }
        ensures name { result.name ≡ name }
    {
        WriteRow { class, name, call }
    }

    /// Writes the handler of an element of the class.
    pub fn answer(&self, alloc: Global, element: Element, text: &[u8]) -> Written
        requires { class element.state ≡ self.now.class }
        ensures { IsWriteAnswer self.now.name.items element text.now result }
    {
        write_through(&self.call, alloc, element, text)
    }
}

impl HandlerRow for WriteRow {
    ghost handler = { λ r. of_class r.class r.name.items };

    ghost names = { writes_of };

    fn is_handler(&self, class: Class, name: &[u8]) -> bool {
        self.class == class && is_same(self.name.as_slice(), name)
    }

    fn names_of(class: Class) -> &'static [&'static [u8]]
        ensures { map (λ n. n.now) result.now ≡ writes_of class }
    {
        writes_of(class)
    }
}

/// Makes the stored call.
fn write_through(call: &WriteCall, alloc: Global, element: Element, text: &[u8]) -> Written
    requires { pre call.now alloc element text }
    ensures { post call.now alloc element text.entry result }
{
    call(alloc, element, text)
}

/// Appends a row for a read handler.
pub fn add_read(
    rows: &mut Vec<ReadRow>,
    alloc: Global,
    class: Class,
    name: &[u8],
    call: ReadCall,
) -> Result<(), AllocError>
    requires { AnswersReads (pre call) (post call) class name.now }
    ensures { OnOk result (map (λ r. of_class r.class r.name.items) rows.new.items ≡ map (λ r. of_class r.class r.name.items) rows.old.items ++ of_class class name.now ∷ []) }
{
    let name = Vec::from_slice(alloc, name)?;
    rows.push(ReadRow::new(class, name, call))?;
    Ok(())
}

/// Appends a row for a write handler.
pub fn add_write(
    rows: &mut Vec<WriteRow>,
    alloc: Global,
    class: Class,
    name: &[u8],
    call: WriteCall,
) -> Result<(), AllocError>
    requires { AnswersWrites (pre call) (post call) class name.now }
    ensures { OnOk result (map (λ r. of_class r.class r.name.items) rows.new.items ≡ map (λ r. of_class r.class r.name.items) rows.old.items ++ of_class class name.now ∷ []) }
{
    let name = Vec::from_slice(alloc, name)?;
    rows.push(WriteRow::new(class, name, call))?;
    Ok(())
}
