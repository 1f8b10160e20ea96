//! The arguments of a configuration string.

ghost use Rattle.std.specs.Prelude.{◌≡◌, ◌<◌, ◌≤◌, ◌&&◌, IfOk, List, [], ℕ, map, length, nat_le, slice_get, slice_index_or};
ghost use Rattle.std.specs.Option.{option_copied};
ghost use Rattle.click_text.specs.Spans.{bytes_at};

use crate::fault::ArgFault;
use crate::values::number::number_in;
use click_base::sequence::Sequence;
use click_text::syntax::Span;
use click_text::{without_comments, words};
use std::alloc::Global;
use std::marker::Model;

/// Arguments, as spans of the text that contains them.
#[derive(Drop)]
pub struct Arguments<'a> {
    text: &'a [u8],
    spans: &'a [Span],
}

impl<'a> Model for Arguments<'a> {
    ghost use Rattle.std.specs.Prelude.{List, ℕ, map};
    ghost use Rattle.click_text.specs.Spans.{bytes_at};

    ghost Value = { List (List ℕ) };

    ghost view = { λ a. map (bytes_at a.text.now) a.spans.now };
}

impl<'a> Arguments<'a> {
    ghost use Rattle.std.specs.Prelude.{IfErr};
    ghost use Rattle.std.specs.List.{AllZip};
    ghost use Rattle.click_text.specs.Words.{AreWords, IsWithoutComments};
    ghost use Rattle.click_classes.specs.declared.fault.ArgFault.TheVariants.{NoMemory};
    ghost use Rattle.click_classes.specs.Made.{only_number};

    /// Returns the arguments with these spans of a text.
    pub fn of(text: &'a [u8], spans: &'a [Span]) -> Arguments<'a>
        ensures { result ≡ map (bytes_at text.now) spans.now }
    {
        Arguments { text, spans }
    }

    /// Returns the number of arguments.
    pub fn len(&self) -> usize
        ensures { result ≡ length self.now }
    {
        self.spans.len()
    }

    /// Returns whether there are `least` to `most` arguments.
    pub fn are(&self, least: usize, most: usize) -> bool
        ensures { result ≡ (nat_le least (length self.now) && nat_le (length self.now) most) }
    {
        least <= self.spans.len() && self.spans.len() <= most
    }

    /// Returns the bytes of the argument at this index, which must exist.
    pub fn at(&self, place: usize) -> &'a [u8]
        requires { place < length self.now }
        ensures { result.now ≡ slice_index_or self.now place [] }
    {
        let spans = self.spans;
        spans[place].of(self.text)
    }

    /// Returns the bytes of the argument at this index, if there is one.
    pub fn get(&self, place: usize) -> Option<&'a [u8]>
        ensures { option_copied result ≡ slice_get self.now place }
    {
        if place < self.spans.len() {
            Some(self.at(place))
        } else {
            None
        }
    }

    /// Returns the only argument, a number from 0 to `high`.
    ///
    /// Fails with `ArgumentCount` unless there is exactly one argument.
    #[tactic(auto, unfolding(crate::specs::Made::only_number))]
    pub fn only_number(&self, high: u64) -> Result<u64, ArgFault>
        ensures value { result ≡ only_number high self.now }
        ensures bound { IfOk result (λ n. n ≤ high) }
    {
        if self.are(1, 1) {
            number_in(self.at(0), 0, high)
        } else {
            Err(ArgFault::ArgumentCount)
        }
    }

    /// Returns the words of each argument, or fails with out of memory.
    pub fn words(&self, alloc: Global) -> Result<Sequence<Sequence<Sequence<u8>>>, ArgFault>
        ensures ok { IfOk result (λ all. AllZip AreWords self.now all) }
        ensures err { IfErr result (λ f. f ≡ NoMemory) }
    {
        let mut all = Sequence::new(alloc);
        for place in 0..self.len() {
            let cut = words(alloc, self.at(place))?;
            all.push(Sequence::of(cut))?;
        }
        Ok(all)
    }

    /// Returns the bytes of each argument with a space for each comment, or fails with out of
    /// memory.
    pub fn texts(&self, alloc: Global) -> Result<Sequence<Sequence<u8>>, ArgFault>
        ensures ok { IfOk result (λ all. AllZip IsWithoutComments self.now all) }
        ensures err { IfErr result (λ f. f ≡ NoMemory) }
    {
        let mut all = Sequence::new(alloc);
        for place in 0..self.len() {
            all.push(without_comments(alloc, self.at(place))?)?;
        }
        Ok(all)
    }
}
