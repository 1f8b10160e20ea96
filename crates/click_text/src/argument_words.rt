//! The words of an argument, and its bytes without comments.

ghost use Rattle.std.specs.Prelude.{◌≡◌, ◌++◌, [], IfOk, IfErr, OnOk};
ghost use Rattle.click_text.specs.Faults.{no_memory};
ghost use Rattle.click_text.specs.Words.{spaced_as, word_before, AreWords, IsWithoutComments};

use crate::items::{ItemKind, first_item};
use crate::syntax::TextFault;
use click_base::sequence::Sequence;
use std::alloc::{AllocError, Global};

/// Returns the bytes of an item, or a space for a comment.
fn spaced<'a>(kind: ItemKind, bytes: &'a [u8]) -> &'a [u8]
    ensures { result.now ≡ (spaced_as kind bytes.now).bytes }
{
    match kind {
        ItemKind::Comment => b" ".as_slice(),
        _ => bytes,
    }
}

/// Appends the word, unless it is empty.
fn end_word(words: &mut Vec<Sequence<u8>>, word: Vec<u8>) -> Result<(), AllocError>
    ensures { OnOk result (words.new.items ≡ words.old.items ++ word_before word.items []) }
{
    if !word.is_empty() {
        words.push(Sequence::of(word))?;
    }
    Ok(())
}

/// Does what `words` does, with `AllocError` as its error.
fn words_of(alloc: Global, argument: &[u8]) -> Result<Vec<Sequence<u8>>, AllocError>
    ensures { IfOk result (λ words. AreWords argument.now words.items) }
{
    let mut words = Vec::new(alloc);
    let mut word = Vec::new(alloc);
    let mut depth = 0;
    let mut at = 0;
    'items: while at < argument.len() {
        let rest = &argument[at..];
        let (kind, len) = first_item(rest);
        if depth == 0 && kind.is_blank() {
            end_word(&mut words, word)?;
            word = Vec::new(alloc);
        } else {
            word.extend_from_slice(spaced(kind, &rest[..len]))?;
            depth = kind.depth_after(depth);
        }
        at += len;
    }
    end_word(&mut words, word)?;
    Ok(words)
}

/// Returns the words of an argument.
///
/// A word is what is between white space outside quotes and parentheses, where each comment counts
/// as one space. It keeps its quotes and parentheses (Click manual, "Configuration strings").
pub fn words(alloc: Global, argument: &[u8]) -> Result<Vec<Sequence<u8>>, TextFault>
    ensures ok { IfOk result (λ words. AreWords argument.now words.items) }
    // The only error is out of memory.
    ensures err { IfErr result (λ f. f ≡ no_memory) }
{
    Ok(words_of(alloc, argument)?)
}

/// Does what `without_comments` does, with `AllocError` as its error.
fn spaced_bytes(alloc: Global, argument: &[u8]) -> Result<Vec<u8>, AllocError>
    ensures { IfOk result (λ bytes. IsWithoutComments argument.now bytes.items) }
{
    let mut bytes = Vec::new(alloc);
    let mut at = 0;
    'items: while at < argument.len() {
        let rest = &argument[at..];
        let (kind, len) = first_item(rest);
        bytes.extend_from_slice(spaced(kind, &rest[..len]))?;
        at += len;
    }
    Ok(bytes)
}

/// Returns the bytes of an argument with a space for each comment (Click manual, "Configuration
/// strings"). Quoted text is not changed.
pub fn without_comments(alloc: Global, argument: &[u8]) -> Result<Sequence<u8>, TextFault>
    ensures ok { IfOk result (λ bytes. IsWithoutComments argument.now bytes) }
    // The only error is out of memory.
    ensures err { IfErr result (λ f. f ≡ no_memory) }
{
    let bytes = spaced_bytes(alloc, argument)?;
    Ok(Sequence::of(bytes))
}
