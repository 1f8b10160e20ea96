//! What was made of the running configuration, kept for later requests.

ghost use Rattle.std.specs.Prelude.{◌≡◌, IfErr, IfOk, IfSome, IsTrue};
ghost use Rattle.click_router.specs.Opened.{IsFirstFault, IsMemoryOr};
ghost use Rattle.click_draw.specs.Drawn.{IsPicture};
ghost use Rattle.click_page.specs.Form.{IsFlatText};

use crate::flat_json::flat_text;
use bytes::Bytes;
use click_draw::picture_of;
use click_router::ConfigFault;
use std::alloc::{AllocError, Global};
use std::marker::Model;

/// The text of a configuration, and what was made of it so far: its flat form and its picture.
///
/// Contracts see the text.
#[derive(Drop)]
pub(crate) struct Kept {
    text: Vec<u8>,
    flat: Option<Bytes>,
    picture: Option<Bytes>,
}

impl Model for Kept {
    ghost use Rattle.std.specs.Prelude.{ℕ, List, IfSome};

    ghost Value = { List ℕ };

    ghost use Rattle.click_draw.specs.Drawn.{IsPicture};
    ghost use Rattle.click_page.specs.Form.{IsFlatText};

    ghost view = { λ k. k.text.items };

    ghost invariant = { λ k. IfSome k.flat (λ made. IsFlatText k.text.items made) × IfSome k.picture (λ made. IsPicture k.text.items made) };
}

impl Kept {
    /// Returns a value that keeps nothing yet.
    pub(crate) fn nothing(alloc: Global) -> Kept {
        Kept::of(Vec::new(alloc))
    }

    /// Returns a value that keeps this text, and nothing that was made of it.
    fn of(text: Vec<u8>) -> Kept
        ensures { result ≡ text.items }
    {
        Kept {
            text,
            flat: None,
            picture: None,
        }
    }

    /// Returns the text of the JSON of the configuration's flat form, and keeps it. If it is kept
    /// already, returns that without making it again. Fails with the configuration's first fault,
    /// or with out of memory.
    pub(crate) fn flat(&mut self, alloc: Global, text: &[u8]) -> Result<Bytes, ConfigFault>
        ensures text { IfOk result (λ made. IsFlatText text.now made) }
        ensures fault { IfErr result (λ fault. IsMemoryOr fault (IsFirstFault text.now fault)) }
    {
        if let Some(made) = self.flat_of(text) {
            return Ok(made.clone()?);
        }
        let made = shared(flat_text(alloc, text)?)?;
        if let Ok(copy) = made.clone() {
            self.keep_flat(alloc, text, copy);
        }
        Ok(made)
    }

    /// Returns the picture of the configuration, and keeps it. If it is kept already, returns that
    /// without making it again. Fails with the configuration's first fault, or with out of memory.
    pub(crate) fn picture(&mut self, alloc: Global, text: &[u8]) -> Result<Bytes, ConfigFault>
        ensures text { IfOk result (λ made. IsPicture text.now made) }
        ensures fault { IfErr result (λ fault. IsMemoryOr fault (IsFirstFault text.now fault)) }
    {
        if let Some(made) = self.picture_of(text) {
            return Ok(made.clone()?);
        }
        let made = shared(picture_of(alloc, text)?)?;
        if let Ok(copy) = made.clone() {
            self.keep_picture(alloc, text, copy);
        }
        Ok(made)
    }

    /// Returns whether this text is kept.
    fn is_of(&self, text: &[u8]) -> bool
        ensures { IsTrue result → self.now ≡ text.now }
    {
        self.text.as_slice() == text
    }

    /// Returns the flat form of the text, if it is kept.
    fn flat_of(&self, text: &[u8]) -> Option<&Bytes>
        ensures { IfSome result (λ made. IsFlatText text.now made.now) }
    {
        if self.is_of(text) {
            self.flat.as_ref()
        } else {
            None
        }
    }

    /// Returns the picture of the text, if it is kept.
    fn picture_of(&self, text: &[u8]) -> Option<&Bytes>
        ensures { IfSome result (λ made. IsPicture text.now made.now) }
    {
        if self.is_of(text) {
            self.picture.as_ref()
        } else {
            None
        }
    }

    /// Keeps the flat form of a text. If there is no memory for the text, keeps what was kept.
    fn keep_flat(&mut self, alloc: Global, text: &[u8], made: Bytes)
        requires { IsFlatText text.now made }
    {
        if self.keep_text(alloc, text) {
            self.flat = Some(made);
        }
    }

    /// Keeps the picture of a text. If there is no memory for the text, keeps what was kept.
    fn keep_picture(&mut self, alloc: Global, text: &[u8], made: Bytes)
        requires { IsPicture text.now made }
    {
        if self.keep_text(alloc, text) {
            self.picture = Some(made);
        }
    }

    /// Keeps this text, and what was made of it so far. Returns whether there was memory for it. If
    /// not, keeps what was kept.
    fn keep_text(&mut self, alloc: Global, text: &[u8]) -> bool
        ensures { IsTrue result → self.new ≡ text.now }
    {
        if self.is_of(text) {
            return true;
        }
        match Vec::from_slice(alloc, text) {
            Ok(text) => {
                *self = Kept::of(text);
                true
            }
            Err(_) => false,
        }
    }
}

/// Makes bytes shared, so that copies of them share their memory.
fn shared(made: Vec<u8>) -> Result<Bytes, AllocError>
    ensures { IfOk result (λ bytes. bytes ≡ made.items) }
{
    Bytes::from_vec(made).map_err(AllocError::from)
}
