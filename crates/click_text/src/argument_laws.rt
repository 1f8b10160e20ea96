//! Theorems about items, arguments, words and unquoting.

ghost use Rattle.std.specs.Prelude.{◌≡◌, ℕ, List, Option, length, false};
ghost use Rattle.click_text.specs.declared.syntax.Span.{Span};
ghost use Rattle.click_text.specs.Items.{Item, AreItems, bytes_of};
ghost use Rattle.click_text.specs.Arguments.{AreArguments, SpansInOrder, IsTextOf};
ghost use Rattle.click_text.specs.StringText.{IsStringText, leaves_open};
ghost use Rattle.click_text.specs.Words.{AreWords, IsWithoutComments};
ghost use Rattle.click_text.specs.Unquote.{StandsFor};

/// Every text has exactly one list of items, and their bytes are the text.
pub fn items_once()
    ensures some { (text : List ℕ) → (items : List Item) × AreItems text items }
    ensures one { (text : List ℕ) (items others : List Item) → AreItems text items → AreItems text others → items ≡ others }
    ensures whole { (text : List ℕ) (items : List Item) → AreItems text items → bytes_of items ≡ text }
{}

/// A text has at most one list of arguments.
pub fn arguments_once()
    ensures { (text : List ℕ) (spans others : List Span) → AreArguments text spans → AreArguments text others → spans ≡ others }
{}

/// An argument has at most one list of words.
pub fn words_once()
    ensures { (text : List ℕ) (words others : List (List ℕ)) → AreWords text words → AreWords text others → words ≡ others }
{}

/// An argument has one text without comments.
pub fn without_comments_once()
    ensures some { (text : List ℕ) → (bytes : List ℕ) × IsWithoutComments text bytes }
    ensures one { (text bytes others : List ℕ) → IsWithoutComments text bytes → IsWithoutComments text others → bytes ≡ others }
{}

/// An argument stands for one result only: certain bytes, or none for bad quoting.
pub fn stands_once()
    ensures { (text : List ℕ) (bytes others : Option (List ℕ)) → StandsFor text bytes → StandsFor text others → bytes ≡ others }
{}

/// The spans of a text's arguments are in order, do not overlap, and lie inside the text.
pub fn arguments_in_order()
    ensures { (text : List ℕ) (spans : List Span) → AreArguments text spans → SpansInOrder 0 spans (length text) }
{}

/// The arguments of a text, joined by commas, are the text up to white space and comments.
pub fn arguments_joined()
    ensures { (text : List ℕ) (spans : List Span) → AreArguments text spans → IsTextOf text spans }
{}

/// Between the parentheses of a configuration string, each quote and `/*` comment is closed.
pub fn nothing_open()
    ensures { (text : List ℕ) (items : List Item) → IsStringText text → AreItems text items → leaves_open items ≡ false }
{}
