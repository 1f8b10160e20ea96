//! Theorems about the definitions of this crate.

ghost use Rattle.std.specs.Prelude.{◌≡◌, ◌↔◌, ◌^◌, ◌<◌, ◌≤◌, ◌∷◌, ◌++◌, [], ℕ, List, Some, Ok, Err, decimal, true, false};
ghost use Rattle.std.specs.List.{list_all};
ghost use Rattle.click_base.specs.Blanks.{is_blank, trimmed};
ghost use Rattle.click_base.specs.Classes.{classes, name, class_of, gateway_class_of, is_gateway};
ghost use Rattle.click_base.specs.Numbers.{decimal_number};
ghost use Rattle.click_base.specs.declared.class.Class.{Class};
ghost use Rattle.click_base.specs.declared.class.TheConstants.{CLASSES};
ghost use Rattle.click_base.specs.declared.numbers.NumberFault.TheVariants as fault;

/// The constant `CLASSES` lists the classes in the order of the definition `classes`.
pub fn classes_in_order()
    ensures { CLASSES ≡ classes }
{}

/// Each of the thirty classes is found by its name, and by no other text. The same holds for those of
/// the gateway package, among themselves.
pub fn found_by_name()
    ensures thirty { (c : Class) (text : List ℕ) → (class_of text ≡ Some c) ↔ ((is_gateway c ≡ false) × (name c ≡ text)) }
    ensures gateway { (c : Class) (text : List ℕ) → (gateway_class_of text ≡ Some c) ↔ ((is_gateway c ≡ true) × (name c ≡ text)) }
{}

/// No two classes have the same name. So the gateway package hides none of the thirty.
pub fn no_name_is_hidden()
    ensures { (c d : Class) → name c ≡ name d → c ≡ d }
{}

/// `trimmed` leaves out only blanks, at the front and at the back of a text. What it keeps neither
/// begins nor ends with a blank.
pub fn only_blanks_at_the_ends_are_left_out()
    ensures left_out { (text : List ℕ) → (front : List ℕ) × (back : List ℕ) × (list_all is_blank front ≡ true) × (list_all is_blank back ≡ true)
        × (text ≡ front ++ (trimmed text ++ back)) }
    ensures first { (text rest : List ℕ) (b : ℕ) → trimmed text ≡ b ∷ rest → is_blank b ≡ false }
    ensures last { (text rest : List ℕ) (b : ℕ) → trimmed text ≡ rest ++ (b ∷ []) → is_blank b ≡ false }
{}

/// A text that neither begins nor ends with a blank is the trimmed form of the same text with any
/// blanks in front of it and behind it.
pub fn blanks_around_a_text_are_left_out()
    ensures { (front text back : List ℕ) → list_all is_blank front ≡ true → list_all is_blank back ≡ true
        → ((b : ℕ) (rest : List ℕ) → text ≡ b ∷ rest → is_blank b ≡ false) → ((b : ℕ) (rest : List ℕ) → text ≡ rest ++ (b ∷ []) → is_blank b ≡ false)
        → trimmed (front ++ (text ++ back)) ≡ text }
{}

/// The decimal digits of a number read as that number if it is in range.
///
/// Otherwise they are out of range.
pub fn digits_of_a_number_read_as_it()
    ensures inside { (low high n : ℕ) → n < 2 ^ 64 → low ≤ n → n ≤ high → decimal_number low high (decimal n) ≡ Ok n }
    ensures below { (low high n : ℕ) → n < 2 ^ 64 → n < low → decimal_number low high (decimal n) ≡ Err fault.OutOfRange }
    ensures above { (low high n : ℕ) → n < 2 ^ 64 → high < n → decimal_number low high (decimal n) ≡ Err fault.OutOfRange }
{}
