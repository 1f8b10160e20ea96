//! Theorems about values: a value that is written as the manual says reads back as that value.

ghost use Rattle.std.specs.Prelude.{◌≡◌, ◌↔◌, ◌+◌, ◌^◌, ◌<◌, ◌≤◌, ◌++◌, ◌∷◌, [], ℕ, Bool, List, length, drop, map, bit_and, slice_index, Ok, Err, codes, decimal, true, false};
ghost use Rattle.click_classes.specs.declared.fault.ArgFault.TheVariants as fault;
ghost use Rattle.click_classes.specs.declared.values.pattern.Clause.{Clause};
ghost use Rattle.click_classes.specs.ClauseText.{Halves, AreHalves, AreBytes, halves_text, hex_text, wanted, counted, counted_under, sign, BeginsWith};
ghost use Rattle.click_classes.specs.Matches.{holds};
ghost use Rattle.click_classes.specs.Patterns.{clause};
ghost use Rattle.click_classes.specs.Values.{address, cleared, ethernet, number_in, prefix};

/// The decimal digits of a number read as that number also where `0x` is allowed.
///
/// This holds if the number is in range. Otherwise they are out of range.
pub fn digits_of_a_number_read_as_it_in_either_base()
    ensures inside { (low high n : ℕ) → n < 2 ^ 64 → low ≤ n → n ≤ high → number_in low high (decimal n) ≡ Ok n }
    ensures below { (low high n : ℕ) → n < 2 ^ 64 → n < low → number_in low high (decimal n) ≡ Err fault.OutOfRange }
    ensures above { (low high n : ℕ) → n < 2 ^ 64 → high < n → number_in low high (decimal n) ≡ Err fault.OutOfRange }
{}

/// Four numbers below 256 in decimal digits, joined by points, read as the address of four bytes.
pub fn four_numbers_joined_by_points_are_an_address()
    ensures { (a b c d : ℕ) → a < 256 → b < 256 → c < 256 → d < 256
        → address (decimal a ++ codes "." ++ decimal b ++ codes "." ++ decimal c ++ codes "." ++ decimal d) ≡ Ok (a ∷ b ∷ c ∷ d ∷ []) }
{}

/// The text of a clause reads as its parts.
///
/// These are whether it is negated, the offset, the required bytes, and the bits of them that
/// count. Under a `?` no bit counts.
pub fn a_clause_is_its_parts()
    ensures digits { (negated : Bool) (offset : ℕ) (bs : List Halves) → offset ≤ 1599 → 1 ≤ length bs → length bs ≤ 64 → AreHalves bs
        → clause (sign negated ++ decimal offset ++ codes "/" ++ halves_text bs)
        ≡ Ok (record { negated = negated; offset = offset; value = map wanted bs; mask = map counted bs }) }
    ensures masked { (negated : Bool) (offset : ℕ) (bs : List Halves) (mask : List ℕ) → offset ≤ 1599 → 1 ≤ length bs → length bs ≤ 64 → AreHalves bs
        → AreBytes mask → length mask ≡ length bs → clause (sign negated ++ decimal offset ++ codes "/" ++ halves_text bs ++ codes "%" ++ hex_text mask)
        ≡ Ok (record { negated = negated; offset = offset; value = map wanted bs; mask = counted_under bs mask }) }
{}

/// A clause holds exactly of the packets that have its bytes at its offset.
///
/// Each byte must be the required one in the bits of the mask. A negated clause holds of exactly
/// the other packets.
pub fn a_clause_holds_byte_by_byte()
    ensures wanted { (word bytes : List ℕ) (c : Clause) → clause word ≡ Ok c → c.negated ≡ false → (holds c bytes ≡ true)
        ↔ ((c.offset + length c.value ≤ length bytes) × ((i : ℕ) → i < length c.value
        → bit_and (slice_index bytes (c.offset + i)) (slice_index c.mask i) ≡ bit_and (slice_index c.value i) (slice_index c.mask i))) }
    ensures negated { (word bytes : List ℕ) (c : Clause) → clause word ≡ Ok c → c.negated ≡ true → (holds c bytes ≡ false)
        ↔ ((c.offset + length c.value ≤ length bytes) × ((i : ℕ) → i < length c.value
        → bit_and (slice_index bytes (c.offset + i)) (slice_index c.mask i) ≡ bit_and (slice_index c.value i) (slice_index c.mask i))) }
{}

/// A clause of digits holds exactly of the packets whose bytes are as the digits say.
///
/// The bytes begin at the offset, and `?` stands for any half of a byte. With `!` the clause holds
/// of exactly the other packets.
pub fn a_clause_of_digits_holds_digit_by_digit()
    ensures plain { (offset : ℕ) (bs : List Halves) (bytes : List ℕ) → offset ≤ 1599 → 1 ≤ length bs → length bs ≤ 64 → AreHalves bs → AreBytes bytes
        → (c : Clause) × (clause (decimal offset ++ codes "/" ++ halves_text bs) ≡ Ok c) × ((holds c bytes ≡ true) ↔ BeginsWith bs (drop offset bytes)) }
    ensures negated { (offset : ℕ) (bs : List Halves) (bytes : List ℕ) → offset ≤ 1599 → 1 ≤ length bs → length bs ≤ 64 → AreHalves bs → AreBytes bytes
        → (c : Clause) × (clause (codes "!" ++ decimal offset ++ codes "/" ++ halves_text bs) ≡ Ok c) × ((holds c bytes ≡ false) ↔ BeginsWith bs (drop offset bytes)) }
{}

/// An address, `/` and a length of 0 to 32 read as the prefix of that length.
///
/// An address alone reads as a prefix of 32 bits.
pub fn an_address_and_a_length_are_a_prefix()
    ensures cut { (a b c d : ℕ) → a < 256 → b < 256 → c < 256 → d < 256 → (len : ℕ) → len ≤ 32
        → prefix (decimal a ++ codes "." ++ decimal b ++ codes "." ++ decimal c ++ codes "." ++ decimal d ++ codes "/" ++ decimal len)
        ≡ Ok (record { network = cleared len (a ∷ b ∷ c ∷ d ∷ []); len = len }) }
    ensures whole { (a b c d : ℕ) → a < 256 → b < 256 → c < 256 → d < 256
        → prefix (decimal a ++ codes "." ++ decimal b ++ codes "." ++ decimal c ++ codes "." ++ decimal d) ≡ Ok (record { network = a ∷ b ∷ c ∷ d ∷ []; len = 32 }) }
{}

/// Six bytes in two hexadecimal digits each, joined by colons, read as their Ethernet address.
pub fn six_pairs_joined_by_colons_are_an_ethernet_address()
    ensures { (a b c d e f : ℕ) → a < 256 → b < 256 → c < 256 → d < 256 → e < 256 → f < 256
        → ethernet (hex_text (a ∷ []) ++ codes ":" ++ hex_text (b ∷ []) ++ codes ":" ++ hex_text (c ∷ []) ++ codes ":" ++ hex_text (d ∷ []) ++ codes ":"
        ++ hex_text (e ∷ []) ++ codes ":" ++ hex_text (f ∷ [])) ≡ Ok (a ∷ b ∷ c ∷ d ∷ e ∷ f ∷ []) }
{}
