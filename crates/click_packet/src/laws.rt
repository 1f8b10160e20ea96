//! Theorems about the definitions, in terms of RFC 791 and RFC 1071.
ghost use Rattle.std.specs.Prelude.{◌≡◌, ℕ, ◌≤◌, ◌≢◌, ◌⊎◌, ◌↔◌, List, length, fold, slice_index, IsTrue};
ghost use Rattle.click_packet.specs.Checksum.{words, sum_of_words, ones_sum, ones_add, IsOnesSum};
ghost use Rattle.click_packet.specs.Header.{ttl, checksum, checksum_field, with_ttl, header_good, IsGoodHeader};

/// The ones' complement sum is the result of adding the words one after another.
///
/// Each carry out of the 16 bits is added at the low end.
pub fn words_are_added(bytes: &[u8])
    ensures { ones_sum (sum_of_words bytes.now) ≡ fold ones_add 0 (words bytes.now) }
{}

/// The ones' complement sum is the only word that is congruent to the plain sum modulo 65,535 and
/// is 0 exactly if that is 0.
pub fn sum_is_one_word()
    ensures word { (total : ℕ) → IsOnesSum total (ones_sum total) }
    ensures only { (total sum : ℕ) → IsOnesSum total sum → sum ≡ ones_sum total }
{}

/// A header sums to ffff exactly if its checksum field is right.
///
/// The field is right if it is the complement of the sum over the header with that field zero. If
/// that complement is 0, the field may also be ffff, the other zero of ones' complement numbers.
pub fn good_by_checksum(header: &[u8])
    ensures { 20 ≤ length header.now → (ones_sum (sum_of_words header.now) ≡ 65535)
        ↔ ((checksum_field header.now ≡ checksum header.now)
        ⊎ ((checksum header.now ≡ 0) × (checksum_field header.now ≡ 65535))) }
{}

/// The test for a valid header agrees with its definition.
pub fn test_is_rule()
    ensures { (bytes : List ℕ) (refused : List (List ℕ)) → IsTrue (header_good bytes refused) ↔ IsGoodHeader bytes refused }
{}

/// A valid header stays valid with another time to live.
///
/// It then has that time to live. In any bytes, `with_ttl` changes only bytes 8, 10 and 11, and
/// keeps the length.
pub fn stays_good()
    ensures good { (bytes : List ℕ) (refused : List (List ℕ)) (new : ℕ) → IsGoodHeader bytes refused → IsGoodHeader (with_ttl bytes new) refused }
    ensures ttl { (bytes : List ℕ) (refused : List (List ℕ)) (new : ℕ) → IsGoodHeader bytes refused → ttl (with_ttl bytes new) ≡ Some new }
    ensures rest { (bytes : List ℕ) (new k : ℕ) → k ≢ 8 → k ≢ 10 → k ≢ 11 → slice_index (with_ttl bytes new) k ≡ slice_index bytes k }
    ensures len { (bytes : List ℕ) (new : ℕ) → length (with_ttl bytes new) ≡ length bytes }
{}
