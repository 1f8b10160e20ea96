//! Theorems about the texts that handlers read and write.

ghost use Rattle.std.specs.Prelude.{◌≡◌, ◌<◌, ℕ, List, All, length, Ok};
ghost use Rattle.click_classes.specs.Values.{address, ethernet};
ghost use Rattle.click_handlers.specs.Reads.{dotted, ether_text};

/// An address of four bytes, written as handlers write it, reads back as these bytes.
pub fn a_dotted_address_reads_as_it()
    ensures { (a : List ℕ) → length a ≡ 4 → All (λ b. b < 256) a → address (dotted a) ≡ Ok a }
{}

/// An Ethernet address of six bytes, written as handlers write it, reads back as these bytes.
pub fn an_ethernet_address_reads_as_it()
    ensures { (e : List ℕ) → length e ≡ 6 → All (λ b. b < 256) e → ethernet (ether_text e) ≡ Ok e }
{}
