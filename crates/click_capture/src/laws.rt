//! Theorems about the definitions, in terms of the format.

ghost use Rattle.std.specs.Prelude.{◌≡◌, List};
ghost use Rattle.click_capture.specs.Captures.{Record, capture_bytes, header_bytes, FitsHeader, AllFit, IsHeaderFault};
ghost use Rattle.click_capture.specs.declared.header.Header.{Header};
ghost use Rattle.click_capture.specs.declared.fault.HeaderFault.{HeaderFault};

/// The bytes of a capture determine its header and its records: what was written reads back
/// unchanged.
pub fn captures_read_back()
    ensures { (g h : Header) (rs qs : List Record) → FitsHeader g → FitsHeader h → AllFit rs → AllFit qs
        → capture_bytes g rs ≡ capture_bytes h qs → (g ≡ h) × (rs ≡ qs) }
{}

/// The bytes of a header have no fault.
pub fn headers_have_no_fault()
    ensures { (h : Header) (f : HeaderFault) → FitsHeader h → IsHeaderFault (header_bytes h) f → ⊥ }
{}
