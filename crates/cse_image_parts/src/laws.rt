//! Laws of the readers and the spellings.

ghost use Rattle.std.specs.Prelude.{◌≡◌, ◌<◌, ◌^◌, ◌++◌, ℕ, ℤ, Bool, IsTrue, List, [], Ok, FitsSigned, length, take, slice_index};
ghost use Rattle.std.specs.Int.{w64};
ghost use Rattle.byteorder.specs.Endian.{little_bytes};
ghost use Rattle.cse_image_parts.specs.Reader.{IsBytes, number, signed, AllAfter};
ghost use Rattle.cse_image_parts.specs.Spelling.{i64 as i64_spelling};

/// A number of so many bytes that was read, and is written again, has the same bytes.
pub fn number_written_again()
    ensures { (width n : ℕ) (bytes rest : List ℕ) → IsBytes bytes → number width bytes ≡ Ok (n, rest) → bytes ≡ little_bytes width n ++ rest }
{}

/// A number that fits so many bytes, and is written, is read again.
pub fn number_read_again()
    ensures { (width n : ℕ) (rest : List ℕ) → n < 256 ^ width → number width (little_bytes width n ++ rest) ≡ Ok (n, rest) }
{}

/// A number of 64 bits that was read, and is written again, has the same bytes.
pub fn signed_written_again()
    ensures { (z : ℤ) (bytes rest : List ℕ) → IsBytes bytes → signed bytes ≡ Ok (z, rest) → bytes ≡ i64_spelling z ++ rest }
{}

/// A number of 64 bits that is written is read again.
pub fn signed_read_again()
    ensures { (z : ℤ) (rest : List ℕ) → FitsSigned w64 z → signed (i64_spelling z ++ rest) ≡ Ok (z, rest) }
{}

/// What holds of each number after those before it holds at each place.
pub fn number_after_others()
    ensures { (test : List ℕ → ℕ → Bool) (xs : List ℕ) (i : ℕ) → AllAfter (λ before x. IsTrue (test before x)) [] xs → i < length xs
        → IsTrue (test (take i xs) (slice_index xs i)) }
{}
