// What holds of numbers in bytes.
ghost use Rattle.std.specs.Prelude.{◌≡◌, ℕ, List, length};
ghost use Rattle.byteorder.specs.Endian.{big_number};
ghost use Rattle.byte_form.specs.Places.{IsBytes};

/// Bytes of one length with one big-endian number are equal.
pub fn equal_numbers()
    ensures { (xs ys : List ℕ) → IsBytes xs → IsBytes ys → length xs ≡ length ys → big_number (length xs) xs ≡ big_number (length ys) ys → xs ≡ ys }
{}
