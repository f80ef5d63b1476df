//! Laws of the definitions: each function has an empty body, and its contract is the law.
ghost use Rattle.std.specs.Prelude.{◌≡◌, ℕ, ◌+◌, ◌*◌, ◌%◌, ◌^◌, ◌<◌, List, ◌++◌, length};
ghost use Rattle.std.specs.Int.{Width, byte_len, w16, w32, w64, w128, to_be_bytes, from_be_bytes};
ghost use Rattle.basics.specs.Bytes.{IsBytes};
ghost use Rattle.basics.specs.Numbers.{number_of, bytes_of};

/// The `n` bytes of a number are `n` bytes.
pub fn bytes_of_a_number()
    ensures { (n a : ℕ) → IsBytes n (bytes_of n a) }
{}

/// The number of `n` bytes is below 256 to the power `n`.
pub fn number_of_bytes()
    ensures { (n : ℕ) (xs : List ℕ) → IsBytes n xs → number_of xs < 256 ^ n }
{}

/// The number of the `n` bytes of a number is that number, or its lowest `n` bytes if it has more.
pub fn number_of_its_bytes()
    ensures lowest { (n a : ℕ) → number_of (bytes_of n a) ≡ a % 256 ^ n }
    ensures whole { (n a : ℕ) → a < 256 ^ n → number_of (bytes_of n a) ≡ a }
{}

/// The `n` bytes of the number of `n` bytes are these bytes.
pub fn bytes_of_their_number()
    ensures { (n : ℕ) (xs : List ℕ) → IsBytes n xs → bytes_of n (number_of xs) ≡ xs }
{}

/// Lists of `n` bytes that have one number are the same.
pub fn number_is_one_to_one()
    ensures { (n : ℕ) (xs ys : List ℕ) → IsBytes n xs → IsBytes n ys → number_of xs ≡ number_of ys → xs ≡ ys }
{}

/// Numbers that `n` bytes can hold are the same if their `n` bytes are.
pub fn bytes_are_one_to_one()
    ensures { (n a b : ℕ) → a < 256 ^ n → b < 256 ^ n → bytes_of n a ≡ bytes_of n b → a ≡ b }
{}

/// Lists are joined as their numbers are.
pub fn joined()
    ensures number { (xs ys : List ℕ) → number_of (xs ++ ys) ≡ number_of xs * 256 ^ length ys + number_of ys }
    ensures bytes { (m n a b : ℕ) → b < 256 ^ n
        → bytes_of (m + n) (a * 256 ^ n + b) ≡ bytes_of m a ++ bytes_of n b }
{}

/// `to_be_bytes` of the unsigned types gives the bytes of the number.
pub fn to_be_bytes_gives_the_bytes()
    ensures { (w : Width) (a : ℕ) → to_be_bytes w a ≡ bytes_of (byte_len w) a }
{}

/// `from_be_bytes` of the unsigned types gives the number of the bytes.
pub fn from_be_bytes_gives_the_number()
    ensures u16 { (xs : List ℕ) → length xs ≡ 2 → from_be_bytes w16 xs ≡ number_of xs }
    ensures u32 { (xs : List ℕ) → length xs ≡ 4 → from_be_bytes w32 xs ≡ number_of xs }
    ensures u64 { (xs : List ℕ) → length xs ≡ 8 → from_be_bytes w64 xs ≡ number_of xs }
    ensures u128 { (xs : List ℕ) → length xs ≡ 16 → from_be_bytes w128 xs ≡ number_of xs }
{}
