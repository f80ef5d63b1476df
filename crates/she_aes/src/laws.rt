//! Laws of the definitions: each function has an empty body, and its contract is the law.
ghost use Rattle.std.specs.Prelude.{◌≡◌, ℕ, ◌<◌, List, All};
ghost use Rattle.she_aes.specs.Field.{mul, inv};
ghost use Rattle.she_aes.specs.Cipher.{IsBlock, enc, dec};
ghost use Rattle.she_aes.specs.Modes.{ecb, ecb_inverse, cbc, cbc_inverse};
ghost use Rattle.she_aes.specs.RoundTables.{AreRoundTables};
ghost use Rattle.she_aes.specs.Examples.{ExampleOfAppendixB, ExampleOfAppendixC};

/// The worked example of FIPS 197, appendix B.
pub fn example_of_appendix_b()
    ensures { ExampleOfAppendixB }
{}

/// The worked example of FIPS 197, appendix C.1.
pub fn example_of_appendix_c()
    ensures { ExampleOfAppendixC }
{}

/// A byte other than 0 times its inverse is 1, in the field of FIPS 197, section 4.2.
pub fn product_with_the_inverse()
    ensures { (a : ℕ) → 0 < a → a < 256 → mul a (inv a) ≡ 1 }
{}

/// No other byte has that product with it.
pub fn inverse_is_the_only_one()
    ensures { (a b : ℕ) → a < 256 → b < 256 → mul a b ≡ 1 → b ≡ inv a }
{}

/// What is encrypted under a key and decrypted under it is the block again.
pub fn decryption_undoes_encryption()
    ensures { (key block : List ℕ) → IsBlock key → IsBlock block → dec key (enc key block) ≡ block }
{}

/// What is decrypted under a key and encrypted under it is the block again.
pub fn encryption_undoes_decryption()
    ensures { (key block : List ℕ) → IsBlock key → IsBlock block → enc key (dec key block) ≡ block }
{}

/// ECB decryption gives every text back that was encrypted, under every key.
pub fn ecb_decryption_undoes_encryption()
    ensures { (key : List ℕ) (text : List (List ℕ)) → IsBlock key → All IsBlock text
        → ecb_inverse key (ecb key text) ≡ text }
{}

/// ECB encryption gives every text back that was decrypted, under every key.
pub fn ecb_encryption_undoes_decryption()
    ensures { (key : List ℕ) (text : List (List ℕ)) → IsBlock key → All IsBlock text
        → ecb key (ecb_inverse key text) ≡ text }
{}

/// CBC decryption gives every text back that was encrypted, under every key and from every IV.
pub fn cbc_decryption_undoes_encryption()
    ensures { (key iv : List ℕ) (text : List (List ℕ)) → IsBlock key → IsBlock iv → All IsBlock text
        → cbc_inverse key iv (cbc key iv text) ≡ text }
{}

/// CBC encryption gives every text back that was decrypted, under every key and from every IV.
pub fn cbc_encryption_undoes_decryption()
    ensures { (key iv : List ℕ) (text : List (List ℕ)) → IsBlock key → All IsBlock text
        → cbc key iv (cbc_inverse key iv text) ≡ text }
{}

/// Each of the 1,024 entries of the round tables is the column that MixColumns gives for one byte of the S-box in the
/// table's row.
pub fn round_tables_are_mixed_columns()
    ensures { AreRoundTables }
{}
