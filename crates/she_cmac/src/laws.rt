//! Laws of the definitions: each function has an empty body, and its contract is the law.
ghost use Rattle.std.specs.Prelude.{ℕ, List};
ghost use Rattle.basics.specs.Blocks.{IsBlock};
ghost use Rattle.she_cmac.specs.Cmac.{cmac};
ghost use Rattle.she_cmac.specs.Examples.{ExampleOf16Bytes, ExampleOf40Bytes};

/// The example of one complete block (SP 800-38B, appendix D.1).
pub fn example_of_16_bytes()
    ensures { ExampleOf16Bytes }
{}

/// The example whose last block is padded (SP 800-38B, appendix D.1).
pub fn example_of_40_bytes()
    ensures { ExampleOf40Bytes }
{}

/// A CMAC under a key of 16 bytes is 16 bytes.
pub fn cmac_is_a_block()
    ensures { (key message : List ℕ) → IsBlock key → IsBlock (cmac key message) }
{}
