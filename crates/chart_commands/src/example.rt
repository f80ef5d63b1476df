//! The worked example.

/// The arguments of the example.
pub const WORDS: [&str; 2] = ["-", "-"];

/// Its bus file: three nodes. The pedal sends its position to the brake and the cluster; the brake sends its state to
/// the cluster.
pub const BUS: &[u8] = b"store = \"twin\"
version = 1
[[node]]
name = \"pedal\"
uid = \"000000000000000000000000000001\"
[[node.route]]
id = \"6bc1\"
direction = \"send\"
slot = 4
reserve = 4
start = \"e93d7e1173931729\"
[[node]]
name = \"brake\"
uid = \"000000000000000000000000000002\"
[[node.route]]
id = \"6bc1\"
direction = \"receive\"
slot = 4
start = \"e93d7e1173931729\"
[[node.route]]
id = \"0202\"
direction = \"send\"
slot = 5
reserve = 16
[[node]]
name = \"cluster\"
uid = \"000000000000000000000000000003\"
[[node.route]]
id = \"6bc1\"
direction = \"receive\"
slot = 4
window = 16
start = \"e93d7e1173931729\"
[[node.route]]
id = \"0202\"
direction = \"receive\"
slot = 5
";

/// Its script, a lost update: the brake's disk stops within the write of a new key, and the power is cut.
pub const SCRIPT: &[u8] =
    b"key pedal - 4 4 ffffffffffffffffffffffffffffffff 1 00010 2b7e151628aed2a6abf7158809cf4f3c
key brake - 4 4 ffffffffffffffffffffffffffffffff 1 00010 2b7e151628aed2a6abf7158809cf4f3c
stop brake 3
key brake - 4 4 2b7e151628aed2a6abf7158809cf4f3c 2 00010 000102030405060708090a0b0c0d0e0f
cut brake old
send pedal 6bc1 bee22e409f96
deliver brake 6
key brake - 4 4 2b7e151628aed2a6abf7158809cf4f3c 2 00010 000102030405060708090a0b0c0d0e0f
key pedal - 4 4 2b7e151628aed2a6abf7158809cf4f3c 2 00010 000102030405060708090a0b0c0d0e0f
send pedal 6bc1 bee22e409f96
deliver brake 10
";
