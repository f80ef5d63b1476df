//! The worked example.

/// The arguments of the example.
pub const WORDS: [&str; 3] = ["gateway.toml", "gateway_run.txt", "6bc2=6bc1"];

/// Its bus file: one node, which receives 6bc2 and sends 6bc1, both under the key in slot 4.
pub const BUS: &[u8] = b"[[node]]
name = \"gate\"
uid = \"000000000000000000000000000001\"
[[node.route]]
id = \"6bc2\"
direction = \"receive\"
slot = 4
[[node.route]]
id = \"6bc1\"
direction = \"send\"
slot = 4
reserve = 4
start = \"e93d7e1173931729\"
";

/// Its script: the key, a PDU under 6bc2 with freshness 1, and the same PDU again.
pub const SCRIPT: &[u8] =
    b"key gate - 4 4 ffffffffffffffffffffffffffffffff 1 00010 2b7e151628aed2a6abf7158809cf4f3c
inject gate 6bc2 bee22e409f9601898b20
inject gate 6bc2 bee22e409f9601898b20
";
