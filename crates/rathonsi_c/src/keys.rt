//! Keys, as a pointer and a length.
ghost use Rattle.std.specs.Prelude.{◌≡◌, IfNone, IfSome};
ghost use Rattle.rathonsi_c.specs.Calls.{IsKey};

use she_aes::{Block, Schedule, expand};

// The key of 16 bytes; of another length there is none.
pub(crate) fn key_of(key: &[u8]) -> Option<Block>
    ensures none { IfNone result (¬ IsKey key.now) }
    ensures some { IfSome result (λ k. IsKey key.now × (k ≡ key.now)) }
{
    let bytes: [u8; 16] = key.try_into().ok()?;
    Some(Block::of(bytes))
}

// The round keys of a key of 16 bytes.
pub(crate) fn schedule_of(key: &[u8]) -> Option<Schedule>
    ensures none { IfNone result (¬ IsKey key.now) }
    ensures some { IfSome result (λ s. IsKey key.now × (s ≡ key.now)) }
{
    Some(expand(&key_of(key)?))
}
