//! Whole streams: all that a source has, and all of a text into a sink.
ghost use Rattle.std.specs.Prelude.{◌≡◌, ◌↔◌, ℕ, ◌+◌, ◌^◌, ◌<◌, ◌≤◌, List, length, OnOk, OnErr, IfOk, IfErr, IsErrOf, Some, vec_len};
ghost use Rattle.bus_port.specs.Fault.{Rose, last_count};
ghost use Rattle.bus_port.specs.Sink.{Appended, WriteFails};
ghost use Rattle.bus_port.specs.Whole.{ReadsAll, ReadsPart, AppendedPart, AddsPiece, PieceWritten};
ghost use Rattle.bus_port.specs.declared.whole_streams.ReadAll.TheVariants.{Failed, Memory as NoMemory};

use crate::port::{PIECE, PortFailed, Sink, Source};
use std::alloc::{AllocError, Global};

/// Why not all of a source was read: the first that happened.
#[derive(Clone, Copy, Debug, PartialEq, Eq)]
pub enum ReadAll {
    /// The source failed: its count of faults rose, or stands at its last value.
    Failed,
    /// One byte more than the limit came.
    TooLong,
    /// No memory was left.
    Memory,
}

impl From<PortFailed> for ReadAll {
    ghost from_gives = { λ _ cause. cause ≡ Failed };

    fn from(_failed: PortFailed) -> ReadAll {
        ReadAll::Failed
    }
}

impl From<AllocError> for ReadAll {
    ghost from_gives = { λ _ cause. cause ≡ NoMemory };

    fn from(_error: AllocError) -> ReadAll {
        ReadAll::Memory
    }
}

/// Appends the next piece of the source to `bytes`, and returns its length, which is 0 at the end. `piece` is room for
/// it.
fn add_piece<S: Source>(
    source: &mut S,
    piece: &mut [u8; PIECE],
    bytes: &mut Vec<u8>,
    limit: usize,
) -> Result<usize, ReadAll>
    requires small { limit < 2 ^ 32 }
    requires room { vec_len bytes.old ≤ limit }
    ensures { AddsPiece (S.state source.old) (S.state source.new) bytes.old.items bytes.new.items limit result }
{
    let room = PIECE.min(limit + 1 - bytes.len());
    let count = source.read(&mut piece[..room])?;
    if bytes.len() + count > limit {
        return Err(ReadAll::TooLong);
    }
    bytes.extend_from_slice(&piece[..count])?;
    Ok(count)
}

/// All bytes of the source up to its end, at most `limit`.
///
/// It asks for one byte more than `limit` at most. What came before a refusal is gone from the source.
pub fn read_all<S: Source>(alloc: Global, source: &mut S, limit: usize) -> Result<Vec<u8>, ReadAll>
    requires { limit < 2 ^ 32 }

    ensures ok { IfOk result (λ bytes. ReadsAll (S.state source.old) (S.state source.new) limit bytes.items) }
    ensures refused { IfErr result (ReadsPart (S.state source.old) (S.state source.new) limit) }

    // Exactly if one byte more than the limit came.
    ensures too_long { (S.state source.old).taken + limit < last_count
        → (IsErrOf result ReadAll.TooLong ↔ ((S.state source.old).taken + limit < (S.state source.new).taken)) }
    ensures too_long_told { (left : List ℕ) → (S.state source.old).told ≡ Some left
        → IsErrOf result ReadAll.TooLong → limit < length left }
{
    let mut bytes = Vec::new(alloc);
    let mut piece = [0u8; PIECE];
    while add_piece(source, &mut piece, &mut bytes, limit)? > 0 {}
    Ok(bytes)
}

/// Appends the next piece of `bytes` after the first `done`, which are written, and returns how many then are.
fn write_piece<K: Sink>(sink: &mut K, bytes: &[u8], done: usize) -> Result<usize, PortFailed>
    requires { done < length bytes.now }
    ensures piece { IfOk result (PieceWritten (K.state sink.old) (K.state sink.new) bytes.now done) }
    ensures failed { OnErr result (WriteFails (K.state sink.old) (K.state sink.new)) }
{
    let count = sink.write(&bytes[done..])?;
    Ok(done + count)
}

/// Appends all of `bytes` to the sink. If it fails, what came before the failing call stays.
pub fn write_all<K: Sink>(sink: &mut K, bytes: &[u8]) -> Result<(), PortFailed>
    ensures ok { OnOk result (Appended (K.state sink.old) (K.state sink.new) bytes.now) }
    ensures no_fault { OnOk result ((K.state sink.new).faults ≡ (K.state sink.old).faults) }
    ensures failed { OnErr result (Rose (K.state sink.old).faults (K.state sink.new).faults) }
    ensures part { OnErr result (AppendedPart (K.state sink.old) (K.state sink.new) bytes.now) }
{
    let mut done = 0;
    while done < bytes.len() {
        done = write_piece(sink, bytes, done)?;
    }
    Ok(())
}
