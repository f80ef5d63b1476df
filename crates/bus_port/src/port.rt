//! What a source and a sink are.
ghost use Rattle.std.specs.Prelude.{ℕ, ◌<◌, length};
ghost use Rattle.bus_port.specs.Source.{SourceState, Reads};
ghost use Rattle.bus_port.specs.Sink.{SinkState, Writes};

/// How many bytes are moved at a time.
pub(crate) const PIECE: usize = 4096;

/// A port failed in this call: its count of faults rose, or stands at its last value.
#[derive(Clone, Copy, Debug, PartialEq, Eq)]
pub struct PortFailed;

/// No memory was left.
#[derive(Clone, Copy, Debug, PartialEq, Eq)]
pub struct Memory;

/// Where bytes come from.
pub trait Source {
    /// The bytes left, if the source tells them, the number of bytes that came from it so far, and its count of faults.
    /// Both counts stand still at 2^64 - 1.
    ghost state: { Self → SourceState };

    /// Moves the next bytes to the beginning of `out`, and returns how many they are.
    ///
    /// For an `out` with room the answer is 0 at the end of the bytes, and only there if the source tells them. After
    /// `PortFailed` a later call may succeed.
    fn read(&mut self, out: &mut [u8]) -> Result<usize, PortFailed>
        ensures { Reads (state self.old) (state self.new) out.old out.new result };
}

/// Where bytes go.
pub trait Sink {
    /// The bytes written, if the sink tells them, and its count of faults, which stands still at 2^64 - 1.
    ghost state: { Self → SinkState };

    /// Appends the first of `bytes`, at least one of them, and returns how many it took.
    fn write(&mut self, bytes: &[u8]) -> Result<usize, PortFailed>
        requires { 0 < length bytes.now }
        ensures { Writes (state self.old) (state self.new) bytes.now result };
}
