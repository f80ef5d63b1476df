//! The times of a log, in microseconds, and the longest time in which a line of the map accepted nothing.
ghost use Rattle.std.specs.Prelude.{◌≡◌, ◌≤◌, ◌<◌, ◌+◌, ◌++◌, length, drop, vec_len, vec_capacity, None};
ghost use Rattle.watch_commands.specs.Seconds.{seconds_text};
ghost use Rattle.watch_commands.specs.Times.{moment_after, first_time, no_times, until, heard};
ghost use Rattle.watch_commands.specs.Silences.{no_silence, endless_silence, lasts};

use itoa::Buffer;
use line_stream::add_bytes;

/// Adds a time in seconds, with a point and six digits, in room for 81 bytes. It takes no memory.
pub fn add_seconds(text: &mut Vec<u8>, micros: u64)
    requires { vec_len text.old + 81 ≤ vec_capacity text.old }
    ensures seconds { text.new.items ≡ text.old.items ++ seconds_text micros }
    ensures few { vec_len text.new ≤ vec_len text.old + 81 }
    ensures capacity { vec_capacity text.old ≤ vec_capacity text.new }
{
    let mut whole = Buffer::new();
    let mut fraction = Buffer::new();
    add_bytes(text, whole.format(micros / 1_000_000).as_bytes());
    add_bytes(text, b".");
    add_bytes(
        text,
        behind_first(fraction.format(1_000_000 + micros % 1_000_000).as_bytes()),
    );
}

/// All bytes but the first.
fn behind_first(bytes: &[u8]) -> &[u8]
    requires { 0 < length bytes.now }
    ensures { result.now ≡ drop 1 bytes.now }
{
    &bytes[1..]
}

/// The moments of a log: its first time, and the greatest so far.
#[derive(Clone, Copy, Debug)]
pub struct LogClock {
    /// The first time; `None` before it.
    pub begin: Option<u64>,
    /// The greatest time so far; `None` before the first.
    pub moment: Option<u64>,
}

impl LogClock {
    /// Before the log.
    pub fn none() -> LogClock
        ensures { result ≡ record { begin = None; moment = None } }
    {
        LogClock {
            begin: None,
            moment: None,
        }
    }

    /// One more line has this time, or none.
    pub fn see(&mut self, time: Option<u64>)
        ensures begin { self.new.begin ≡ first_time self.old.begin time }
        ensures moment { self.new.moment ≡ moment_after self.old.moment time }
    {
        let Some(time) = time else {
            return;
        };
        if self.begin.is_none() {
            self.begin = Some(time);
        }
        self.moment = match self.moment {
            Some(now) => Some(now.max(time)),
            None => Some(time),
        };
    }
}

/// A time in which a line of the map accepted nothing, in microseconds.
#[derive(Clone, Copy, Debug)]
pub struct Silence {
    /// The moment at which it begins.
    pub from: u64,
    /// The moment at which it ends.
    pub to: u64,
}

impl Silence {
    /// None.
    pub fn none() -> Silence
        ensures { result ≡ no_silence }
    {
        Silence { from: 0, to: 0 }
    }

    /// That of a log without times: nobody knows when a line accepted anything.
    pub fn endless() -> Silence
        ensures { result ≡ endless_silence }
    {
        Silence {
            from: 0,
            to: u64::MAX,
        }
    }

    /// How long it lasts.
    pub fn lasts(self) -> u64
        ensures { result ≡ lasts self }
    {
        self.to.saturating_sub(self.from)
    }
}

/// When a line of the map was heard: the moment of the last frame that it accepted, and its longest silence before.
#[derive(Clone, Copy, Debug)]
pub struct HeardTimes {
    /// The moment of the last frame; `None` before the first.
    pub last: Option<u64>,
    /// The longest silence up to it.
    pub longest: Silence,
}

impl HeardTimes {
    /// Before the log.
    pub fn none() -> HeardTimes
        ensures { result ≡ no_times }
    {
        HeardTimes {
            last: None,
            longest: Silence::none(),
        }
    }

    /// The longest silence, if the line is silent up to this moment of a log that begins so.
    pub fn until(self, begin: u64, moment: u64) -> Silence
        ensures { result ≡ until begin moment self }
    {
        let later = Silence {
            from: self.last.unwrap_or(begin),
            to: moment,
        };
        if self.longest.lasts() < later.lasts() {
            later
        } else {
            self.longest
        }
    }

    /// The line accepts a frame at this moment.
    pub fn heard(self, begin: u64, moment: u64) -> HeardTimes
        ensures { result ≡ heard begin moment self }
    {
        HeardTimes {
            last: Some(moment),
            longest: self.until(begin, moment),
        }
    }
}
