//! What is watched for.
ghost use Rattle.std.specs.Prelude.{◌≡◌, ◌≤◌, length, is_some};
ghost use Rattle.std.specs.List.{list_any};
ghost use Rattle.watch_commands.specs.States.{wants_times};
ghost use Rattle.watch_commands.specs.WatchTotals.{silence_limit};
ghost use Rattle.watch_commands.specs.WatchedMaps.{watched_by};

use crate::counts::silence_limit;
use crate::limits::Limits;
use crate::options::WatchOptions;
use can_logs::{MapLine, MapTable, WatchMap};
use std::marker::Model;

/// The lines of a map with their numbers, and how findings are printed; and whether a line has a limit of silence.
#[derive(Drop)]
pub struct WatchTask {
    map: WatchMap,
    options: WatchOptions,
    wants: bool,
}

impl Model for WatchTask {
    ghost use Rattle.std.specs.Prelude.{◌≡◌};
    ghost use Rattle.watch_commands.specs.States.{wants_times};
    ghost use Rattle.watch_commands.specs.WatchedMaps.{WatchedMap, watched_by};

    ghost Value = { WatchedMap };

    ghost view = { λ t. watched_by t.options t.map };

    ghost invariant = { λ t. t.wants ≡ wants_times (watched_by t.options t.map) };
}

impl WatchTask {
    /// This map, watched so.
    pub fn of(map: WatchMap, options: WatchOptions) -> WatchTask
        ensures { result ≡ watched_by options map }
    {
        let wants = has_silence(map.lines(), &options.limits_in());
        WatchTask {
            map,
            options,
            wants,
        }
    }

    /// Whether times of the log are looked at: a line has a limit of silence.
    pub fn wants_times(&self) -> bool
        ensures { result ≡ wants_times self.now }
    {
        self.wants
    }

    /// The lines.
    pub fn lines(&self) -> &[MapLine]
        ensures value { result.now ≡ self.now.lines }
        ensures few { length result.now ≤ 256 }
    {
        self.map.lines()
    }

    /// The lines in a table over their CAN identifiers.
    pub fn table(&self) -> &MapTable
        ensures { result.now ≡ self.now.lines }
    {
        self.map.table()
    }

    /// How findings are printed.
    pub fn options(&self) -> WatchOptions
        ensures { result ≡ self.now.options }
    {
        self.options
    }

    /// The number of each line.
    pub fn numbers(&self) -> &[u64]
        ensures value { result.now ≡ self.now.numbers }
        ensures as_many { length result.now ≡ length self.now.lines }
    {
        self.map.numbers()
    }
}

/// Whether a line has a limit of silence.
fn has_silence(lines: &[MapLine], limits: &Limits) -> bool
    ensures { result ≡ list_any (λ entry. is_some (silence_limit limits.now entry)) lines.now }
{
    lines
        .iter()
        .any(|entry| silence_limit(limits, entry).is_some())
}
