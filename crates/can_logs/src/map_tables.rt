//! The lines of a map in a table over CAN identifiers.
ghost use Rattle.std.specs.Prelude.{◌≡◌, ◌<◌, ◌≤◌, length, get_or, replicate, map as each, IfOk};
ghost use Rattle.can_logs.specs.declared.map_lines.MapLine.{MapLine};
ghost use Rattle.can_logs.specs.MapLines.{place_of_frame};
ghost use Rattle.can_logs.specs.MapTables.{list_of_can, AreFirsts, AreNexts};

use crate::map_lines::{MapLine, does_hear};
use she_aes::{Schedule, expand};
use std::alloc::{AllocError, Global};
use std::marker::Model;

/// The lines of a map, at most 256, in lists by their CAN identifiers: a frame is compared with the lines of its list
/// alone. The keys are expanded. A contract sees the lines of the map in their order.
#[derive(Drop)]
pub struct MapTable {
    lines: Vec<MapLine>,
    schedules: Vec<Schedule>,
    links: Links,
}

/// Of each list the place of its first line, and of each line the place of the next one in its list. The number of
/// lines stands for none.
#[derive(Drop)]
struct Links {
    firsts: [u16; 256],
    nexts: [u16; 256],
}

impl Model for MapTable {
    ghost use Rattle.std.specs.Prelude.{◌≡◌, ◌≤◌, List, length, map as each};
    ghost use Rattle.can_logs.specs.declared.map_lines.MapLine.{MapLine};
    ghost use Rattle.can_logs.specs.MapTables.{AreFirsts, AreNexts};

    ghost Value = { List MapLine };

    ghost view = { λ t. t.lines.items };

    ghost invariant = { λ t. (length t.lines.items ≤ 256) × AreFirsts t.lines.items 0 t.links.firsts
        × AreNexts t.lines.items 0 t.links.nexts × (t.schedules.items ≡ each (λ l. l.key) t.lines.items) };
}

impl MapTable {
    /// These lines.
    pub fn of(alloc: Global, lines: Vec<MapLine>) -> Result<MapTable, AllocError>
        requires { length lines.items ≤ 256 }
        ensures { IfOk result (λ table. table ≡ lines.items) }
    {
        let schedules = schedules_of(alloc, lines.as_slice())?;
        let links = Links::of(lines.as_slice());
        Ok(MapTable {
            lines,
            schedules,
            links,
        })
    }

    /// The lines.
    pub fn lines(&self) -> &[MapLine]
        ensures value { result.now ≡ self.now }
        ensures few { length result.now ≤ 256 }
    {
        self.lines.as_slice()
    }

    /// The round keys of the line at a place.
    pub fn schedule(&self, place: usize) -> &Schedule
        requires { place < length self.now }
        ensures { (d : MapLine) → result.now ≡ (get_or self.now place d).key }
    {
        &self.schedules[place]
    }

    /// The place of the first line that hears a frame, counted from 0; `None` if none does.
    pub fn place_for(&self, can: &[u8], channel: &[u8]) -> Option<usize>
        ensures { result ≡ place_of_frame self.now can.now channel.now }
    {
        let lines = self.lines.as_slice();
        let mut at = usize::from(self.links.firsts[list_of(can)]);
        while at < lines.len() {
            if does_hear(&lines[at], can, channel) {
                return Some(at);
            }
            at = usize::from(self.links.nexts[at]);
        }
        None
    }
}

impl Links {
    /// The links of these lines.
    fn of(lines: &[MapLine]) -> Links
        requires { length lines.now ≤ 256 }
        ensures firsts { AreFirsts lines.now 0 result.firsts }
        ensures nexts { AreNexts lines.now 0 result.nexts }
    {
        let count = lines.len() as u16;
        let mut firsts = to_none(count);
        let mut nexts = to_none(count);
        let mut place = lines.len();
        while place > 0 {
            place -= 1;
            let list = list_of(lines[place].can.digits());
            nexts[place] = firsts[list];
            firsts[list] = place as u16;
        }
        Links { firsts, nexts }
    }
}

/// Links that lead to no line, of so many lines.
fn to_none(count: u16) -> [u16; 256]
    ensures { result ≡ replicate 256 count }
{
    [count; 256]
}

/// The round keys of each line.
fn schedules_of(alloc: Global, lines: &[MapLine]) -> Result<Vec<Schedule>, AllocError>
    ensures { IfOk result (λ schedules. schedules.items ≡ each (λ line. line.key) lines.now) }
{
    let mut schedules = Vec::new(alloc);
    for line in lines {
        schedules.push(expand(&line.key))?;
    }
    Ok(schedules)
}

/// The list that has the lines of a CAN identifier.
fn list_of(can: &[u8]) -> usize
    ensures value { result ≡ list_of_can can.now }
    ensures within { result < 256 }
{
    let mut sum = 0u16;
    for digit in can {
        sum = (sum * 57 + u16::from(*digit)) % 256;
    }
    usize::from(sum)
}
