//! How many events a bus had, and the lines that were sent on it.
ghost use Rattle.std.specs.Prelude.{◌≡◌, IfOk, None, replicate};

use crate::records::{
    Record, links_after, payload_of, place_numbered, place_of, source_among, still_rises,
};
use basics::Pdu;
use bus_machine::Line;
use std::alloc::{AllocError, Global};
use std::marker::Model;

/// What was sent under a Data ID, as a node gets it.
#[derive(Drop)]
pub struct Frame {
    pub id: u16,
    pub pdu: Pdu,
}

/// The number of events so far, and the lines that were sent, in their order. There is room for a line an event.
///
/// The line with a number is found by halving. The line with a Data ID and a freshness is found along the links of the
/// Data ID's lines. That asks that the freshness of each Data ID rose, as in every run of the machine. Else each line
/// is looked at.
#[derive(Drop)]
pub struct History {
    events: u32,
    most: u32,
    records: Vec<Record>,
    /// The place of the latest line of each Data ID.
    latest: Vec<Option<u32>>,
    /// Under each Data ID each line had a greater freshness than the ones before.
    rising: bool,
}

impl Model for History {
    ghost use Rattle.std.specs.Prelude.{map};
    ghost use Rattle.std.specs.Vec.{vec_capacity};
    ghost use Rattle.bus_world.specs.History.{HistoryState, line_of, WellKept};

    ghost Value = { HistoryState };

    ghost view = { λ h. record { events = h.events; most = h.most; lines = map line_of h.records.items } };

    ghost invariant = { λ h. WellKept h.events h.most
        (vec_capacity h.records) h.records.items h.latest.items h.rising };
}

/// How many Data IDs there are.
const IDS: usize = 65_536;

/// No place for any Data ID.
fn no_places(alloc: Global) -> Result<Vec<Option<u32>>, AllocError>
    ensures { IfOk result (λ places. places.items ≡ replicate 65536 None) }
{
    let mut places = Vec::with_capacity(alloc, IDS)?;
    for _id in 0..IDS {
        places.push(None)?;
    }
    Ok(places)
}

impl History {
    ghost use Rattle.std.specs.Prelude.{◌≡◌, ◌<◌, ◌^◌, ◌==◌, nat_le, IfOk, [], Some, find, option_map};
    ghost use Rattle.bus_machine.specs.Bus.{SentLine};
    ghost use Rattle.bus_world.specs.History.{with_line, with_sent, frame_in, has_values};

    /// No event yet, and room for the lines of so many.
    pub fn new(alloc: Global, most: u32) -> Result<History, AllocError>
        ensures { IfOk result (λ h. h ≡ record { events = 0; most = most; lines = [] }) }
    {
        let records = Vec::with_capacity(alloc, most as usize)?;
        let latest = no_places(alloc)?;
        Ok(History {
            events: 0,
            most,
            records,
            latest,
            rising: true,
        })
    }

    /// What the event of this number sent, if it did.
    pub fn frame(&self, number: u32) -> Option<Frame>
        ensures value { result ≡ frame_in number self.now.lines }
        ensures bounded { (s : SentLine) → find (λ s. s.number == number) self.now.lines ≡ Some s
            → s.freshness < 2 ^ 64 }
    {
        let records = self.records.as_slice();
        match place_numbered(records, number) {
            None => None,
            Some(place) => {
                let line = &records[place];
                Some(Frame {
                    id: line.id,
                    pdu: line.pdu,
                })
            }
        }
    }

    /// The number of the earliest event that sent this payload with this freshness under this Data ID.
    pub fn source(&self, id: u16, payload: &[u8], freshness: u64) -> Option<u32>
        ensures { result ≡ option_map (λ s. s.number) (find (has_values id payload.now freshness) self.now.lines) }
    {
        let records = self.records.as_slice();
        if !self.rising {
            return source_among(records, id, payload, freshness);
        }
        match place_of(records, self.latest[id as usize], id, freshness) {
            None => None,
            Some(place) => {
                let line = &records[place as usize];
                if payload_of(&line.pdu) == payload {
                    Some(line.number)
                } else {
                    None
                }
            }
        }
    }

    /// Whether there is no room for a further event.
    pub fn is_full(&self) -> bool
        ensures { result ≡ nat_le self.now.most self.now.events }
    {
        self.events >= self.most
    }

    /// Counts an event, and keeps its line if it was sent.
    pub fn note(&mut self, line: &Line)
        requires { self.old.events < self.old.most }
        ensures { self.new ≡ with_line self.old line.now }
    {
        match line {
            Line::Sent { id, freshness, pdu } => self.put(*id, *freshness, pdu),
            _ => self.events += 1,
        }
    }

    /// Counts an event that sent.
    fn put(&mut self, id: u16, freshness: u64, pdu: &Pdu)
        requires { self.old.events < self.old.most }
        ensures { self.new ≡ with_sent self.old id freshness pdu.now }
    {
        let records = self.records.as_slice();
        let last = self.latest[id as usize];
        let place = records.len() as u32;
        let rising = still_rises(self.rising, records, last, freshness);
        let number = self.events + 1;
        let record = Record {
            number,
            id,
            freshness,
            pdu: *pdu,
            links: links_after(records, id, last),
        };
        match self.records.push(record) {
            Ok(()) => {}
            Err(_) => unreachable!(),
        }
        self.latest[id as usize] = Some(place);
        self.events = number;
        self.rising = rising;
    }
}
