//! Lines that were sent, each linked with earlier ones of its Data ID.
ghost use Rattle.std.specs.Prelude.{◌≡◌, ℕ, ◌<◌, ◌≤◌, IsTrue, IfSome, MatchOption, List, length, map, find, get_or, option_map};
ghost use Rattle.secured_pdu.specs.Verdict.{payload_of as payload_in};
ghost use Rattle.bus_world.specs.History.{line_of, has_values};
ghost use Rattle.bus_world.specs.declared.records.Record.{Record};
ghost use Rattle.bus_world.specs.Records.{RisesByNumber, NoneNumbered, IsNumbered, SameID, IsLatest, LinkedAt, Linked, RisesByID, BelowNext, IsAbove, FoundAt, NotFound};

use basics::Pdu;

/// Where earlier lines of a line's Data ID stand, as places in the list of lines, counted from 0.
#[derive(Clone, Copy, Drop)]
pub(crate) struct Links {
    /// The latest of them.
    pub(crate) last: u32,
    /// One of them, mostly further back: along both links any earlier line is meant to be reached in steps whose number
    /// grows with the logarithm of `depth` (measured, and no clause).
    pub(crate) far: u32,
    /// How many there are.
    pub(crate) depth: u32,
}

/// A line that was sent, and where earlier ones of its Data ID stand, if there are any.
#[derive(Drop)]
pub(crate) struct Record {
    /// The number of the event.
    pub(crate) number: u32,
    pub(crate) id: u16,
    pub(crate) freshness: u64,
    pub(crate) pdu: Pdu,
    pub(crate) links: Option<Links>,
}

/// The place of the line of this event, if numbers rise.
pub(crate) fn place_numbered(records: &[Record], number: u32) -> Option<usize>
    requires { RisesByNumber records.now }
    ensures { MatchOption result (NoneNumbered records.now number) (IsNumbered records.now number) }
{
    let place = first_from(records, number);
    match records.get(place) {
        Some(line) => {
            if line.number == number {
                Some(place)
            } else {
                None
            }
        }
        None => None,
    }
}

/// How many lines are of events before this one.
fn first_from(records: &[Record], number: u32) -> usize
    requires { RisesByNumber records.now }
    ensures within { result ≤ length records.now }
    ensures below { (k : ℕ) (d : Record) → k < result → (get_or records.now k d).number < number }
    ensures above { (d : Record) → result < length records.now → number ≤ (get_or records.now result d).number }
{
    records.partition_point(|line| line.number < number)
}

/// The place of the line with this Data ID and freshness, from the latest line of the Data ID, if freshness rises.
pub(crate) fn place_of(
    records: &[Record],
    latest: Option<u32>,
    id: u16,
    freshness: u64,
) -> Option<u32>
    requires linked { Linked records.now }
    requires rises { RisesByID records.now }
    requires latest { IsLatest records.now id (length records.now) latest }
    ensures { MatchOption result (NotFound records.now id freshness) (FoundAt records.now id freshness) }
{
    let mut next = latest;
    while let Some(place) = next {
        let record = &records[place as usize];
        if record.freshness == freshness {
            return Some(place);
        }
        next = if record.freshness < freshness {
            None
        } else {
            earlier(records, place, freshness)
        };
    }
    None
}

/// The place of a line of the Data ID before this one, such that the line with the freshness isn't after it.
fn earlier(records: &[Record], place: u32, freshness: u64) -> Option<u32>
    requires inside { place < length records.now }
    requires linked { Linked records.now }
    requires rises { RisesByID records.now }
    ensures { BelowNext records.now place freshness result }
{
    match &records[place as usize].links {
        None => None,
        Some(links) => {
            if records[links.far as usize].freshness < freshness {
                Some(links.last)
            } else {
                Some(links.far)
            }
        }
    }
}

/// Whether freshness still rises with this one, of a Data ID with this latest line.
pub(crate) fn still_rises(
    rising: bool,
    records: &[Record],
    last: Option<u32>,
    freshness: u64,
) -> bool
    requires { IfSome last (λ place. place < length records.now) }
    ensures { IsTrue result → IsTrue rising × IsAbove records.now freshness last }
{
    rising && is_above(records, last, freshness)
}

/// Whether the freshness is above that of this line, if there is one.
fn is_above(records: &[Record], last: Option<u32>, freshness: u64) -> bool
    requires { IfSome last (λ place. place < length records.now) }
    ensures { IsTrue result → IsAbove records.now freshness last }
{
    match last {
        None => true,
        Some(last) => records[last as usize].freshness < freshness,
    }
}

/// The links of a line that is to come after the latest one of its Data ID, if there is one.
pub(crate) fn links_after(records: &[Record], id: u16, last: Option<u32>) -> Option<Links>
    requires linked { Linked records.now }
    requires last { IsLatest records.now id (length records.now) last }
    ensures { LinkedAt records.now (length records.now) id result }
{
    let last = last?;
    Some(Links {
        last,
        far: far_after(records, last),
        depth: depth(records, last).saturating_add(1),
    })
}

/// The place of the far link of a line after this one. Two links of one width become one, so that the widths are the
/// digits of a skewed binary number.
fn far_after(records: &[Record], last: u32) -> u32
    requires inside { last < length records.now }
    requires linked { Linked records.now }
    ensures within { result ≤ last }
    ensures same_id { SameID records.now result last }
{
    let Some(near) = far(records, last) else {
        return last;
    };
    let Some(next) = far(records, near) else {
        return last;
    };
    let ends = u64::from(depth(records, last)) + u64::from(depth(records, next));
    if ends == 2 * u64::from(depth(records, near)) {
        next
    } else {
        last
    }
}

/// The far link of this line, if it has links.
fn far(records: &[Record], place: u32) -> Option<u32>
    requires inside { place < length records.now }
    requires linked { Linked records.now }
    ensures { IfSome result (λ far. (far < place) × SameID records.now far place) }
{
    match &records[place as usize].links {
        None => None,
        Some(links) => Some(links.far),
    }
}

/// How many lines of its Data ID stand before this one.
fn depth(records: &[Record], place: u32) -> u32
    requires { place < length records.now }
{
    match &records[place as usize].links {
        None => 0,
        Some(links) => links.depth,
    }
}

/// The payload of a PDU: all but its last four bytes.
pub(crate) fn payload_of(pdu: &Pdu) -> &[u8]
    ensures { result.now ≡ payload_in pdu.now }
{
    let bytes = pdu.bytes();
    &bytes[..bytes.len().saturating_sub(4)]
}

/// The number of the first of these lines with these values.
pub(crate) fn source_among(
    records: &[Record],
    id: u16,
    payload: &[u8],
    freshness: u64,
) -> Option<u32>
    ensures { result
        ≡ option_map (λ s. s.number) (find (has_values id payload.now freshness) (map line_of records.now)) }
{
    for record in records {
        if is_of(record, id, payload, freshness) {
            return Some(record.number);
        }
    }
    None
}

/// Whether the line has these values.
fn is_of(line: &Record, id: u16, payload: &[u8], freshness: u64) -> bool
    ensures { result ≡ has_values id payload.now freshness (line_of line.now) }
{
    line.id == id && payload_of(&line.pdu) == payload && line.freshness == freshness
}
