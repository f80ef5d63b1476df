//! Room for the past of a disk.
ghost use Rattle.std.specs.Prelude.{◌≡◌, ◌+◌, ◌≤◌, ◌<◌, Some, None, length, map, IfOk};
ghost use Rattle.cut_disk.specs.Tape.{AllSized};
ghost use Rattle.std.specs.Option.{option_map};
ghost use Rattle.cut_disk.specs.State.{past_entry};

use crate::{Mark, Memory};
use std::alloc::Global;
use std::marker::Model;

/// An entry of a past: the bytes and the loose marks that a call left, and its mark. A read, a write and a sync have
/// none.
#[derive(Drop)]
pub struct PastEntry {
    pub bytes: Vec<u8>,
    pub loose: Vec<bool>,
    pub mark: Option<Mark>,
}

impl PastEntry {
    ghost use Rattle.cut_disk.specs.Tape.{entry_of};

    fn blank(alloc: Global, size: usize) -> Result<PastEntry, Memory>
        ensures { IfOk result (λ e. (length e.bytes.items ≡ size) × (length e.loose.items ≡ size)) }
    {
        Ok(PastEntry {
            bytes: vec![in alloc; 0; size]?,
            loose: vec![in alloc; false; size]?,
            mark: None,
        })
    }

    fn fill(&mut self, bytes: &[u8], loose: &[bool], mark: Option<Mark>)
        requires bytes { length bytes.now ≡ length self.old.bytes.items }
        requires loose { length loose.now ≡ length self.old.loose.items }
        ensures { entry_of self.new ≡ past_entry (record { bytes = bytes.now; loose = loose.now }) mark }
    {
        self.bytes.copy_from_slice(bytes);
        self.loose.copy_from_slice(loose);
        self.mark = mark;
    }
}

/// Adds an entry for a state of this size, or none if memory is out.
fn push_blank(entries: &mut Vec<PastEntry>, alloc: Global, size: usize) -> Result<(), Memory>
    ensures { IfOk result (λ _. (length entries.new.items ≡ length entries.old.items + 1)
        × (AllSized size entries.old.items → AllSized size entries.new.items)) }
{
    let entry = PastEntry::blank(alloc, size)?;
    entries.push(entry).map_err(|_| Memory)
}

/// The past of a disk of one size, with room for so many entries.
#[derive(Drop)]
pub struct Tape {
    size: usize,
    /// All entries that there is room for.
    entries: Vec<PastEntry>,
    /// How many of them are in use, the oldest first.
    used: usize,
    /// Whether there were more than there is room for.
    over: bool,
}

impl Model for Tape {
    ghost use Rattle.std.specs.Prelude.{◌≤◌, length};
    ghost use Rattle.cut_disk.specs.Tape.{TapeState, AllSized, past_of};

    ghost Value = { TapeState };

    ghost view = { λ t. record
        { size = t.size; room = length t.entries.items; past = past_of t.over t.used t.entries.items } };

    ghost invariant = { λ t. (t.used ≤ length t.entries.items) × AllSized t.size t.entries.items };
}

impl Tape {
    ghost use Rattle.std.specs.Prelude.{[]};
    ghost use Rattle.cut_disk.specs.Tape.{entry_of, with_entry};

    /// A tape without an entry, for so many.
    pub fn new(alloc: Global, size: usize, room: u32) -> Result<Tape, Memory>
        ensures { IfOk result (λ t. t ≡ record { size = size; room = room; past = Some [] }) }
    {
        let mut entries = Vec::with_capacity(alloc, room as usize)?;
        for _ in 0..room {
            push_blank(&mut entries, alloc, size)?;
        }
        Ok(Tape {
            size,
            entries,
            used: 0,
            over: false,
        })
    }

    /// Adds an entry if there is room for it, and has no past any more if there is none.
    pub fn add(&mut self, bytes: &[u8], loose: &[bool], mark: Option<Mark>)
        requires bytes { length bytes.now ≡ self.old.size }
        requires loose { length loose.now ≡ self.old.size }
        ensures { self.new
            ≡ record self.old {
              past = with_entry self.old.room
                  (past_entry (record { bytes = bytes.now; loose = loose.now }) mark) self.old.past;
            } }
    {
        if self.used == self.entries.len() {
            self.over = true;
            return;
        }
        let at = self.used;
        let entry = &mut self.entries[at];
        entry.fill(bytes, loose, mark);
        self.used = at + 1;
    }

    /// The entries, the oldest first, as long as there were never more than there is room for.
    pub fn past(&self) -> Option<&[PastEntry]>
        ensures { option_map (λ entries. map entry_of entries.now) result ≡ self.now.past }
    {
        if self.over {
            return None;
        }
        Some(&self.entries[..self.used])
    }
}
