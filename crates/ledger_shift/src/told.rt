//! What a command of a shift is answered, as a line.
ghost use Rattle.std.specs.Prelude.{◌≡◌, [], ◌∷◌, ◌++◌, codes, length, OnOk};
ghost use Rattle.std.specs.List.{flat_map};
ghost use Rattle.std.specs.Fmt.{decimal};
ghost use Rattle.text_lines.specs.Spaced.{spaced};
ghost use Rattle.text_lines.specs.Written.{written};
ghost use Rattle.ledger_rows.specs.Kinds.{row_word};
ghost use Rattle.ledger_rows.specs.Steps.{remarked_kind};
ghost use Rattle.ledger_shift.specs.Told.{remark_refusal_words, row_line, row_list_text, shift_answer_text, tells_refusal};

use campaign_commands::push_ledger_line;
use itoa::Buffer;
use key_campaign::{LedgerLine, LedgerRefusal};
use key_slots::Counter28;
use ledger_rows::{RemarkKind, RemarkRefusal, SlotRow};
use memory_update::Request;
use std::alloc::AllocError;
use text_lines::pushing::{begin_line, end_line, push_hex, push_numbered, push_word};

/// What came of a command of a shift.
#[derive(Drop)]
pub enum ShiftTold {
    /// A request was issued.
    Issued {
        /// The update's counter.
        counter: Counter28,
        /// M1, M2 and M3.
        request: Request,
    },
    /// The update with this counter was confirmed.
    Confirmed(Counter28),
    /// The greatest counter of a unit's slot, and whether it is confirmed; or there is none.
    Shown(Option<(Counter28, bool)>),
    /// An issue or a confirmation was refused: nothing was done.
    Refused(LedgerRefusal),
    /// What was said of this counter is recorded.
    Remarked(RemarkKind, Counter28),
    /// A remark was refused: nothing was done.
    Unremarked(RemarkRefusal),
    /// Rows of a unit's slot.
    Listed(Vec<SlotRow>),
}

/// Whether it tells that nothing was done.
pub(crate) fn is_refusal(told: &ShiftTold) -> bool
    ensures { result ≡ tells_refusal told.now }
{
    match told {
        ShiftTold::Refused(_) => true,
        ShiftTold::Unremarked(_) => true,
        ShiftTold::Issued { .. } => false,
        ShiftTold::Confirmed(_) => false,
        ShiftTold::Shown(_) => false,
        ShiftTold::Remarked(..) => false,
        ShiftTold::Listed(_) => false,
    }
}

/// Adds the line of a remark.
fn push_remarked(
    text: &mut Vec<u8>,
    number: u32,
    kind: RemarkKind,
    counter: Counter28,
) -> Result<(), AllocError>
    ensures { OnOk result (text.new.items
        ≡ text.old.items ++ written (decimal number ∷ row_word (remarked_kind kind) ∷ decimal counter ∷ [])) }
{
    begin_line(text, number)?;
    push_numbered(text, kind.row_kind().word().as_bytes(), counter.number())?;
    end_line(text)
}

/// Adds the words of a refusal.
fn push_refusal_words(text: &mut Vec<u8>, why: &RemarkRefusal) -> Result<(), AllocError>
    ensures { OnOk result (text.new.items ≡ text.old.items ++ spaced (remark_refusal_words why.now)) }
{
    match why {
        RemarkRefusal::Behind(last) => push_numbered(text, b"Behind", last.number()),
        RemarkRefusal::Unknown => push_word(text, b"Unknown"),
        RemarkRefusal::AlreadyConfirmed => push_word(text, b"AlreadyConfirmed"),
    }
}

/// Adds the line of a remark that is refused.
fn push_unremarked(text: &mut Vec<u8>, number: u32, why: &RemarkRefusal) -> Result<(), AllocError>
    ensures { OnOk result (text.new.items
        ≡ text.old.items ++ written (decimal number ∷ codes "refused" ∷ remark_refusal_words why.now)) }
{
    begin_line(text, number)?;
    push_word(text, b"refused")?;
    push_refusal_words(text, why)?;
    end_line(text)
}

/// Adds the line of a row.
fn push_row(text: &mut Vec<u8>, number: u32, row: &SlotRow) -> Result<(), AllocError>
    ensures { OnOk result (text.new.items ≡ text.old.items ++ row_line number row.now) }
{
    begin_line(text, number)?;
    push_numbered(text, row.kind.word().as_bytes(), row.counter.number())?;
    push_hex(text, row.check.as_slice())?;
    end_line(text)
}

/// Adds the lines of rows.
fn push_each_row(text: &mut Vec<u8>, number: u32, rows: &[SlotRow]) -> Result<(), AllocError>
    ensures { OnOk result (text.new.items ≡ text.old.items ++ flat_map (row_line number) rows.now) }
{
    for row in rows {
        push_row(text, number, row)?;
    }
    Ok(())
}

/// Adds the line that says how many rows there are.
fn push_count(text: &mut Vec<u8>, number: u32, count: usize) -> Result<(), AllocError>
    ensures { OnOk result (text.new.items
        ≡ text.old.items ++ written (decimal number ∷ codes "end" ∷ decimal count ∷ [])) }
{
    let mut digits = Buffer::new();
    begin_line(text, number)?;
    push_word(text, b"end")?;
    push_word(text, digits.format(count).as_bytes())?;
    end_line(text)
}

/// Adds the lines of rows, and how many they are.
fn push_rows(text: &mut Vec<u8>, number: u32, rows: &[SlotRow]) -> Result<(), AllocError>
    ensures { OnOk result (text.new.items ≡ text.old.items ++ row_list_text number rows.now) }
{
    push_each_row(text, number, rows)?;
    push_count(text, number, rows.len())
}

/// Adds the text of an answer to the line with this number. Without memory nothing is said of `text`.
pub(crate) fn push_told(text: &mut Vec<u8>, number: u32, told: &ShiftTold) -> Result<(), AllocError>
    ensures { OnOk result (text.new.items ≡ text.old.items ++ shift_answer_text number told.now) }
{
    match told {
        ShiftTold::Issued { counter, request } => {
            let line = LedgerLine::Issued {
                counter: *counter,
                request: *request,
            };
            push_ledger_line(text, number, &line)
        }
        ShiftTold::Confirmed(counter) => {
            push_ledger_line(text, number, &LedgerLine::Confirmed(*counter))
        }
        ShiftTold::Shown(it) => push_ledger_line(text, number, &LedgerLine::Shown(*it)),
        ShiftTold::Refused(why) => push_ledger_line(text, number, &LedgerLine::Refused(*why)),
        ShiftTold::Remarked(kind, counter) => push_remarked(text, number, *kind, *counter),
        ShiftTold::Unremarked(why) => push_unremarked(text, number, why),
        ShiftTold::Listed(rows) => push_rows(text, number, rows.as_slice()),
    }
}
