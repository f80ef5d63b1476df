//! The rows of a chart.
ghost use Rattle.std.specs.Prelude.{◌≡◌, ◌+◌, ◌<◌, ◌^◌, ◌++◌, nat_lt, length, OnOk};
ghost use Rattle.std.specs.List.{flat_map};
ghost use Rattle.chart_commands.specs.Places.{sign, edge, wait, arrow, places_for, places_of as places_of_mark, lifeline_x as x_of_lifeline, row_axis as axis_of_row, gutter as gutter_of, arrow_end as end_of_arrow, arrow_head as head_of_arrow};
ghost use Rattle.chart_commands.specs.Marks.{row_mark as mark_of_row, row_marks as marks_of_rows};
ghost use Rattle.chart_commands.specs.declared.marks.Origin.TheVariants.{EventRow};
ghost use Rattle.chart_commands.specs.declared.marks.MarkKind.TheVariants.{Arrow};
ghost use Rattle.chart_commands.specs.ChartTexts.{class_name as name_of_class, sign_strokes as strokes_of_sign, head_strokes as strokes_of_head, place_text, title_of_row, band_text, number_text, front_of_row, label_of_row, marked_row, rows_text};

use crate::labels::push_label;
use crate::marks::{MarkKind, Origin, RowMark, row_mark};
use crate::places::{
    ArrowHead, arrow_end, arrow_head, gutter, label_x, label_y, lifeline_x, row_axis, row_top,
};
use crate::shown::push_shown;
use bus_machine::{Event, Line};
use bus_script::push_told;
use std::alloc::{AllocError, Global};

/// Adds the rows of events and their lines, numbered from 1.
pub(crate) fn push_rows(
    alloc: Global,
    text: &mut Vec<u8>,
    events: &[Event],
    lines: &[Line],
) -> Result<(), AllocError>
    requires few { length events.now < 2 ^ 32 }
    requires as_many { length lines.now ≡ length events.now }
    ensures { OnOk result (text.new.items
        ≡ text.old.items ++ rows_text (marks_of_rows events.now lines.now) events.now lines.now) }
{
    for (place, line) in lines.iter().enumerate() {
        push_row(alloc, text, events, place as u32 + 1, &events[place], line)?;
    }
    Ok(())
}

// Adds the row with this number, from 1, of an event and its line; `events` are all events of the script.
fn push_row(
    alloc: Global,
    text: &mut Vec<u8>,
    events: &[Event],
    row: u32,
    event: &Event,
    line: &Line,
) -> Result<(), AllocError>
    ensures { OnOk result (text.new.items
        ≡ text.old.items ++ marked_row (mark_of_row events.now row event.now line.now) event.now line.now) }
{
    let mark = row_mark(events, row, event, line);
    push_marked_row(alloc, text, &mark, event, line)
}

// Adds the row of a mark.
fn push_marked_row(
    alloc: Global,
    text: &mut Vec<u8>,
    mark: &RowMark,
    event: &Event,
    line: &Line,
) -> Result<(), AllocError>
    ensures { OnOk result (text.new.items ≡ text.old.items ++ marked_row mark.now event.now line.now) }
{
    push_front(alloc, text, mark, line)?;
    push_places(alloc, text, mark)?;
    push_labelled(alloc, text, mark, event, line)?;
    text.extend_from_slice(b"</g>\n")
}

// Adds the beginning of a row: its title, which is its line, its band and its number.
fn push_front(
    alloc: Global,
    text: &mut Vec<u8>,
    mark: &RowMark,
    line: &Line,
) -> Result<(), AllocError>
    ensures { OnOk result (text.new.items ≡ text.old.items ++ front_of_row mark.now line.now) }
{
    let row = mark.row;
    push_title(alloc, text, class_name(mark.kind), row, line)?;
    push_band(alloc, text, row_top(row))?;
    push_number(alloc, text, row_axis(row) + 4, row)?;
    Ok(())
}

// Adds the title of a row of this class.
fn push_title(
    alloc: Global,
    text: &mut Vec<u8>,
    class: &str,
    row: u32,
    line: &Line,
) -> Result<(), AllocError>
    ensures { OnOk result (text.new.items ≡ text.old.items ++ title_of_row class.now row line.now) }
{
    push_shown(
        alloc,
        text,
        format_args!("<g class=\"{class}\"><title>{row}"),
    )?;
    push_told(text, line)?;
    text.extend_from_slice(b"</title>")
}

// Adds the band of a row.
fn push_band(alloc: Global, text: &mut Vec<u8>, top: u64) -> Result<(), AllocError>
    ensures { OnOk result (text.new.items ≡ text.old.items ++ band_text top) }
{
    push_shown(
        alloc,
        text,
        format_args!("<rect y=\"{top}\" width=\"100%\" height=\"28\"/>"),
    )
}

// Adds the number of a row.
fn push_number(alloc: Global, text: &mut Vec<u8>, base: u64, row: u32) -> Result<(), AllocError>
    ensures { OnOk result (text.new.items ≡ text.old.items ++ number_text base row) }
{
    push_shown(
        alloc,
        text,
        format_args!("<text class=\"number\" x=\"44\" y=\"{base}\">{row}</text>"),
    )
}

// Adds the label of a row, at its place.
fn push_labelled(
    alloc: Global,
    text: &mut Vec<u8>,
    mark: &RowMark,
    event: &Event,
    line: &Line,
) -> Result<(), AllocError>
    ensures { OnOk result (text.new.items ≡ text.old.items ++ label_of_row mark.now event.now line.now) }
{
    let x = label_x(mark);
    let y = label_y(mark);
    push_shown(alloc, text, format_args!("<text x=\"{x}\" y=\"{y}\">"))?;
    push_label(text, event, line)?;
    text.extend_from_slice(b"</text>")
}

// Adds what is drawn of a mark.
fn push_places(alloc: Global, text: &mut Vec<u8>, mark: &RowMark) -> Result<(), AllocError>
    ensures { OnOk result (text.new.items ≡ text.old.items ++ flat_map place_text (places_of_mark mark.now)) }
{
    let row = mark.row;
    let axis = row_axis(row);
    match mark.kind {
        MarkKind::Arrow {
            from: Origin::Outside,
            accepted,
        } => {
            push_edge(alloc, text, row_top(row) + 8)?;
            let end = arrow_end(true, accepted, mark.node);
            push_arrow(alloc, text, 52, axis, end, arrow_head(true, accepted))
        }
        MarkKind::Arrow {
            from: Origin::EventRow { number, node },
            accepted,
        } => push_led(alloc, text, mark.node, row, accepted, number, node),
        kind => push_sign(alloc, text, lifeline_x(mark.node), axis, kind),
    }
}

// Adds what is drawn of an arrow to a node, which leads from the row of the event with this number, of the node
// `sender`: the way of what waits, and the arrow.
fn push_led(
    alloc: Global,
    text: &mut Vec<u8>,
    node: u8,
    row: u32,
    accepted: bool,
    number: u32,
    sender: u8,
) -> Result<(), AllocError>
    ensures { OnOk result (text.new.items ≡ text.old.items
        ++ flat_map place_text (places_for node row (Arrow (EventRow number sender) accepted))) }
{
    push_waiting(alloc, text, row, number, sender)?;
    push_led_arrow(alloc, text, node, row, accepted, number, sender)?;
    Ok(())
}

// Adds the way of what waits: from the row of the event with this number, of the node `sender`, to a row.
fn push_waiting(
    alloc: Global,
    text: &mut Vec<u8>,
    row: u32,
    number: u32,
    sender: u8,
) -> Result<(), AllocError>
    ensures { OnOk result (text.new.items ≡ text.old.items ++ place_text
        (wait (x_of_lifeline sender + 6) (axis_of_row number) (x_of_lifeline sender + gutter_of number)
        (axis_of_row row))) }
{
    let x = lifeline_x(sender);
    push_wait(
        alloc,
        text,
        x + 6,
        row_axis(number),
        x + gutter(number),
        row_axis(row),
    )
}

// Adds the arrow from there to a node.
fn push_led_arrow(
    alloc: Global,
    text: &mut Vec<u8>,
    node: u8,
    row: u32,
    accepted: bool,
    number: u32,
    sender: u8,
) -> Result<(), AllocError>
    ensures { OnOk result (text.new.items ≡ text.old.items ++ place_text
        (arrow (x_of_lifeline sender + gutter_of number) (axis_of_row row)
        (end_of_arrow (nat_lt sender node) accepted node) (head_of_arrow (nat_lt sender node) accepted))) }
{
    let right = sender < node;
    let begin = lifeline_x(sender) + gutter(number);
    let end = arrow_end(right, accepted, node);
    push_arrow(
        alloc,
        text,
        begin,
        row_axis(row),
        end,
        arrow_head(right, accepted),
    )
}

// Adds the sign of a kind of mark.
fn push_sign(
    alloc: Global,
    text: &mut Vec<u8>,
    across: u64,
    down: u64,
    kind: MarkKind,
) -> Result<(), AllocError>
    ensures { OnOk result (text.new.items ≡ text.old.items ++ place_text (sign across down kind)) }
{
    let strokes = sign_strokes(kind);
    push_shown(
        alloc,
        text,
        format_args!("<path d=\"M{across} {down}{strokes}\"/>"),
    )
}

// Adds the short stroke at the left edge.
fn push_edge(alloc: Global, text: &mut Vec<u8>, top: u64) -> Result<(), AllocError>
    ensures { OnOk result (text.new.items ≡ text.old.items ++ place_text (edge top)) }
{
    push_shown(alloc, text, format_args!("<path d=\"M52 {top}v12\"/>"))
}

// Adds the way of what waits, from its row to another.
fn push_wait(
    alloc: Global,
    text: &mut Vec<u8>,
    across: u64,
    down: u64,
    gutter_x: u64,
    row: u64,
) -> Result<(), AllocError>
    ensures { OnOk result (text.new.items ≡ text.old.items ++ place_text (wait across down gutter_x row)) }
{
    push_shown(
        alloc,
        text,
        format_args!("<path class=\"wait\" d=\"M{across} {down}H{gutter_x}V{row}\"/>"),
    )
}

// Adds an arrow.
fn push_arrow(
    alloc: Global,
    text: &mut Vec<u8>,
    begin: u64,
    axis: u64,
    end: u64,
    head: ArrowHead,
) -> Result<(), AllocError>
    ensures { OnOk result (text.new.items ≡ text.old.items ++ place_text (arrow begin axis end head)) }
{
    let strokes = head_strokes(head);
    push_shown(
        alloc,
        text,
        format_args!("<path d=\"M{begin} {axis}H{end}{strokes}\"/>"),
    )
}

// The class of a row.
fn class_name(kind: MarkKind) -> &'static str
    ensures { result.now ≡ name_of_class kind }
{
    match kind {
        MarkKind::Sent => "sent",
        MarkKind::Done => "done",
        MarkKind::Cut => "cut",
        MarkKind::Armed => "armed",
        MarkKind::Nothing => "nothing",
        MarkKind::Refused => "refused",
        MarkKind::Arrow {
            accepted: false,
            ..
        } => "failed",
        MarkKind::Arrow {
            from: Origin::EventRow { .. },
            accepted: true,
        } => "taken",
        MarkKind::Arrow {
            from: Origin::Outside,
            accepted: true,
        } => "forged",
    }
}

// The strokes of a sign, from the place of its mark on.
fn sign_strokes(kind: MarkKind) -> &'static str
    ensures { result.now ≡ strokes_of_sign kind }
{
    match kind {
        MarkKind::Sent => "m-7 0a7 7 0 1 0 14 0a7 7 0 1 0-14 0z",
        MarkKind::Done => "m-6-6h12v12h-12z",
        MarkKind::Cut => "m5-14l-14 16h6l-4 12l14-16h-6z",
        MarkKind::Armed => "m0-12l12 21h-24zm0 7v6m0 3v2",
        MarkKind::Nothing => "m-7-3h14v6h-14z",
        MarkKind::Refused => "m-9 0a9 9 0 1 0 18 0a9 9 0 1 0-18 0m4 0h10",
        MarkKind::Arrow { .. } => "",
    }
}

// The strokes at the end of an arrow.
fn head_strokes(head: ArrowHead) -> &'static str
    ensures { result.now ≡ strokes_of_head head }
{
    match head {
        ArrowHead::ToRight => "m-8-5l8 5l-8 5",
        ArrowHead::ToLeft => "m8-5l-8 5l8 5",
        ArrowHead::Cross => "m-6-6l12 12m0-12l-12 12",
    }
}
