//! Where the marks of a chart lie, in pixels from its upper left corner.
ghost use Rattle.std.specs.Prelude.{◌≡◌, ◌≤◌};
ghost use Rattle.chart_commands.specs.Places.{lifeline_x as x_of_lifeline, row_top as top_of_row, row_axis as axis_of_row, gutter as gutter_of, head_count as count_of_heads, head_top as top_of_head, lifeline_bottom as bottom_of_lifelines, chart_width as width_of_chart, chart_height as height_of_chart, arrow_head as head_of_arrow, arrow_end as end_of_arrow, label_x as x_of_label, label_y as y_of_label, label_rise as rise_of_label};

use crate::marks::{MarkKind, Origin, RowMark};

/// What stands at the end of an arrow.
#[derive(Clone, Copy, Debug, PartialEq, Eq, Drop)]
pub enum ArrowHead {
    /// A head that points to the right: accepted.
    ToRight,
    /// A head that points to the left: accepted.
    ToLeft,
    /// A cross: the verdict failed.
    Cross,
}

/// The lifeline of the node at this place, from 0.
pub fn lifeline_x(node: u8) -> u64
    ensures { result ≡ x_of_lifeline node }
{
    84 + 224 * u64::from(node)
}

/// The upper edge of the row with this number, from 1.
pub fn row_top(row: u32) -> u64
    ensures { result ≡ top_of_row row }
{
    let before = u64::from(row.saturating_sub(1));
    96 + 36 * (before / 40 + 1) + 28 * before
}

/// The axis of the row with this number, from 1, on which its mark lies.
pub fn row_axis(row: u32) -> u64
    ensures { result ≡ axis_of_row row }
{
    row_top(row) + 14
}

/// How far to the right of its lifeline what was sent in this row waits.
pub fn gutter(row: u32) -> u64
    ensures { result ≡ gutter_of row }
{
    11 + 4 * u64::from(row % 3)
}

/// How many headers there are over so many rows: one for each forty, and one if there is no row.
pub fn head_count(rows: u32) -> u32
    ensures { result ≡ count_of_heads rows }
{
    rows.saturating_sub(1) / 40 + 1
}

/// The upper edge of a header, counted from 0.
pub fn head_top(block: u32) -> u64
    ensures { result ≡ top_of_head block }
{
    96 + 1156 * u64::from(block)
}

/// Where the lifelines end, below so many rows.
pub fn lifeline_bottom(rows: u32) -> u64
    ensures { result ≡ bottom_of_lifelines rows }
{
    100 + 36 * u64::from(head_count(rows)) + 28 * u64::from(rows)
}

/// The width of the chart of so many nodes: no less than that of three.
pub fn chart_width(nodes: u8) -> u64
    ensures { result ≡ width_of_chart nodes }
{
    84 + 224 * u64::from(nodes.max(3))
}

/// The height of the chart of so many rows.
pub fn chart_height(rows: u32) -> u64
    ensures { result ≡ height_of_chart rows }
{
    lifeline_bottom(rows) + 12
}

/// What stands at the end of an arrow that leads to the right or to the left.
pub fn arrow_head(right: bool, accepted: bool) -> ArrowHead
    ensures { result ≡ head_of_arrow right accepted }
{
    match (right, accepted) {
        (_, false) => ArrowHead::Cross,
        (true, true) => ArrowHead::ToRight,
        (false, true) => ArrowHead::ToLeft,
    }
}

/// Where an arrow to this node's lifeline ends: at it, or before it if a cross stands there.
pub fn arrow_end(right: bool, accepted: bool, node: u8) -> u64
    ensures { result ≡ end_of_arrow right accepted node }
{
    match (right, accepted) {
        (_, true) => lifeline_x(node),
        (true, false) => lifeline_x(node) - 11,
        (false, false) => lifeline_x(node) + 11,
    }
}

/// Where the label of a mark begins.
pub fn label_x(mark: &RowMark) -> u64
    ensures { result ≡ x_of_label mark.now }
{
    lifeline_x(mark.node) + 22
}

/// The height at which the label of a mark stands.
pub fn label_y(mark: &RowMark) -> u64
    ensures { result ≡ y_of_label mark.now }
{
    row_axis(mark.row) + 4 - label_rise(mark.node, mark.kind)
}

// How much higher the label stands than the mark: above an arrow from the right.
fn label_rise(node: u8, kind: MarkKind) -> u64
    ensures rise { result ≡ rise_of_label node kind }
    ensures small { result ≤ 9 }
{
    match kind {
        MarkKind::Arrow {
            from: Origin::EventRow { node: sender, .. },
            ..
        } if sender >= node => 9,
        _ => 0,
    }
}
