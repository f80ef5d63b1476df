// The root of the file, and a node without its routes.

ghost use Rattle.std.specs.Prelude.{◌≡◌, ◌≤◌, [], map, length, codes, option_map, IfSome};
ghost use Rattle.toml.specs.View.{view, table_view};
ghost use Rattle.bus_config.specs.Buses.{most_routes as routes_at_most};
ghost use Rattle.bus_config.specs.Values.{kind_in, version_in, tables_in};
ghost use Rattle.bus_config.specs.Rows.{optional, node_head as node_head_in, next_head as next_head_in, root_in};
ghost use Rattle.bus_config.specs.Heads.{head_view, root_view, IsNewHead};

use crate::buses::most_routes;
use crate::names::Name;
use crate::node_lines::{NodeLine, place_named};
use crate::tables::{has_only, member};
use crate::values;
use cell_store::{Kind, Version};
use memory_update::Uid;
use toml::{Table, Value};

// A node without its routes, and the rows of these.
#[derive(Drop)]
pub(crate) struct NodeHead<'a> {
    pub(crate) name: Name,
    pub(crate) uid: Uid,
    pub(crate) rows: &'a [Value],
}

// What the root tells, and the rows of the nodes.
#[derive(Clone, Copy)]
pub(crate) struct Root<'a> {
    pub(crate) kind: Kind,
    pub(crate) version: Version,
    pub(crate) rows: &'a [Value],
}

fn routes(row: &Table, version: Version) -> Option<&[Value]>
    ensures value { option_map (λ rows. map view rows.now) result
        ≡ optional [] (tables_in 0 (routes_at_most version)) (codes "route") (table_view row.now) }
    ensures few { IfSome result (λ rows. length rows.now ≤ routes_at_most version) }
{
    match member(row, "route") {
        None => Some(&[]),
        Some(value) => values::tables(value, 0, most_routes(version)),
    }
}

#[tactic(auto, unfolding(crate::specs::Rows::node_head))]
fn node_head<'a>(version: Version, before: &[NodeLine], row: &'a Table) -> Option<NodeHead<'a>>
    ensures value { option_map head_view result ≡ node_head_in version before.now (table_view row.now) }
    ensures new { IfSome result (IsNewHead version before.now) }
{
    if !has_only(row, &["name", "uid", "route"]) {
        return None;
    }
    let name = values::name(member(row, "name")?)?;
    if place_named(before, name.bytes()).is_some() {
        return None;
    }
    let uid = values::uid(member(row, "uid")?)?;
    let rows = routes(row, version)?;
    Some(NodeHead { name, uid, rows })
}

// A node whose name none of those before it has.
#[tactic(auto, unfolding(crate::specs::Rows::next_head))]
pub(crate) fn next_head<'a>(
    version: Version,
    before: &[NodeLine],
    row: &'a Value,
) -> Option<NodeHead<'a>>
    ensures value { option_map head_view result ≡ next_head_in version before.now (view row.now) }
    ensures new { IfSome result (IsNewHead version before.now) }
{
    node_head(version, before, row.as_table()?)
}

fn kind(table: &Table) -> Option<Kind>
    ensures { result ≡ optional Kind.Twin kind_in (codes "store") (table_view table.now) }
{
    match member(table, "store") {
        None => Some(Kind::Twin),
        Some(value) => values::kind(value),
    }
}

fn version(table: &Table) -> Option<Version>
    ensures { result ≡ optional Version.One version_in (codes "version") (table_view table.now) }
{
    match member(table, "version") {
        None => Some(Version::One),
        Some(value) => values::version(value),
    }
}

#[tactic(auto, unfolding(crate::specs::Rows::root_in))]
pub(crate) fn read_root(table: &Table) -> Option<Root<'_>>
    ensures value { option_map root_view result ≡ root_in (table_view table.now) }
    ensures counted { IfSome result (λ root. (1 ≤ length root.rows.now) × (length root.rows.now ≤ 8)) }
{
    if !has_only(table, &["store", "version", "node"]) {
        return None;
    }
    let kind = kind(table)?;
    let version = version(table)?;
    let rows = values::tables(member(table, "node")?, 1, 8)?;
    Some(Root {
        kind,
        version,
        rows,
    })
}
