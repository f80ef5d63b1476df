//! Whether a file has the table of a ledger and nothing else.

ghost use Rattle.std.specs.Prelude.{◌≡◌, ◌↔◌, [], IsTrue, IfOk};
ghost use Rattle.ledger_tables.specs.Table.{strict_column, origin_columns, deed_columns, entry_columns, HasEntryKeys};
ghost use Rattle.ledger_tables.specs.Table.{HasEntryShape, entry_table, entry_index, ledger_schema, no_schema};

use sqlite_schema::code::Terms;
use sqlite_schema::schema::{Column, Index, Kind, Schema, Stamps, Table};
use sqlite_value::keys::{Collation, Order};
use sqlite_value::value::Value;
use std::alloc::{AllocError, Global};

/// Whether a column has this name and type, with no default.
fn is_column(column: &Column, name: &[u8], kind: Kind, not_null: bool) -> bool
    ensures { IsTrue result ↔ (column.now ≡ strict_column name.now kind not_null) }
{
    column.name.as_slice() == name
        && column.kind == kind
        && column.is_strict
        && column.not_null == not_null
        && matches!(column.default, Value::Null)
        && column.collation == Collation::Binary
}

/// Whether these are the columns from the station on.
fn are_origin_columns(columns: &[Column]) -> bool
    ensures { IsTrue result ↔ (columns.now ≡ origin_columns) }
{
    let [station, operator, time, id] = columns else {
        return false;
    };
    is_column(station, b"station".as_slice(), Kind::Text, true)
        && is_column(operator, b"operator".as_slice(), Kind::Text, true)
        && is_column(time, b"time".as_slice(), Kind::Text, true)
        && is_column(id, b"id".as_slice(), Kind::Integer, false)
}

/// Whether these are the columns from what was done on.
fn are_deed_columns(columns: &[Column]) -> bool
    ensures { IsTrue result ↔ (columns.now ≡ deed_columns) }
{
    let [what, kcv, auth, rest @ ..] = columns else {
        return false;
    };
    is_column(what, b"what".as_slice(), Kind::Text, true)
        && is_column(kcv, b"kcv".as_slice(), Kind::Blob, true)
        && is_column(auth, b"auth".as_slice(), Kind::Integer, true)
        && are_origin_columns(rest)
}

/// Whether these are the columns of a ledger's table.
fn are_columns(columns: &[Column]) -> bool
    ensures { IsTrue result ↔ (columns.now ≡ entry_columns) }
{
    let [uid, slot, counter, rest @ ..] = columns else {
        return false;
    };
    is_column(uid, b"uid".as_slice(), Kind::Blob, true)
        && is_column(slot, b"slot".as_slice(), Kind::Integer, true)
        && is_column(counter, b"counter".as_slice(), Kind::Integer, true)
        && are_deed_columns(rest)
}

/// Whether there is no expression.
fn are_none(alloc: Global, terms: &Terms) -> Result<bool, AllocError>
    ensures { IfOk result (λ yes. IsTrue yes ↔ (terms.now ≡ [])) }
{
    Ok(terms.lend(alloc)?.roots.is_empty())
}

/// Whether no default reads the time.
fn has_no_stamps(alloc: Global, stamps: &Stamps) -> Result<bool, AllocError>
    ensures { IfOk result (λ yes. IsTrue yes ↔ (stamps.now ≡ record { places = []; terms = []; formats = [] })) }
{
    if !stamps.places.is_empty() || !stamps.formats.is_empty() {
        return Ok(false);
    }
    are_none(alloc, &stamps.terms)
}

/// Whether this is the table of a ledger, but for its expressions.
fn has_entry_shape(table: &Table) -> bool
    ensures { IsTrue result ↔ HasEntryShape table.now }
{
    table.name.as_slice() == b"entry".as_slice()
        && table.tree == 0
        && table.key == Some(9)
        && !table.is_counted
        && are_columns(table.columns.as_slice())
        && has_entry_keys(table)
        && table.references.is_empty()
        && table.computed.is_empty()
}

/// Whether this is the table of a ledger.
#[tactic(auto, using(crate::proofs::Tables::table_is, crate::proofs::Tables::shape_of))]
fn is_entry_table(alloc: Global, table: &Table) -> Result<bool, AllocError>
    ensures { IfOk result (λ yes. IsTrue yes ↔ (table.now ≡ entry_table)) }
{
    if !has_entry_shape(table) {
        return Ok(false);
    }
    if !are_none(alloc, &table.checks)? {
        return Ok(false);
    }
    has_no_stamps(alloc, &table.stamps)
}

/// Whether a table has the keys of a ledger's.
fn has_entry_keys(table: &Table) -> bool
    ensures { IsTrue result ↔ HasEntryKeys table.now }
{
    let ([first], [unique], [order]) = (
        table.primary.as_slice(),
        table.uniques.as_slice(),
        table.orders.as_slice(),
    ) else {
        return false;
    };
    let [one, two, three, four] = unique.as_slice() else {
        return false;
    };
    if *first != 0 || order.digits != 0 {
        return false;
    }
    *one == 1 && *two == 2 && *three == 3 && *four == 0
}

/// Whether this is the index of a ledger's table.
fn is_entry_index(index: &Index) -> bool
    ensures { IsTrue result ↔ (index.now ≡ entry_index) }
{
    index.name.as_slice() == b"sqlite_autoindex_entry_1".as_slice()
        && index.tree == 1
        && index.table == 0
        && index.columns.as_slice() == [1, 2, 3, 0].as_slice()
        && index.order == Order::PLAIN
        && index.is_unique
}

/// Whether a schema is that of a ledger.
pub(crate) fn is_ledger_schema(alloc: Global, schema: &Schema) -> Result<bool, AllocError>
    ensures { IfOk result (λ yes. IsTrue yes ↔ (schema.now ≡ ledger_schema)) }
{
    let [table] = schema.tables.as_slice() else {
        return Ok(false);
    };
    let [index] = schema.indexes.as_slice() else {
        return Ok(false);
    };
    if !schema.views.is_empty() || !is_entry_index(index) {
        return Ok(false);
    }
    is_entry_table(alloc, table)
}

/// Whether a schema has nothing.
pub(crate) fn is_no_schema(schema: &Schema) -> bool
    ensures { IsTrue result ↔ (schema.now ≡ no_schema) }
{
    schema.tables.is_empty() && schema.indexes.is_empty() && schema.views.is_empty()
}
