// The keys of a table.

ghost use Rattle.std.specs.Prelude.{◌≡◌, option_map, map, bytes_eq};
ghost use Rattle.std.specs.List.{list_any};
ghost use Rattle.toml.specs.View.{view, table_view};
ghost use Rattle.toml.specs.Data.{get_member};
ghost use Rattle.bus_config.specs.Rows.{has_only as has_only_keys};

use toml::{Table, Value};

// The value at a key.
pub(crate) fn member<'a>(table: &'a Table, key: &str) -> Option<&'a Value>
    ensures { option_map (λ v. view v.now) result ≡ get_member key.now (table_view table.now) }
{
    table.get(key)
}

// Whether a table has no key but these.
pub(crate) fn has_only(table: &Table, known: &[&str]) -> bool
    ensures { result ≡ has_only_keys (map (λ k. k.now) known.now) (table_view table.now) }
{
    table.keys().all(|key| is_known(key.as_str(), known))
}

fn is_known(key: &str, known: &[&str]) -> bool
    ensures { result ≡ list_any (bytes_eq key.now) (map (λ k. k.now) known.now) }
{
    known.iter().any(|one| key == *one)
}
