// The values of a bus file, each read by its form: none exactly if it isn't of the form.

ghost use Rattle.std.specs.Prelude.{◌≡◌, ◌≢◌, ◌≤◌, IfSome, IsTrue, option_map, map, length, replicate};
ghost use Rattle.memory_update.specs.Identifier.{IsUid};
ghost use Rattle.toml.specs.View.{view};
ghost use Rattle.bus_config.specs.Values.{kind_in, version_in, whole_in, name_in, uid_in, id_in, direction_in, start_in, rows_in, tables_in, are_tables as are_so_many_tables};

use crate::names::Name;
use cell_store::{Kind, Version};
use freshness_routes::Direction;
use key_slots::SlotId;
use memory_update::Uid;
use toml::Value;

// The text `twin` or `log`.
pub(crate) fn kind(value: &Value) -> Option<Kind>
    ensures { result ≡ kind_in (view value.now) }
{
    match value.as_str()? {
        "twin" => Some(Kind::Twin),
        "log" => Some(Kind::Log),
        _ => None,
    }
}

// A whole number from `least` to `most`.
pub(crate) fn whole(value: &Value, least: u16, most: u16) -> Option<u16>
    ensures { result ≡ whole_in least most (view value.now) }
{
    let number = u16::try_from(value.as_integer()?).ok()?;
    if number < least || number > most {
        return None;
    }
    Some(number)
}

// The whole number 1 or 2.
pub(crate) fn version(value: &Value) -> Option<Version>
    ensures { result ≡ version_in (view value.now) }
{
    match whole(value, 1, 2)? {
        1 => Some(Version::One),
        2 => Some(Version::Two),
        _ => None,
    }
}

// A name of 1 to 16 bytes.
pub(crate) fn name(value: &Value) -> Option<Name>
    ensures { result ≡ name_in (view value.now) }
{
    Name::of(value.as_str()?.as_bytes())
}

// An identifier: 30 hexadecimal digits, not all 0.
pub(crate) fn uid(value: &Value) -> Option<Uid>
    ensures value { result ≡ uid_in (view value.now) }
    ensures is_uid { IfSome result IsUid }
    ensures not_zero { IfSome result (λ uid. uid ≢ replicate 15 0) }
{
    let uid = secoc_words::engine_uid(value.as_str()?.as_bytes())?;
    let _is_uid = uid.as_slice();
    Some(uid)
}

// A Data ID: four hexadecimal digits.
pub(crate) fn id(value: &Value) -> Option<u16>
    ensures { result ≡ id_in (view value.now) }
{
    secoc_words::data_id(value.as_str()?.as_bytes())
}

// The text `send` or `receive`.
pub(crate) fn direction(value: &Value) -> Option<Direction>
    ensures { result ≡ direction_in (view value.now) }
{
    match value.as_str()? {
        "send" => Some(Direction::Sends),
        "receive" => Some(Direction::Receives),
        _ => None,
    }
}

// The number of the slot of a MAC key, 4 to 13.
pub(crate) fn slot(value: &Value) -> Option<SlotId>
    ensures { result ≡ whole_in 4 13 (view value.now) }
{
    SlotId::new(whole(value, 4, 13)? as u8)
}

// A freshness: 16 hexadecimal digits.
pub(crate) fn start(value: &Value) -> Option<u64>
    ensures { result ≡ start_in (view value.now) }
{
    secoc_words::fresh(value.as_str()?.as_bytes())
}

// An array of `least` to `most` tables.
pub(crate) fn tables(value: &Value, least: usize, most: usize) -> Option<&[Value]>
    ensures value { option_map (λ rows. map view rows.now) result ≡ tables_in least most (view value.now) }
    ensures counted { IfSome result (λ rows. (least ≤ length rows.now) × (length rows.now ≤ most)) }
{
    let rows = rows(value)?;
    if are_tables(rows, least, most) {
        Some(rows)
    } else {
        None
    }
}

fn rows(value: &Value) -> Option<&[Value]>
    ensures { option_map (λ rows. map view rows.now) result ≡ rows_in (view value.now) }
{
    match value.as_array() {
        Some(rows) => Some(rows.as_slice()),
        None => None,
    }
}

fn are_tables(rows: &[Value], least: usize, most: usize) -> bool
    ensures value { result ≡ are_so_many_tables least most (map view rows.now) }
    ensures counted { IsTrue result → (least ≤ length rows.now) × (length rows.now ≤ most) }
{
    if rows.len() < least || rows.len() > most {
        return false;
    }
    rows.iter().all(Value::is_table)
}
