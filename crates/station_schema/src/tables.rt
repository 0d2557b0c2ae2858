ghost use Rattle.std.specs.Prelude.{◌≡◌, [], ◌∷◌, Some, None, true, false, map, IsTrue};
ghost use Rattle.station_schema.specs.Common.{plain, Integer};
ghost use Rattle.station_schema.specs.Schema.{key_column, keyed_table, table_by, table_of, column_as};

use crate::columns::{are_columns, is_key};
use crate::shapes::{Key, TableShape};
use sqlite_items::Items;
use sqlite_schema::code::Terms;
use sqlite_schema::schema::{Kind, Stamps, Table};
use sqlite_value::keys::Order;

fn has_none(terms: &Terms) -> bool
    ensures on { IsTrue result → terms.now ≡ [] }
    ensures back { terms.now ≡ [] → result ≡ true }
{
    terms.roots.len() == 0
}

fn is_timeless(stamps: &Stamps) -> bool
    ensures on { IsTrue result → stamps.now ≡ record { places = []; terms = []; formats = [] } }
    ensures back { stamps.now ≡ record { places = []; terms = []; formats = [] } → result ≡ true }
{
    if !has_none(&stamps.terms) {
        return false;
    }
    if stamps.places.len() != 0 {
        return false;
    }
    stamps.formats.len() == 0
}

/// Returns whether the table has this name and number, and no constraint except its keys.
fn is_plain(table: &Table, name: &str, tree: u32) -> bool
    ensures on { IsTrue result
        → table.now
        ≡ record table.now {
          name = name.now;
          tree = tree;
          checks = [];
          references = [];
          computed =
              [];
          stamps = record { places = []; terms = []; formats = [] };
          is_counted = false;
        } }
    ensures back { table.now
        ≡ record table.now {
          name = name.now;
          tree = tree;
          checks = [];
          references = [];
          computed =
              [];
          stamps = record { places = []; terms = []; formats = [] };
          is_counted = false;
        }
        → result ≡ true }
{
    if table.name.as_slice() != name.as_bytes() {
        return false;
    }
    if table.tree != tree || table.is_counted {
        return false;
    }
    if !has_none(&table.checks) || !is_timeless(&table.stamps) {
        return false;
    }
    if table.references.len() != 0 {
        return false;
    }
    table.computed.len() == 0
}

fn is_plain_order(orders: &[Order]) -> bool
    ensures on { IsTrue result → orders.now ≡ plain ∷ [] }
    ensures back { orders.now ≡ plain ∷ [] → result ≡ true }
{
    if orders.len() != 1 {
        return false;
    }
    orders[0] == Order::PLAIN
}

fn is_one_key(uniques: &[Items<usize>], places: &[usize]) -> bool
    ensures on { IsTrue result → uniques.now ≡ places.now ∷ [] }
    ensures back { uniques.now ≡ places.now ∷ [] → result ≡ true }
{
    if uniques.len() != 1 {
        return false;
    }
    uniques[0].as_slice() == places
}

/// Returns whether the key of the table has the columns at these places, in one index.
fn is_keyed(table: &Table, places: &[usize]) -> bool
    ensures on { IsTrue result
        → (table.now.key ≡ None) × (table.now.primary ≡ places.now)
        × (table.now.orders ≡ plain ∷ []) × (table.now.uniques ≡ places.now ∷ []) }
    ensures back { (table.now.key ≡ None) × (table.now.primary ≡ places.now)
        × (table.now.orders ≡ plain ∷ []) × (table.now.uniques ≡ places.now ∷ []) → result ≡ true }
{
    if table.key.is_some() || table.primary.as_slice() != places {
        return false;
    }
    is_plain_order(table.orders.as_slice()) && is_one_key(table.uniques.as_slice(), places)
}

/// Returns whether the key of the table is its first column.
fn is_numbered(table: &Table) -> bool
    ensures on { IsTrue result
        → (table.now.key ≡ Some 0) × (table.now.primary ≡ 0 ∷ []) × (table.now.orders ≡ [])
        × (table.now.uniques ≡ []) }
    ensures back { (table.now.key ≡ Some 0) × (table.now.primary ≡ 0 ∷ []) × (table.now.orders ≡ [])
        × (table.now.uniques ≡ []) → result ≡ true }
{
    if table.primary.as_slice() != [0usize].as_slice() {
        return false;
    }
    if table.orders.len() != 0 {
        return false;
    }
    if table.uniques.len() != 0 {
        return false;
    }
    table.key == Some(0)
}

/// Returns whether the table has this name and number, the key of the columns at these places, and
/// these columns.
fn is_table_by(
    table: &Table,
    tree: u32,
    name: &str,
    places: &[usize],
    wanted: &[(&str, Kind)],
) -> bool
    ensures on { IsTrue result
        → table.now ≡ table_by tree places.now name.now (map column_as wanted.now) }
    ensures back { table.now ≡ table_by tree places.now name.now (map column_as wanted.now)
        → result ≡ true }
{
    if !is_plain(table, name, tree) || !is_keyed(table, places) {
        return false;
    }
    are_columns(table.columns.as_slice(), wanted)
}

/// Returns whether the table has this name and number, and its columns are the INTEGER PRIMARY KEY
/// and then these.
fn is_keyed_table(table: &Table, tree: u32, name: &str, key: &str, wanted: &[(&str, Kind)]) -> bool
    ensures on { IsTrue result
        → table.now
        ≡ keyed_table tree name.now (key_column key.now Integer ∷ map column_as wanted.now) }
    ensures back { table.now
        ≡ keyed_table tree name.now (key_column key.now Integer ∷ map column_as wanted.now)
        → result ≡ true }
{
    if !is_plain(table, name, tree) || !is_numbered(table) {
        return false;
    }
    match table.columns.as_slice() {
        [] => false,
        [first, rest @ ..] => is_key(first, key) && are_columns(rest, wanted),
    }
}

/// Returns whether the table has this shape.
fn is_table(table: &Table, shape: &TableShape) -> bool
    ensures on { IsTrue result → table.now ≡ table_of shape.now }
    ensures back { table.now ≡ table_of shape.now → result ≡ true }
{
    match shape.key {
        Key::Number(key) => is_keyed_table(table, shape.tree, shape.name, key, shape.columns),
        Key::Columns(places) => is_table_by(table, shape.tree, shape.name, places, shape.columns),
    }
}

/// Returns whether these are the tables of these shapes, in this order.
pub(crate) fn are_tables(tables: &[Table], shapes: &[TableShape]) -> bool
    ensures on { IsTrue result → tables.now ≡ map table_of shapes.now }
    ensures back { tables.now ≡ map table_of shapes.now → result ≡ true }
{
    if tables.len() != shapes.len() {
        return false;
    }
    for i in 0..tables.len() {
        if !is_table(&tables[i], &shapes[i]) {
            return false;
        }
    }
    true
}
