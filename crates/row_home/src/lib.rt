// The row home: it works in the caller's table of rows, where a key is an index.
#![tactic(auto)]

ghost use Rattle.std.specs.Prelude.{◌≡◌, true};
ghost use Rattle.home.specs.Meaning.{is_sound};
ghost use Rattle.home.specs.Opening.{table_meaning};

use home::Row;

mod calls;
mod making;

// A home in a table of rows. One that failed its check has no keys.
#[derive(Drop)]
pub struct RowHome<'a, V> {
    rows: &'a mut [Row<V>],
    last: u64,
    // A flag, and no Option of the table: a home without keys keeps the table too, so that its owner knows what it
    // holds afterwards.
    passed: bool,
    ghost sound: { is_sound (table_meaning passed last rows.now) ≡ true },
}
