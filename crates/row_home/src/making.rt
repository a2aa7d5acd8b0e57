// The opening of a row home: its check and its making.
ghost use Rattle.std.specs.Prelude.{◌≡◌, ◌≤◌, [], length, is_ok, if◌then◌else◌};
ghost use Rattle.home.specs.Memory.{in_rows};
ghost use Rattle.home.specs.Opening.{first_bad, row_flaw};
ghost use Rattle.row_home.specs.Opening.{row_check, row_opened};
ghost use Rattle.row_home.specs.Meanings.{row_home_meaning, row_home_memory};

use crate::RowHome;
use home::{Fault, MAX_LAST, Row, check_size};

impl<'a, V: Copy> RowHome<'a, V> {
    // Tests a table that a home is to be made of. Refuses 16, 17.
    pub fn check(rows: &[Row<V>], last: u64) -> Result<(), Fault>
        ensures { result ≡ row_check last rows.now }
    {
        check_size(rows.len(), last <= MAX_LAST)?;
        check_rows(rows, last)
    }

    // Makes a home of exactly these rows, or one with no keys and the last timestamp 0 where the check fails.
    // The home works in the table itself, and alters no row by being made.
    pub fn make(rows: &'a mut [Row<V>], last: u64) -> RowHome<'a, V>
        ensures meaning { row_home_meaning result ≡ row_opened last rows.old }
        ensures table { (result.rows.ghost_name ≡ rows.entry.ghost_name) × (result.rows.now ≡ rows.old) }
        ensures memory { row_home_memory result
            ≡ in_rows rows.entry.ghost_name (if is_ok (row_check last rows.old) then [] else rows.old) }
    {
        if RowHome::check(rows, last).is_err() {
            return RowHome {
                rows,
                last: 0,
                passed: false,
            };
        }
        RowHome {
            rows,
            last,
            passed: true,
        }
    }
}

// Refuses 17 for the first row with a flaw. The byte home has such a loop of its own: one for both would be a public
// function that asks its caller for an iterator that ends.
fn check_rows<V: Copy>(rows: &[Row<V>], last: u64) -> Result<(), Fault>
    requires { length rows.now ≤ 65535 }
    ensures { result ≡ first_bad (row_flaw last) 0 rows.now }
{
    for (key, row) in rows.iter().enumerate() {
        if let Some(flaw) = row.flaw(last) {
            return Err(flaw.at(key as u32));
        }
    }
    Ok(())
}
