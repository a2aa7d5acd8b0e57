// The sheet of a place: sixteen entries in the middle of the table.
ghost use Rattle.std.specs.Prelude.{◌≡◌, ◌+◌, ◌<◌, ◌≤◌, ◌==◌, length, position, IfSome, OnSome};
ghost use Rattle.coordinator.specs.Tables.{at_cursor, base_of, cursor_of, sheet, sought, used_of};

use crate::enter::Seat;
use crate::tables::Entry;

impl Seat {
    // The entries of the place that are in use.
    pub(crate) fn sheet<V: Copy>(self, entries: &[Entry<V>]) -> &[Entry<V>]
        requires { 1024 ≤ length entries.now }
        ensures entries { result.now ≡ sheet (self.at + 1) (used_of self.place) entries.now }
        ensures length { length result.now ≡ used_of self.place }
    {
        let start = 16 * self.at;
        &entries[start..start + usize::from(self.place.used())]
    }

    // The entry at the cursor of the place, if one is left.
    pub(crate) fn at_cursor<V: Copy>(self, entries: &[Entry<V>]) -> Option<Entry<V>>
        requires { 1024 ≤ length entries.now }
        ensures answer { result ≡ at_cursor entries.now (self.at + 1) self.place }
        ensures within { OnSome result (cursor_of self.place < used_of self.place) }
    {
        self.sheet(entries)
            .get(usize::from(self.place.cursor()))
            .copied()
    }

    // Where an entry of the place's sheet stands in the table.
    pub(crate) fn slot(self, number: usize) -> usize
        requires { number < 16 }
        ensures slot { result ≡ base_of (self.at + 1) + number }
        ensures within { result < 1024 }
    {
        16 * self.at + number
    }
}

// The first entry of a key, with its number in the sheet.
pub(crate) fn find<V: Copy>(sheet: &[Entry<V>], key: u32) -> Option<(usize, Entry<V>)>
    ensures answer { result ≡ sought key 0 sheet.now }
    ensures within { IfSome result (λ found. found.0 < length sheet.now) }
{
    let number = first_of(sheet, key)?;
    Some((number, sheet[number]))
}

// The number of the first entry of a key. A function of its own, since `find` is shown from this fact alone.
fn first_of<V: Copy>(sheet: &[Entry<V>], key: u32) -> Option<usize>
    ensures { result ≡ position (λ entry. entry.key == key) sheet.now }
{
    sheet.iter().position(|entry| entry.key == key)
}
