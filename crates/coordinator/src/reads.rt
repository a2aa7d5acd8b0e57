// read: the value of a key, from the sheet or from the home.
ghost use Rattle.std.specs.Prelude.{◌≡◌};
ghost use Rattle.coordinator.specs.Calls.{read_call};
ghost use Rattle.coordinator.specs.Tables.{tables};

use crate::enter::{READ, enter, fault};
use crate::sheet::find;
use crate::tables::{Entry, Place};
use home::{Fault, Home, Refusal};

// The value of a key. One that the transaction has met before comes from its entry; of another the home is asked, and
// the row becomes a new entry. Refuses 14, 4, 9, 10, 1.
#[tactic(auto, unfolding(crate::specs::Calls::read_call, crate::specs::Calls::reading_new))]
pub fn read<H: Home>(
    home: &H,
    places: &mut [Place],
    entries: &mut [Entry<H::Value>],
    place: u32,
    key: u32,
) -> Result<H::Value, Fault>
    ensures answer { result ≡ (read_call (tables (H.Home.meaning home.now) places.old entries.old) place key).answer }
    ensures places { places.new ≡ (read_call (tables (H.Home.meaning home.now) places.old entries.old) place key).tables.places }
    ensures entries { entries.new ≡ (read_call (tables (H.Home.meaning home.now) places.old entries.old) place key).tables.entries }
{
    let seat = enter(READ, places, entries.len(), place, key)?;
    if let Some((_, entry)) = find(seat.sheet(entries), key) {
        return Ok(entry.value);
    }
    let used = seat.place.used();
    if used == 16 {
        return Err(fault(Refusal::SheetFull, place, key, 0));
    }
    let row = home.look(key).map_err(|fault| Fault {
        place,
        key,
        ..fault
    })?;
    entries[seat.slot(usize::from(used))] = Entry {
        key,
        wts: row.wts,
        rts: row.rts,
        value: row.value,
        written: false,
    };
    places[seat.at] = Place {
        ts: seat.place.ts.max(row.wts),
        used: used + 1,
        ..seat.place
    };
    Ok(row.value)
}
