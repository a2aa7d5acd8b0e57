// write: a new value for a key, which the transaction then holds.
ghost use Rattle.std.specs.Prelude.{◌≡◌};
ghost use Rattle.home.specs.Meaning.{looked};
ghost use Rattle.coordinator.specs.Calls.{moved_on, write_call};
ghost use Rattle.coordinator.specs.Tables.{tables};

use crate::enter::{WRITE, enter, fault};
use crate::sheet::find;
use crate::tables::{Entry, Place};
use home::{Fault, Home, Refusal};

// Writes a value, and answers the transaction's timestamp. The first write of a key holds its row. Refuses 14, 4, 9,
// 10, 1, 2, 3, 5; a 2 or 5 loses the transaction.
#[tactic(auto, unfolding(crate::specs::Calls::write_call, crate::specs::Calls::comparing_at, crate::specs::Calls::holding_at))]
pub fn write<H: Home>(
    home: &mut H,
    places: &mut [Place],
    entries: &mut [Entry<H::Value>],
    place: u32,
    key: u32,
    value: H::Value,
) -> Result<u64, Fault>
    ensures answer { result ≡ (write_call (tables (H.Home.meaning home.old) places.old entries.old) place key value).answer }
    ensures home { H.Home.meaning home.new ≡ (write_call (tables (H.Home.meaning home.old) places.old entries.old) place key value).tables.home }
    ensures memory { H.Home.memory home.new ≡ H.Home.memory home.old }
    ensures places { places.new ≡ (write_call (tables (H.Home.meaning home.old) places.old entries.old) place key value).tables.places }
    ensures entries { entries.new ≡ (write_call (tables (H.Home.meaning home.old) places.old entries.old) place key value).tables.entries }
{
    let seat = enter(WRITE, places, entries.len(), place, key)?;
    let p = seat.place;
    let (number, used) = match find(seat.sheet(entries), key) {
        Some((number, entry)) => {
            if entry.written {
                entries[seat.slot(number)] = Entry { value, ..entry };
                return Ok(p.ts);
            }
            if let Some(standing) = moved_on(home, key, entry.wts) {
                let moved = fault(Refusal::MovedOn, place, key, standing);
                return Err(seat.turn_away(places, moved));
            }
            (number, p.used)
        }
        None if p.used() == 16 => return Err(fault(Refusal::SheetFull, place, key, 0)),
        None => (usize::from(p.used()), p.used() + 1),
    };
    match home.hold(key, place) {
        Ok(lease) => {
            let ts = p.ts.max(lease.rts + 1);
            entries[seat.slot(number)] = Entry {
                key,
                wts: lease.wts,
                rts: lease.rts,
                value,
                written: true,
            };
            places[seat.at] = Place { ts, used, ..p };
            Ok(ts)
        }
        Err(fault) => Err(seat.turn_away(places, fault)),
    }
}

// The version that stands, if the row is free and it is another than `wts`.
fn moved_on<H: Home>(home: &H, key: u32, wts: u64) -> Option<u64>
    ensures { result ≡ moved_on wts (looked (H.Home.meaning home.now) key) }
{
    match home.look(key) {
        Ok(row) if row.holder == 0 && row.wts != wts => Some(row.wts),
        _ => None,
    }
}
