// renew: one entry of a frozen transaction, whose lease has to reach the transaction's timestamp.
ghost use Rattle.std.specs.Prelude.{◌≡◌};
ghost use Rattle.home.specs.Meaning.{after, answer, end_of};
ghost use Rattle.coordinator.specs.Calls.{lengthened, renew_call, stretch_of};
ghost use Rattle.coordinator.specs.Tables.{tables};

use crate::enter::{RENEW, enter, fault};
use crate::tables::{Entry, Place};
use home::{Fault, Home, Refusal};

// Makes sure that the entry at the cursor stands at the transaction's timestamp, and answers how many entries are left.
// Refuses 14, 4, 9, 11, 1, 2, 3, 5; a 2 or 5 loses the transaction.
#[tactic(auto, unfolding(crate::specs::Calls::renew_call, crate::specs::Calls::renewing_at))]
pub fn renew<H: Home>(
    home: &mut H,
    places: &mut [Place],
    entries: &mut [Entry<H::Value>],
    place: u32,
) -> Result<u8, Fault>
    ensures answer { result ≡ (renew_call (tables (H.Home.meaning home.old) places.old entries.old) place).answer }
    ensures home { H.Home.meaning home.new ≡ (renew_call (tables (H.Home.meaning home.old) places.old entries.old) place).tables.home }
    ensures memory { H.Home.memory home.new ≡ H.Home.memory home.old }
    ensures places { places.new ≡ (renew_call (tables (H.Home.meaning home.old) places.old entries.old) place).tables.places }
    ensures entries { entries.new ≡ (renew_call (tables (H.Home.meaning home.old) places.old entries.old) place).tables.entries }
{
    let seat = enter(RENEW, places, entries.len(), place, 0)?;
    let p = seat.place;
    let Some(entry) = seat.at_cursor(entries) else {
        return Err(fault(Refusal::NoneLeft, place, 0, 0));
    };
    if !entry.written && p.ts > entry.rts {
        match lengthen(home, entry, p.ts) {
            Ok(rts) => {
                entries[seat.slot(usize::from(p.cursor()))] = Entry { rts, ..entry };
            }
            Err(fault) => return Err(seat.turn_away(places, Fault { place, ..fault })),
        }
    }
    places[seat.at] = p.onward();
    Ok(p.left_after())
}

// Asks the home that the entry's lease reach `ts`, and answers where it then ends.
fn lengthen<H: Home>(home: &mut H, entry: Entry<H::Value>, ts: u64) -> Result<u64, Fault>
    ensures answer { result ≡ answer end_of 0 entry.key (lengthened (H.Home.meaning home.old) entry ts) }
    ensures after { H.Home.meaning home.new ≡ after (H.Home.meaning home.old) entry.key (lengthened (H.Home.meaning home.old) entry ts) }
    ensures memory { H.Home.memory home.new ≡ H.Home.memory home.old }
{
    let wish = ts.saturating_add(stretch(entry.key)).min(home.last());
    home.renew(entry.key, entry.wts, ts, wish)
}

// How much further than needed a lease of the key is stretched, by the key's class.
fn stretch(key: u32) -> u64
    ensures { result ≡ stretch_of key }
{
    match key / 4096 {
        8..=11 => 16,
        12..=15 => 128,
        _ => 0,
    }
}
