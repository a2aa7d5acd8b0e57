// settle: one entry of a transaction that has won or lost, whose write is put or whose hold is freed.
ghost use Rattle.std.specs.Prelude.{◌≡◌};
ghost use Rattle.home.specs.Meaning.{after, answer, changed, nothing};
ghost use Rattle.coordinator.specs.Calls.{ending, settle_call};
ghost use Rattle.coordinator.specs.Tables.{tables};

use crate::enter::{FREE, SETTLE, WINNING, enter};
use crate::tables::{Entry, Place};
use home::{Fault, Home};

// Settles the entry at the cursor, and answers together how many are left and whether the place is free: it is once
// none was left to settle. Refuses 14, 4, 9, 1, 6, 3, 7.
#[tactic(auto, unfolding(crate::specs::Calls::settle_call))]
pub fn settle<H: Home>(
    home: &mut H,
    places: &mut [Place],
    entries: &[Entry<H::Value>],
    place: u32,
) -> Result<(u8, bool), Fault>
    ensures answer { result ≡ (settle_call (tables (H.Home.meaning home.old) places.old entries.now) place).answer }
    ensures home { H.Home.meaning home.new ≡ (settle_call (tables (H.Home.meaning home.old) places.old entries.now) place).tables.home }
    ensures memory { H.Home.memory home.new ≡ H.Home.memory home.old }
    ensures places { places.new ≡ (settle_call (tables (H.Home.meaning home.old) places.old entries.now) place).tables.places }
{
    let seat = enter(SETTLE, places, entries.len(), place, 0)?;
    let p = seat.place;
    let Some(entry) = seat.at_cursor(entries) else {
        places[seat.at] = Place { state: FREE, ..p };
        return Ok((0, true));
    };
    if entry.written {
        settle_entry(home, place, p, entry)?;
    }
    places[seat.at] = p.onward();
    Ok((p.left_after(), false))
}

// Puts what a winner has written, and frees what a loser holds.
fn settle_entry<H: Home>(
    home: &mut H,
    place: u32,
    p: Place,
    entry: Entry<H::Value>,
) -> Result<(), Fault>
    ensures answer { result ≡ answer nothing place entry.key (changed (H.Home.meaning home.old) entry.key (ending place p entry)) }
    ensures home { H.Home.meaning home.new ≡ after (H.Home.meaning home.old) entry.key (changed (H.Home.meaning home.old) entry.key (ending place p entry)) }
    ensures memory { H.Home.memory home.new ≡ H.Home.memory home.old }
{
    if p.state == WINNING {
        home.put(entry.key, place, entry.value, p.ts)
    } else {
        home.free(entry.key, place)
    }
}
