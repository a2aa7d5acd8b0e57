// The calls that alter the places alone, and the counter: begin, freeze, decide, abort. They are short, and each has a
// rule and an answer of its own, so none is made of another.
ghost use Rattle.std.specs.Prelude.{◌≡◌, length};
ghost use Rattle.coordinator.specs.Calls.{abort_turn, begin_turn, decide_turn, freeze_turn};

use crate::enter::{ABORT, BEGIN, DECIDE, FREEZE, FROZEN, LOSING, OPEN, WINNING, enter, fault};
use crate::tables::{Entry, Place};
use home::{Fault, Refusal};

// Begins a transaction at a free place. Refuses 14, 4, 8.
#[tactic(auto, unfolding(crate::specs::Calls::begin_turn))]
pub fn begin<V: Copy>(places: &mut [Place], entries: &[Entry<V>], place: u32) -> Result<(), Fault>
    ensures answer { result ≡ (begin_turn places.old (length entries.now) place).answer }
    ensures places { places.new ≡ (begin_turn places.old (length entries.now) place).places }
{
    let seat = enter(BEGIN, places, entries.len(), place, 0)?;
    places[seat.at] = Place {
        state: OPEN,
        ts: 0,
        used: 0,
        cursor: 0,
    };
    Ok(())
}

// Ends the reads and writes of an open place, and answers its timestamp. Refuses 14, 4, 9.
#[tactic(auto, unfolding(crate::specs::Calls::freeze_turn))]
pub fn freeze<V: Copy>(places: &mut [Place], entries: &[Entry<V>], place: u32) -> Result<u64, Fault>
    ensures answer { result ≡ (freeze_turn places.old (length entries.now) place).answer }
    ensures places { places.new ≡ (freeze_turn places.old (length entries.now) place).places }
{
    let seat = enter(FREEZE, places, entries.len(), place, 0)?;
    places[seat.at] = seat.place.moved_to(FROZEN);
    Ok(seat.place.ts)
}

// Gives up an open or frozen transaction, which then has to settle. Refuses 14, 4, 9.
#[tactic(auto, unfolding(crate::specs::Calls::abort_turn))]
pub fn abort<V: Copy>(places: &mut [Place], entries: &[Entry<V>], place: u32) -> Result<(), Fault>
    ensures answer { result ≡ (abort_turn places.old (length entries.now) place).answer }
    ensures places { places.new ≡ (abort_turn places.old (length entries.now) place).places }
{
    let seat = enter(ABORT, places, entries.len(), place, 0)?;
    places[seat.at] = seat.place.moved_to(LOSING);
    Ok(())
}

// Commits a frozen transaction whose entries are all renewed, and answers its commit timestamp and commit number.
// Refuses 14, 4, 9, 12, 13.
#[tactic(auto, unfolding(crate::specs::Calls::decide_turn))]
pub fn decide<V: Copy>(
    places: &mut [Place],
    entries: &[Entry<V>],
    counter: &mut u32,
    place: u32,
) -> Result<(u64, u32), Fault>
    ensures answer { result ≡ (decide_turn places.old (length entries.now) counter.old place).answer }
    ensures places { places.new ≡ (decide_turn places.old (length entries.now) counter.old place).places }
    ensures counter { counter.new ≡ (decide_turn places.old (length entries.now) counter.old place).counter }
{
    let seat = enter(DECIDE, places, entries.len(), place, 0)?;
    let p = seat.place;
    if p.cursor() < p.used() {
        return Err(fault(Refusal::Unchecked, place, 0, 0));
    }
    if *counter >= MAX_COUNTER {
        return Err(fault(Refusal::DayFull, place, 0, 0));
    }
    let number = *counter + 1;
    places[seat.at] = p.moved_to(WINNING);
    *counter = number;
    Ok((p.ts, number))
}

// The most transactions that decide between two openings.
pub const MAX_COUNTER: u32 = 999_999;
