// The opening of the coordinator.
ghost use Rattle.std.specs.Prelude.{◌≡◌, ◌≤◌, ◌++◌, map, length, take, drop, OnOk};
ghost use Rattle.home.specs.Meaning.{Sound};
ghost use Rattle.coordinator.specs.Calls.{freed, held_from, opening};

use crate::enter::{FREE, check_tables, fault};
use crate::tables::{Entry, Place};
use home::{Fault, Home, Refusal};

// Makes the tables ready: every place is free and no transaction has decided. Refuses 14, and 18 with the first held
// key and its holder. The crate `serial` has it once more, with the law that builds on the rules of all eight calls.
#[tactic(auto, unfolding(crate::specs::Calls::opening))]
pub fn open_tables<H: Home>(
    home: &H,
    places: &mut [Place],
    entries: &[Entry<H::Value>],
    counter: &mut u32,
) -> Result<(), Fault>
    ensures answer { result ≡ (opening (H.Home.meaning home.now) places.old (length entries.now) counter.old).answer }
    ensures places { places.new ≡ (opening (H.Home.meaning home.now) places.old (length entries.now) counter.old).places }
    ensures counter { counter.new ≡ (opening (H.Home.meaning home.now) places.old (length entries.now) counter.old).counter }
    ensures sound { OnOk result (Sound (H.Home.meaning home.now)) }
{
    check_tables(places, entries.len(), 0, 0)?;
    if let Some((key, holder)) = first_held(home) {
        return Err(fault(Refusal::NotClean, 0, key, u64::from(holder)));
    }
    free_places(&mut places[..64]);
    *counter = 0;
    Ok(())
}

// The first key that somebody holds, with its holder.
fn first_held<H: Home>(home: &H) -> Option<(u32, u32)>
    ensures { result ≡ held_from 0 (H.Home.meaning home.now).rows }
{
    // By key, since a home has no slice of rows; a loop that stops at the first, as the checks of all openings are.
    for key in 0..home.count() {
        match home.fetch(key) {
            Ok(row) if row.holder != 0 => return Some((key, row.holder)),
            _ => {}
        }
    }
    None
}

// Frees these places.
fn free_places(places: &mut [Place])
    ensures { places.new ≡ map freed places.old }
{
    for place in places.iter_mut() {
        place.state = FREE;
    }
}
