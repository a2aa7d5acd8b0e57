// What every call tests first, and what a refusal after that leaves.
ghost use Rattle.std.specs.Prelude.{◌≡◌, ◌+◌, ◌<◌, ◌≤◌, length, Ok, Err, IfOk, OnOk, if◌then◌else◌};
ghost use Rattle.home.specs.declared.fault.Refusal.TheVariants.{ShortTable};
ghost use Rattle.coordinator.specs.Calls.{lost_if};
ghost use Rattle.coordinator.specs.Tables.{admitted, answered, entered, fault_of, is_short};

use crate::tables::Place;
use home::{Fault, Layer, Refusal};

// The calls by their codes, and the states of a place. They are numbers and no enums, since which calls a state
// admits is one match by ranges, and any number may stand for a state in the caller's table.
pub(crate) const BEGIN: u8 = 1;

pub(crate) const READ: u8 = 2;

pub(crate) const WRITE: u8 = 3;

pub(crate) const FREEZE: u8 = 4;

pub(crate) const RENEW: u8 = 5;

pub(crate) const DECIDE: u8 = 6;

pub(crate) const SETTLE: u8 = 7;

pub(crate) const ABORT: u8 = 8;

pub(crate) const FREE: u8 = 0;

pub(crate) const OPEN: u8 = 1;

pub(crate) const FROZEN: u8 = 2;

pub(crate) const LOSING: u8 = 3;

pub(crate) const WINNING: u8 = 4;

// A refusal of the coordinator's own.
pub(crate) fn fault(refusal: Refusal, place: u32, key: u32, detail: u64) -> Fault
    ensures { result ≡ fault_of refusal place key detail }
{
    Fault {
        refusal,
        layer: Layer::Coordinator,
        place,
        key,
        detail,
    }
}

// A place that may make its call: its index in the table, and what stands there.
#[derive(Clone, Copy)]
pub(crate) struct Seat {
    pub(crate) at: usize,
    pub(crate) place: Place,
    ghost within: { at < 64 },
}

// The seat of a call that may be made in the state of its place. Refuses 14, 4, and 8 or 9, with the place and key that
// the caller gave: so they come beside the tables.
#[tactic(auto, unfolding(crate::specs::Tables::entered))]
pub(crate) fn enter(
    code: u8,
    places: &[Place],
    entries: usize,
    place: u32,
    key: u32,
) -> Result<Seat, Fault>
    ensures answer { answered (λ seat. seat.place) result ≡ entered code places.now entries place key }
    ensures index { IfOk result (λ seat. seat.at + 1 ≡ place) }
    ensures within { OnOk result ((64 ≤ length places.now) × (1024 ≤ entries)) }
{
    check_tables(places, entries, place, key)?;
    match place {
        1..=64 => {
            let at = place as usize - 1;
            let place = admit(code, places[at], place, key)?;
            Ok(Seat { at, place })
        }
        _ => Err(fault(Refusal::NoPlace, place, key, 0)),
    }
}

// Refuses 14 unless there are 64 places and 1,024 entries.
pub(crate) fn check_tables(
    places: &[Place],
    entries: usize,
    place: u32,
    key: u32,
) -> Result<(), Fault>
    ensures answer { result ≡ (if is_short (length places.now) entries then Err (fault_of ShortTable place key 0) else Ok tt) }
    ensures within { OnOk result ((64 ≤ length places.now) × (1024 ≤ entries)) }
{
    if places.len() < 64 || entries < 1024 {
        Err(fault(Refusal::ShortTable, place, key, 0))
    } else {
        Ok(())
    }
}

// Whether a call may be made in the state of its place.
fn admit(code: u8, p: Place, place: u32, key: u32) -> Result<Place, Fault>
    ensures { result ≡ admitted code place key p }
{
    match (code, p.state) {
        (BEGIN, FREE) => Ok(p),
        (READ..=FREEZE, OPEN) => Ok(p),
        (RENEW..=DECIDE, FROZEN) => Ok(p),
        (SETTLE, LOSING..=WINNING) => Ok(p),
        (ABORT, OPEN..=FROZEN) => Ok(p),
        (code, state) if code == BEGIN => Err(fault(
            Refusal::PlaceTaken,
            place,
            key,
            u64::from(state),
        )),
        (_, state) => Err(fault(Refusal::WrongState, place, key, u64::from(state))),
    }
}

impl Seat {
    // The fault of a call that is refused after its state was tested: 2 and 5 lose the transaction, others alter
    // nothing. Called in a `match` and not in `map_err`, after which a proof does not know the places.
    pub(crate) fn turn_away(self, places: &mut [Place], fault: Fault) -> Fault
        requires { 64 ≤ length places.old }
        ensures answer { result ≡ fault }
        ensures places { places.new ≡ lost_if fault places.old (self.at + 1) self.place }
    {
        match fault.refusal {
            Refusal::Held | Refusal::MovedOn => places[self.at] = self.place.moved_to(LOSING),
            _ => {}
        }
        fault
    }
}
