// The home trait: one meaning for every make.
ghost use Rattle.std.specs.Prelude.{◌≡◌, length};
ghost use Rattle.std.specs.List.{slice_get};
ghost use Rattle.home.specs.Meaning.{Meaning, Sound, after, answer, changed, end_of, found, looked, nothing};
ghost use Rattle.home.specs.Rows.{answer_of, lease_of};
ghost use Rattle.home.specs.Memory.{Memory};

use crate::fault::Fault;
use crate::row::{Cause, Change, Lease, Row};

// A table of rows with leases, whatever memory it lies in. A key is a row's number, from 0 on; a place is the number,
// 1 to 64, of one who may hold rows to write them. A refused call alters nothing.
//
// A make says how many rows it has, its last timestamp, where a row is and how one is changed (`count`, `last`,
// `fetch`, `apply`); the five calls are the same for all, and take the fields of a change, so that their callers make
// none. An `apply` for all would need a method that stores any row, open to every caller.
pub trait Home {
    type Value: Copy;

    // The rows and the last timestamp that the home stands for.
    ghost meaning: { Self → Meaning Self.Value };

    // The caller's memory in which the home works, and what of it no call alters. A clause of every call that alters
    // the home, since it speaks of before and after.
    ghost memory: { Self → Memory Self.Value };

    // The number of keys, at most 65,535.
    fn count(&self) -> u32
        ensures { result ≡ length (meaning self.now).rows };

    // The last timestamp that a lease of this home can reach.
    fn last(&self) -> u64
        ensures { result ≡ (meaning self.now).last };

    // The row of a key, or the cause of refusal 1.
    fn fetch(&self, key: u32) -> Result<Row<Self::Value>, Cause>
        ensures { result ≡ found (slice_get (meaning self.now).rows key) };

    // Makes a change to the row of a key, and answers the lease that then stands: the change's place is tested
    // first, then the key, then the row's own rule.
    fn apply(&mut self, key: u32, change: Change<Self::Value>) -> Result<Lease, Cause>
        ensures answer { result ≡ answer_of (changed (meaning self.old) key change) }
        ensures after { meaning self.new ≡ after (meaning self.old) key (changed (meaning self.old) key change) }
        ensures memory { memory self.new ≡ memory self.old };

    // The row of a key. Refuses 1.
    #[tactic(auto, unfolding(crate::specs::Meaning::looked))]
    fn look(&self, key: u32) -> Result<Row<Self::Value>, Fault>
        ensures { result ≡ looked (meaning self.now) key }
    {
        self.fetch(key).map_err(|cause| cause.at(0, key))
    }

    // Gives the row to a place that wants to write it, and answers its lease. Refuses 4, 1, 2, 3.
    fn hold(&mut self, key: u32, place: u32) -> Result<Lease, Fault>
        ensures answer { result ≡ answer lease_of place key (changed (meaning self.old) key (Change.Hold place)) }
        ensures after { meaning self.new ≡ after (meaning self.old) key (changed (meaning self.old) key (Change.Hold place)) }
        ensures memory { memory self.new ≡ memory self.old }
    {
        self.apply(key, Change::Hold { place })
            .map_err(|cause| cause.at(place, key))
    }

    // Makes the lease of the version `wts` reach `t`, by setting its end to `wish` where it falls short, and
    // answers where it ends. Refuses 1, 3, 5, 2.
    fn renew(&mut self, key: u32, wts: u64, t: u64, wish: u64) -> Result<u64, Fault>
        ensures answer { result ≡ answer end_of 0 key (changed (meaning self.old) key (Change.Renew wts t wish)) }
        ensures after { meaning self.new ≡ after (meaning self.old) key (changed (meaning self.old) key (Change.Renew wts t wish)) }
        ensures memory { memory self.new ≡ memory self.old }
    {
        self.apply(key, Change::Renew { wts, t, wish })
            .map(|lease| lease.rts)
            .map_err(|cause| cause.at(0, key))
    }

    // Writes the value at `t` for the place that holds the row, and ends the hold. Refuses 4, 1, 6, 3, 7.
    fn put(&mut self, key: u32, place: u32, value: Self::Value, t: u64) -> Result<(), Fault>
        ensures answer { result ≡ answer nothing place key (changed (meaning self.old) key (Change.Put place value t)) }
        ensures after { meaning self.new ≡ after (meaning self.old) key (changed (meaning self.old) key (Change.Put place value t)) }
        ensures memory { memory self.new ≡ memory self.old }
    {
        self.apply(key, Change::Put { place, value, t })
            .map(|_| ())
            .map_err(|cause| cause.at(place, key))
    }

    // Ends the hold of a place with nothing written. Refuses 4, 1, 6.
    fn free(&mut self, key: u32, place: u32) -> Result<(), Fault>
        ensures answer { result ≡ answer nothing place key (changed (meaning self.old) key (Change.Free place)) }
        ensures after { meaning self.new ≡ after (meaning self.old) key (changed (meaning self.old) key (Change.Free place)) }
        ensures memory { memory self.new ≡ memory self.old }
    {
        self.apply(key, Change::Free { place })
            .map(|_| ())
            .map_err(|cause| cause.at(place, key))
    }

    // The conditions on a home hold of every home.
    ghost sound: { (h : Self) → Sound (meaning h) };
}
