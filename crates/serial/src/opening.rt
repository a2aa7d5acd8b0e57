// The opening of the coordinator, and the law of what follows it.
ghost use Rattle.std.specs.Prelude.{◌≡◌, length, OnOk};
ghost use Rattle.coordinator.specs.Calls.{opening};
ghost use Rattle.serial.specs.Events.{store};
ghost use Rattle.serial.specs.Serial.{SerialFrom};

use coordinator::{Entry, Place};
use home::{Fault, Home};

// Makes the tables ready: every place is free and no transaction has decided. Refuses 14, and 18 with the first held
// key and its holder. It is the coordinator's opening once more, since the law is made of the rules of all eight calls.
//
// Once it is accepted, the clause `serial` holds of every list of the eight calls that follows: run one at a time in
// commit order, the decided transactions read what they were answered and leave the home's values.
pub fn open_tables<H: Home>(
    home: &H,
    places: &mut [Place],
    entries: &[Entry<H::Value>],
    counter: &mut u32,
) -> Result<(), Fault>
    ensures answer { result ≡ (opening (H.Home.meaning home.now) places.old (length entries.now) counter.old).answer }
    ensures places { places.new ≡ (opening (H.Home.meaning home.now) places.old (length entries.now) counter.old).places }
    ensures counter { counter.new ≡ (opening (H.Home.meaning home.now) places.old (length entries.now) counter.old).counter }
    ensures serial { OnOk result (SerialFrom (store (H.Home.meaning home.now) places.new entries.now counter.new)) }
{
    coordinator::open_tables(home, places, entries, counter)
}
