// Any of the eight calls, by a value that says which.
ghost use Rattle.std.specs.Prelude.{◌≡◌};
ghost use Rattle.serial.specs.Events.{answer_of, stepped, store};
ghost use Rattle.serial.specs.Laws.{Lawful};

use coordinator::{
    Answer, Call, Entry, Place, abort, begin, decide, freeze, read, renew, settle, write,
};
use home::{Fault, Home};

// Makes the call, and answers what it answers. Refuses as that call does. The tables are lent one by one, as for each
// call: a struct of them would add a clause to the contract for the name of each reference.
//
// Whatever the call, the clause `law` says in plain words what a refusal leaves and what a call may alter.
pub fn perform<H: Home>(
    home: &mut H,
    places: &mut [Place],
    entries: &mut [Entry<H::Value>],
    counter: &mut u32,
    call: Call<H::Value>,
) -> Result<Answer<H::Value>, Fault>
    ensures answer { result ≡ answer_of (stepped (store (H.Home.meaning home.old) places.old entries.old counter.old) call).event }
    ensures home { H.Home.meaning home.new ≡ (stepped (store (H.Home.meaning home.old) places.old entries.old counter.old) call).store.tables.home }
    ensures memory { H.Home.memory home.new ≡ H.Home.memory home.old }
    ensures places { places.new ≡ (stepped (store (H.Home.meaning home.old) places.old entries.old counter.old) call).store.tables.places }
    ensures entries { entries.new ≡ (stepped (store (H.Home.meaning home.old) places.old entries.old counter.old) call).store.tables.entries }
    ensures counter { counter.new ≡ (stepped (store (H.Home.meaning home.old) places.old entries.old counter.old) call).store.counter }
    ensures law { Lawful (store (H.Home.meaning home.old) places.old entries.old counter.old) call }
{
    make(home, places, entries, counter, call)
}

// The call by its own rule: apart from `perform`, so that the law is shown once and not for each call. Closures make
// the answers, since a constructor that names the value type in its result alone is not lent to `map` yet.
#[tactic(auto, unfolding(crate::specs::Events::stepped))]
fn make<H: Home>(
    home: &mut H,
    places: &mut [Place],
    entries: &mut [Entry<H::Value>],
    counter: &mut u32,
    call: Call<H::Value>,
) -> Result<Answer<H::Value>, Fault>
    ensures answer { result ≡ answer_of (stepped (store (H.Home.meaning home.old) places.old entries.old counter.old) call).event }
    ensures home { H.Home.meaning home.new ≡ (stepped (store (H.Home.meaning home.old) places.old entries.old counter.old) call).store.tables.home }
    ensures memory { H.Home.memory home.new ≡ H.Home.memory home.old }
    ensures places { places.new ≡ (stepped (store (H.Home.meaning home.old) places.old entries.old counter.old) call).store.tables.places }
    ensures entries { entries.new ≡ (stepped (store (H.Home.meaning home.old) places.old entries.old counter.old) call).store.tables.entries }
    ensures counter { counter.new ≡ (stepped (store (H.Home.meaning home.old) places.old entries.old counter.old) call).store.counter }
{
    match call {
        Call::Begin { place } => begin(places, entries, place).map(|()| Answer::Done),
        Call::Read { place, key } => read(home, places, entries, place, key).map(Answer::Value),
        Call::Write { place, key, value } => {
            write(home, places, entries, place, key, value).map(|ts| Answer::Time(ts))
        }
        Call::Freeze { place } => freeze(places, entries, place).map(|ts| Answer::Time(ts)),
        Call::Renew { place } => renew(home, places, entries, place).map(|left| Answer::Left(left)),
        Call::Decide { place } => decide(places, entries, counter, place).map(
            |commit| Answer::Committed(commit.0, commit.1),
        ),
        Call::Settle { place } => settle(home, places, entries, place).map(
            |settled| Answer::Settled(settled.0, settled.1),
        ),
        Call::Abort { place } => abort(places, entries, place).map(|()| Answer::Done),
    }
}
