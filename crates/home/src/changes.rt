// Any change of any home, and what holds of each.
ghost use Rattle.std.specs.Prelude.{◌≡◌};
ghost use Rattle.home.specs.Laws.{Lawful};
ghost use Rattle.home.specs.Meaning.{after, answer, changed, nothing, place_of};

use crate::fault::Fault;
use crate::home::Home;
use crate::row::Change;

// Makes the call that the change stands for. Refuses as that call does.
//
// Whatever the change, and on any home, the clause `law` says in plain words what it may do and may not.
pub fn amend<H: Home>(home: &mut H, key: u32, change: Change<H::Value>) -> Result<(), Fault>
    ensures answer { result ≡ answer nothing (place_of change) key (changed (H.Home.meaning home.old) key change) }
    ensures after { H.Home.meaning home.new ≡ after (H.Home.meaning home.old) key (changed (H.Home.meaning home.old) key change) }
    ensures memory { H.Home.memory home.new ≡ H.Home.memory home.old }
    ensures law { Lawful (H.Home.meaning home.old) (H.Home.meaning home.new) key change result }
{
    home.apply(key, change)
        .map(|_| ())
        .map_err(|cause| cause.at(change.place(), key))
}
