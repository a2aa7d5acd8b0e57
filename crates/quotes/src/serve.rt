// The orders, each by calls of the home.
ghost use Rattle.std.specs.Prelude.{◌≡◌};
ghost use Rattle.home.specs.Meaning.{after, answer, end_of};
ghost use Rattle.quotes.specs.Orders.{kept, quoted, served, told, withdrawn};

use crate::order::Order;
use home::{Change, Fault, Home, amend};
use kinds::Node;

// Quotes a new rate: holds the node, and writes it with its day at the first timestamp past its lease, which is
// answered. Refuses as hold does.
#[tactic(auto, unfolding(crate::specs::Orders::quoted, home::specs::Meaning::changed, home::specs::Meaning::looked))]
pub fn quote<H: Home<Value = Node>>(
    home: &mut H,
    place: u32,
    key: u32,
    rate: i32,
) -> Result<u64, Fault>
    ensures answer { result ≡ answer end_of place key (quoted (H.Home.meaning home.old) key place rate) }
    ensures after { let m = H.Home.meaning home.old in H.Home.meaning home.new ≡ after m key (quoted m key place rate) }
    ensures memory { H.Home.memory home.new ≡ H.Home.memory home.old }
{
    let lease = home.hold(key, place)?;
    let t = lease.rts + 1;
    let row = home.look(key)?;
    home.put(key, place, row.value.with_rate(rate), t)?;
    Ok(t)
}

// Begins to quote and gives up: holds the node and frees it. Answers where its lease ends.
#[tactic(auto, unfolding(crate::specs::Orders::withdrawn, home::specs::Meaning::changed))]
pub fn withdraw<H: Home<Value = Node>>(home: &mut H, place: u32, key: u32) -> Result<u64, Fault>
    ensures answer { result ≡ answer end_of place key (withdrawn (H.Home.meaning home.old) key place) }
    ensures after { let m = H.Home.meaning home.old in H.Home.meaning home.new ≡ after m key (withdrawn m key place) }
    ensures memory { H.Home.memory home.new ≡ H.Home.memory home.old }
{
    let lease = home.hold(key, place)?;
    home.free(key, place)?;
    Ok(lease.rts)
}

// Makes the standing quote last until `t`, and answers where its lease then ends.
#[tactic(auto, unfolding(crate::specs::Orders::kept, home::specs::Meaning::changed, home::specs::Meaning::looked))]
pub fn keep<H: Home<Value = Node>>(home: &mut H, key: u32, t: u64) -> Result<u64, Fault>
    ensures answer { result ≡ answer end_of 0 key (kept (H.Home.meaning home.old) key t) }
    ensures after { let m = H.Home.meaning home.old in H.Home.meaning home.new ≡ after m key (kept m key t) }
    ensures memory { H.Home.memory home.new ≡ H.Home.memory home.old }
{
    let row = home.look(key)?;
    home.renew(key, row.wts, t, t)
}

// Does what an order says, by the calls of the home.
pub fn serve_order<H: Home<Value = Node>>(home: &mut H, order: Order) -> Result<(), Fault>
    ensures answer { result ≡ told (H.Home.meaning home.old) order }
    ensures after { H.Home.meaning home.new ≡ served (H.Home.meaning home.old) order }
    ensures memory { H.Home.memory home.new ≡ H.Home.memory home.old }
{
    match order {
        Order::Quote { place, key, rate } => quote(home, place, key, rate).map(|_| ()),
        Order::Withdraw { place, key } => withdraw(home, place, key).map(|_| ()),
        Order::Take { place, key } => amend(home, key, Change::Hold { place }),
        Order::Release { place, key } => amend(home, key, Change::Free { place }),
        Order::Keep { key, t } => keep(home, key, t).map(|_| ()),
    }
}
