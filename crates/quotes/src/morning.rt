// A whole morning of orders.
ghost use Rattle.std.specs.Prelude.{◌≡◌};
ghost use Rattle.split_home.specs.Splits.{split_check};
ghost use Rattle.quotes.specs.Days.{Served, Tables, curve_check, day, far_home, near_home, no_tally};
ghost use Rattle.quotes.specs.Days.{morning, morning_answer};

use crate::order::Order;
use crate::serve::serve_order;
use crate::tally::Tally;
use byte_home::{BYTE_LAST, ByteHome};
use home::{Fault, Home, Row};
use kinds::Node;
use row_home::RowHome;
use split_home::SplitHome;

// Serves the orders one after another, and counts what was done and refused.
pub fn serve_all<H: Home<Value = Node>>(home: &mut H, orders: &[Order]) -> Tally
    ensures tally { result ≡ (day (record { home = H.Home.meaning home.old; tally = no_tally }) orders.now).tally }
    ensures home { H.Home.meaning home.new
        ≡ (day (record { home = H.Home.meaning home.old; tally = no_tally }) orders.now).home }
    ensures memory { H.Home.memory home.new ≡ H.Home.memory home.old }
{
    let mut tally = Tally::new();
    for order in orders {
        let answer = serve_order(home, *order);
        tally.count(answer);
    }
    tally
}

// Serves the orders over two homes side by side, as one curve. Refuses 16 or 19 where they do not go together, and
// then alters nothing.
#[tactic(auto, unfolding(crate::specs::Days::morning))]
pub fn serve_both<L: Home<Value = Node>, R: Home<Value = Node>>(
    left: &mut L,
    right: &mut R,
    orders: &[Order],
) -> Result<Tally, Fault>
    ensures answer { let l = L.Home.meaning left.old in let r = R.Home.meaning right.old in
        result ≡ morning_answer (split_check l r) (morning l r orders.now) }
    ensures served { let l = L.Home.meaning left.old in let r = R.Home.meaning right.old in
        Served (split_check l r) (morning l r orders.now) l (L.Home.meaning left.new) (R.Home.meaning right.new)
        ((left.new ≡ left.old) × (right.new ≡ right.old)) }
    ensures memory { (L.Home.memory left.new ≡ L.Home.memory left.old)
        × (R.Home.memory right.new ≡ R.Home.memory right.old) }
{
    SplitHome::check(left, right)?;
    let mut home = SplitHome::make(left, right);
    Ok(serve_all(&mut home, orders))
}

// Opens the curve over the two tables, rows at the near end and bytes at the far end, and serves the orders.
// When it answers, the homes have ended and the tables hold what they meant. Refuses 16, 17 or 19 where the
// curve cannot be opened, and then alters nothing.
#[tactic(auto, unfolding(crate::specs::Days::curve_check, crate::specs::Days::morning))]
pub fn run_morning(near: &mut [Row<Node>], far: &mut [u8], orders: &[Order]) -> Result<Tally, Fault>
    ensures answer { let whole = morning (near_home near.old) (far_home far.old) orders.now in
        result ≡ morning_answer (curve_check near.old far.old) whole }
    ensures tables { let whole = morning (near_home near.old) (far_home far.old) orders.now in
        Tables (curve_check near.old far.old) whole near.old near.new far.old far.new }
{
    RowHome::check(near, BYTE_LAST)?;
    ByteHome::<Node>::check(far)?;
    let mut left = RowHome::make(near, BYTE_LAST);
    let mut right = ByteHome::<Node>::make(far);
    serve_both(&mut left, &mut right, orders)
}
