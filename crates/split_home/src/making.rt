// The opening of a split home: its check and its making.
ghost use Rattle.std.specs.Prelude.{◌≡◌};
ghost use Rattle.split_home.specs.Splits.{split_check, split_meaning, split_opened};

use crate::SplitHome;
use home::{Cause, Fault, Home, Refusal, check_size};

impl<'a, 'b, L: Home, R: Home<Value = L::Value>> SplitHome<'a, 'b, L, R> {
    // Tests two homes that are to go together. Refuses 16, 19.
    pub fn check(left: &L, right: &R) -> Result<(), Fault>
        ensures { result ≡ split_check (L.Home.meaning left.now) (R.Home.meaning right.now) }
    {
        check_size(left.count() as usize + right.count() as usize, true)?;
        if left.last() != right.last() {
            return Err(Cause::plain(Refusal::TwoLasts).at(0, 0));
        }
        Ok(())
    }

    // Makes one home of the two, with the rows of both, or with no keys where the check fails. Its last
    // timestamp is the left one's. It works in the two homes themselves, and alters neither by being made.
    pub fn make(left: &'a mut L, right: &'b mut R) -> SplitHome<'a, 'b, L, R>
        ensures meaning { split_meaning (L.Home.meaning result.left.now) (R.Home.meaning result.right.now)
            ≡ split_opened (L.Home.meaning left.old) (R.Home.meaning right.old) }
        ensures left { (result.left.ghost_name ≡ left.entry.ghost_name) × (result.left.now ≡ left.old) }
        ensures right { (result.right.ghost_name ≡ right.entry.ghost_name) × (result.right.now ≡ right.old) }
    {
        let counts = SplitHome::check(left, right)
            .is_ok()
            .then(|| (left.count(), right.count()));
        SplitHome {
            left,
            right,
            counts,
        }
    }
}
