// The calls of the split home.
ghost use Rattle.std.specs.Prelude.{◌≡◌};
ghost use Rattle.home.specs.Rows.{answer_of};
ghost use Rattle.home.specs.Meaning.{after, changed};
ghost use Rattle.home.proofs.TwoHomes.{both_sound};
ghost use Rattle.split_home.specs.Splits.{side_of, split_meaning, split_memory};

use crate::{Side, SplitHome};
use home::{Cause, Change, Home, Lease, Refusal, Row};

impl<'a, 'b, L: Home, R: Home<Value = L::Value>> Home for SplitHome<'a, 'b, L, R> {
    type Value = L::Value;

    ghost meaning = { λ h. split_meaning (L.Home.meaning h.left.now) (R.Home.meaning h.right.now) };

    ghost memory = { λ h. split_memory h.left.ghost_name (L.Home.memory h.left.now)
        h.right.ghost_name (R.Home.memory h.right.now)
        (L.Home.meaning h.left.now) (R.Home.meaning h.right.now) };

    fn count(&self) -> u32 {
        match self.counts {
            Some((left, right)) => left + right,
            None => 0,
        }
    }

    fn last(&self) -> u64 {
        self.left.last()
    }

    fn fetch(&self, key: u32) -> Result<Row<L::Value>, Cause> {
        match self.side(key)? {
            Side::Left => self.left.fetch(key),
            Side::Right(own) => self.right.fetch(own),
        }
    }

    // The trait's clauses, written out: the check cannot yet give them to a method that takes a change of the value
    // type. Inlined, since a change with a large value would otherwise be copied at each split on its way down.
    #[inline(always)]
    #[tactic(auto, unfolding(home::specs::Meaning::changed))]
    fn apply(&mut self, key: u32, change: Change<L::Value>) -> Result<Lease, Cause>
        ensures answer { result ≡ answer_of (changed (⟦<Self as Home>⟧.meaning self.old) key change) }
        ensures after { let meaning = ⟦<Self as Home>⟧.meaning in
            meaning self.new ≡ after (meaning self.old) key (changed (meaning self.old) key change) }
        ensures memory { ⟦<Self as Home>⟧.memory self.new ≡ ⟦<Self as Home>⟧.memory self.old }
    {
        change.check_place()?;
        match self.side(key)? {
            Side::Left => self.left.apply(key, change),
            Side::Right(own) => self.right.apply(own, change),
        }
    }

    ghost sound = { λ h. both_sound _ _ (L.sound h.left.now) (R.sound h.right.now) };
}

impl<'a, 'b, L: Home, R: Home<Value = L::Value>> SplitHome<'a, 'b, L, R> {
    // Where a key lies.
    fn side(&self, key: u32) -> Result<Side, Cause>
        ensures { result ≡ side_of (L.Home.meaning self.now.left.now) (R.Home.meaning self.now.right.now) key }
    {
        match self.counts {
            Some((left, _)) if key < left => Ok(Side::Left),
            Some((left, right)) if key - left < right => Ok(Side::Right(key - left)),
            _ => Err(Cause::plain(Refusal::NoKey)),
        }
    }
}
