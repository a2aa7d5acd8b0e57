// The calls of the row home.
ghost use Rattle.std.specs.Prelude.{◌≡◌, ◌<◌, true, length, slice_set};
ghost use Rattle.home.specs.Rows.{answer_of};
ghost use Rattle.home.specs.Meaning.{after, changed, is_sound};
ghost use Rattle.home.proofs.Calls.{sound_parts};
ghost use Rattle.home.specs.Opening.{table_meaning};
ghost use Rattle.row_home.specs.Meanings.{row_home_meaning, row_home_memory};

use crate::RowHome;
use home::{Cause, Change, Home, Lease, Refusal, Row};

impl<'a, V: Copy> Home for RowHome<'a, V> {
    type Value = V;

    ghost meaning = { row_home_meaning };

    ghost memory = { row_home_memory };

    fn count(&self) -> u32 {
        if self.passed {
            self.rows.len() as u32
        } else {
            0
        }
    }

    fn last(&self) -> u64 {
        self.last
    }

    fn fetch(&self, key: u32) -> Result<Row<V>, Cause> {
        match self.rows.get(key as usize) {
            Some(row) if self.passed => Ok(*row),
            _ => Err(Cause::plain(Refusal::NoKey)),
        }
    }

    // The trait's clauses, written out: the check cannot yet give them to a method that takes a change of the value
    // type.
    #[tactic(auto, unfolding(home::specs::Meaning::changed))]
    fn apply(&mut self, key: u32, change: Change<V>) -> Result<Lease, Cause>
        ensures answer { result ≡ answer_of (changed (⟦<Self as Home>⟧.meaning self.old) key change) }
        ensures after { let meaning = ⟦<Self as Home>⟧.meaning in
            meaning self.new ≡ after (meaning self.old) key (changed (meaning self.old) key change) }
        ensures memory { ⟦<Self as Home>⟧.memory self.new ≡ ⟦<Self as Home>⟧.memory self.old }
    {
        change.check_place()?;
        let mut row = self.fetch(key)?;
        let lease = row.amend(change, self.last)?;
        self.store(key, row);
        Ok(lease)
    }

    ghost sound = { λ h. sound_parts (row_home_meaning h) h.sound };
}

impl<'a, V: Copy> RowHome<'a, V> {
    // Stores a row where it was found.
    fn store(&mut self, key: u32, row: Row<V>)
        requires within { key < length self.old.rows.now }
        requires sound { let rows = slice_set self.old.rows.now key row in
            is_sound (table_meaning self.old.passed self.old.last rows) ≡ true }
        ensures rows { self.new.rows.now ≡ slice_set self.old.rows.now key row }
        ensures rest { (self.new.rows.ghost_name ≡ self.old.rows.ghost_name)
            × ((self.new.last ≡ self.old.last) × (self.new.passed ≡ self.old.passed)) }
    {
        self.rows[key as usize] = row;
    }
}
