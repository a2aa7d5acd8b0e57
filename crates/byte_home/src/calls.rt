// The calls of the byte home.
ghost use Rattle.std.specs.Prelude.{◌≡◌, ◌/◌, ◌<◌, true, length, slice_set, refl};
ghost use Rattle.home.specs.Rows.{answer_of};
ghost use Rattle.home.specs.Meaning.{after, changed, fair};
ghost use Rattle.home.proofs.Tables.{mapped_sound};
ghost use Rattle.byte_home.specs.Bytes.{read_rows, valued, word_rows};
ghost use Rattle.byte_home.specs.Meanings.{byte_home_meaning, byte_home_memory};

use crate::ByteHome;
use crate::row_bytes::{BYTE_LAST, ROW_BYTES, join_row, revalued, row_at, words_of};
use home::{Cause, Change, Home, Lease, Refusal, Row};
use kinds::Kind;

impl<'a, K: Kind> Home for ByteHome<'a, K> {
    type Value = K;

    ghost meaning = { byte_home_meaning K.Kind.reading };

    ghost memory = { byte_home_memory };

    fn count(&self) -> u32 {
        if self.passed {
            (self.bytes.len() / ROW_BYTES) as u32
        } else {
            0
        }
    }

    fn last(&self) -> u64 {
        BYTE_LAST
    }

    // A word has a value, since the check has passed.
    fn fetch(&self, key: u32) -> Result<Row<K>, Cause> {
        if key >= self.count() {
            return Err(Cause::plain(Refusal::NoKey));
        }
        let row = row_at(self.bytes, key as usize);
        Ok(revalued(row, K::read(row.value)))
    }

    // The trait's clauses, written out: the check cannot yet give them to a method that takes a change of the value
    // type.
    #[tactic(auto, unfolding(home::specs::Meaning::changed))]
    fn apply(&mut self, key: u32, change: Change<K>) -> Result<Lease, Cause>
        ensures answer { result ≡ answer_of (changed (⟦<Self as Home>⟧.meaning self.old) key change) }
        ensures after { let meaning = ⟦<Self as Home>⟧.meaning in
            meaning self.new ≡ after (meaning self.old) key (changed (meaning self.old) key change) }
        ensures memory { ⟦<Self as Home>⟧.memory self.new ≡ ⟦<Self as Home>⟧.memory self.old }
    {
        change.check_place()?;
        let mut row = self.fetch(key)?;
        let lease = row.amend(change, BYTE_LAST)?;
        self.store(key, row);
        Ok(lease)
    }

    ghost sound = { λ h. mapped_sound (valued K.Kind.reading) (λ last row. refl) h.passed _ _ h.sound };
}

impl<'a, K: Kind> ByteHome<'a, K> {
    // Stores a row where it was found.
    fn store(&mut self, key: u32, row: Row<K>)
        requires passed { self.old.passed ≡ true }
        requires within { key < length self.old.bytes.now / 17 }
        requires fair { fair 4294967295 row ≡ true }
        ensures rows { let read = read_rows K.Kind.reading in
            read self.new.bytes.now ≡ slice_set (read self.old.bytes.now) key row }
        ensures rest { (self.new.bytes.ghost_name ≡ self.old.bytes.ghost_name) × (self.new.passed ≡ self.old.passed) }
    {
        let at = key as usize * ROW_BYTES;
        let new = join_row(words_of(row));
        self.bytes[at..at + ROW_BYTES].copy_from_slice(&new);
    }
}
