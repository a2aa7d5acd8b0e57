// The byte home: it works in the caller's bytes, seventeen to a row, where a key is a row's number.
#![tactic(auto)]

ghost use Rattle.std.specs.Prelude.{◌≡◌, true};
ghost use Rattle.home.specs.Meaning.{is_sound};
ghost use Rattle.byte_home.specs.Bytes.{word_rows};
ghost use Rattle.home.specs.Opening.{table_meaning};

use std::marker::PhantomData;

mod calls;
mod making;
mod row_bytes;

pub use row_bytes::{BYTE_LAST, pack_row, unpack_row};

// A home in a table of bytes. One that failed its check has no keys.
#[derive(Drop)]
pub struct ByteHome<'a, K> {
    bytes: &'a mut [u8],
    // A flag, and no Option of the table: a home without keys keeps the table too, so that its owner knows what it
    // holds afterwards.
    passed: bool,
    kind: PhantomData<K>,
    ghost sound: { is_sound (table_meaning passed 4294967295 (word_rows bytes.now)) ≡ true },
}
