// The opening of a byte home: its check and its making.
ghost use Rattle.std.specs.Prelude.{◌≡◌, ◌/◌, ◌≤◌, [], length, is_ok, if◌then◌else◌};
ghost use Rattle.home.specs.Memory.{in_bytes};
ghost use Rattle.home.specs.Opening.{first_bad};
ghost use Rattle.byte_home.specs.Bytes.{byte_check, byte_flaw, byte_opened, word_rows};
ghost use Rattle.byte_home.specs.Meanings.{byte_home_meaning, byte_home_memory};

use crate::ByteHome;
use crate::row_bytes::{BYTE_LAST, ROW_BYTES, split_row};
use home::{Fault, Flaw, Row, check_size};
use kinds::Kind;
use std::marker::PhantomData;

impl<'a, K: Kind> ByteHome<'a, K> {
    // Tests bytes that a home is to be made of. Refuses 16, 17.
    pub fn check(bytes: &[u8]) -> Result<(), Fault>
        ensures { result ≡ byte_check K.Kind.unpacked bytes.now }
    {
        check_size(bytes.len() / ROW_BYTES, bytes.len() % ROW_BYTES == 0)?;
        check_rows::<K>(bytes)
    }

    // Makes a home of exactly these rows, or one with no keys where the check fails.
    // The home works in the bytes themselves, and alters none by being made.
    pub fn make(bytes: &'a mut [u8]) -> ByteHome<'a, K>
        ensures meaning { byte_home_meaning K.Kind.reading result ≡ byte_opened K.Kind.unpacked bytes.old }
        ensures table { (result.bytes.ghost_name ≡ bytes.entry.ghost_name) × (result.bytes.now ≡ bytes.old) }
        ensures memory { byte_home_memory result
            ≡ in_bytes bytes.entry.ghost_name (if is_ok (byte_check K.Kind.unpacked bytes.old) then [] else bytes.old) }
    {
        let passed = ByteHome::<K>::check(bytes).is_ok();
        ByteHome {
            bytes,
            passed,
            kind: PhantomData,
        }
    }
}

// Refuses 17 for the first row with a flaw; the row home's loop says why there is none for both.
fn check_rows<K: Kind>(bytes: &[u8]) -> Result<(), Fault>
    requires { length bytes.now / 17 ≤ 65535 }
    ensures { result ≡ first_bad (byte_flaw K.Kind.unpacked) 0 (word_rows bytes.now) }
{
    for (key, chunk) in bytes.chunks_exact(ROW_BYTES).enumerate() {
        let row = split_row(chunk).unwrap();
        if let Some(flaw) = flaw_of::<K>(row) {
            return Err(flaw.at(key as u32));
        }
    }
    Ok(())
}

// What is bad of a row: the lease before the holder, and the word last.
fn flaw_of<K: Kind>(row: Row<u64>) -> Option<Flaw>
    ensures { result ≡ byte_flaw K.Kind.unpacked row }
{
    row.flaw(BYTE_LAST)
        .or_else(|| K::unpack(row.value).is_none().then_some(Flaw::Word))
}
