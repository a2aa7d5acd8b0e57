// Rows as bytes: seventeen to a row, each number with its most significant byte first.
ghost use Rattle.std.specs.Prelude.{◌≡◌, ◌/◌, ◌<◌, true, false, length, if◌then◌else◌, nat_eq};
ghost use Rattle.std.specs.Prelude.{IfSome, Some, None, MatchOption};
ghost use Rattle.byte_home.specs.Bytes.{has_room, row_at, row_bytes, row_packed, row_unpacked, valued, word_row};

use home::Row;
use kinds::Kind;

// The bytes of a row: 8 for the word of its value, 4 for wts, 4 for rts, 1 for the holder.
pub(crate) const ROW_BYTES: usize = 17;

// The latest timestamp that four bytes hold: the last one of every byte home.
pub const BYTE_LAST: u64 = 4_294_967_295;

// Takes a row's bytes apart, with the word in the place of the value; none where there are not seventeen.
pub(crate) fn split_row(bytes: &[u8]) -> Option<Row<u64>>
    ensures { result ≡ (if nat_eq (length bytes.now) 17 then Some (word_row bytes.now) else None) }
{
    // One slice pattern, a rule of the project, and no parts taken off one after the other.
    let [
        w0,
        w1,
        w2,
        w3,
        w4,
        w5,
        w6,
        w7,
        wts0,
        wts1,
        wts2,
        wts3,
        rts0,
        rts1,
        rts2,
        rts3,
        holder,
    ] = bytes
    else {
        return None;
    };
    Some(Row {
        value: u64::from_be_bytes([*w0, *w1, *w2, *w3, *w4, *w5, *w6, *w7]),
        wts: u64::from(u32::from_be_bytes([*wts0, *wts1, *wts2, *wts3])),
        rts: u64::from(u32::from_be_bytes([*rts0, *rts1, *rts2, *rts3])),
        holder: u32::from(*holder),
    })
}

// Puts a row's bytes together: by `as`, since both callers know that the numbers fit.
pub(crate) fn join_row(row: Row<u64>) -> [u8; ROW_BYTES]
    requires { has_room row ≡ true }
    ensures { result ≡ row_bytes row }
{
    let mut bytes = [0; ROW_BYTES];
    bytes[..8].copy_from_slice(&row.value.to_be_bytes());
    bytes[8..12].copy_from_slice(&(row.wts as u32).to_be_bytes());
    bytes[12..16].copy_from_slice(&(row.rts as u32).to_be_bytes());
    bytes[16] = row.holder as u8;
    bytes
}

// The row of a key in a table of bytes.
pub(crate) fn row_at(bytes: &[u8], key: usize) -> Row<u64>
    requires { key < length bytes.now / 17 }
    ensures { result ≡ row_at bytes.now key }
{
    let at = key * ROW_BYTES;
    split_row(&bytes[at..at + ROW_BYTES]).unwrap()
}

// The row with another value, field by field: `..row` cannot change the value's type.
pub(crate) fn revalued<V: Copy, W: Copy>(row: Row<V>, value: W) -> Row<W>
    ensures { result ≡ valued (λ _. value) row }
{
    Row {
        value,
        wts: row.wts,
        rts: row.rts,
        holder: row.holder,
    }
}

// The row with its value's word in the place of the value.
pub(crate) fn words_of<K: Kind>(row: Row<K>) -> Row<u64>
    ensures words { result ≡ valued K.Kind.packed row }
    ensures again { K.Kind.unpacked result.value ≡ Some row.value }
{
    revalued(row, row.value.pack())
}

// The bytes of a row; none where a timestamp is past 4,294,967,295 or the holder past 255.
// Unpacking them gives the row again.
pub fn pack_row<K: Kind>(row: Row<K>) -> Option<[u8; ROW_BYTES]>
    ensures bytes { result ≡ row_packed K.Kind.packed row }
    ensures again { MatchOption result (has_room row ≡ false) (λ bytes. row_unpacked K.Kind.unpacked bytes ≡ Some row) }
{
    if row.wts > BYTE_LAST || row.rts > BYTE_LAST || row.holder > 255 {
        return None;
    }
    Some(join_row(words_of(row)))
}

// The row of seventeen bytes; none where there are not seventeen or the word is no value of the kind.
// Packing the row gives the bytes again.
pub fn unpack_row<K: Kind>(bytes: &[u8]) -> Option<Row<K>>
    ensures row { result ≡ row_unpacked K.Kind.unpacked bytes.now }
    ensures again { IfSome result (λ row. row_packed K.Kind.packed row ≡ Some bytes.now) }
{
    let row = split_row(bytes)?;
    let value = K::unpack(row.value)?;
    Some(revalued(row, value))
}
