// The tables that the caller lends to the coordinator. Any contents may stand in them.
ghost use Rattle.std.specs.Prelude.{◌≡◌};
ghost use Rattle.coordinator.specs.Tables.{cursor_of, used_of};

// One of 64 who can be in the middle of a transaction.
#[derive(Clone, Copy, PartialEq, Eq, Debug)]
pub struct Place {
    // 0 free, 1 open, 2 frozen, 3 losing, 4 winning; the caller's table may hold any other number.
    pub state: u8,
    // The timestamp at which the transaction can commit, so far.
    pub ts: u64,
    // How many entries of the place's sheet are in use; above 16 it counts as 16. The sheets are one table that the
    // caller lends, and nothing is allocated: so a number, and no list of a place's own.
    pub used: u8,
    // How many of them are renewed or settled; above `used` it counts as `used`.
    pub cursor: u8,
}

impl Place {
    // The number of entries in use, at most 16.
    pub(crate) fn used(&self) -> u8
        ensures { result ≡ used_of self.now }
    {
        self.used.min(16)
    }

    // How far the entries are handled, at most to the last one in use.
    pub(crate) fn cursor(&self) -> u8
        ensures { result ≡ cursor_of self.now }
    {
        self.cursor.min(self.used())
    }
}

// What a transaction knows of one key. The sheet of place p is the sixteen entries from 16 × (p − 1) on. All lies
// side by side, as in the caller's table: an entry has a value whether it is written or not, and is made of a row or
// of a lease field by field, since `..` cannot change a type.
#[derive(Clone, Copy, PartialEq, Eq, Debug)]
pub struct Entry<V> {
    pub key: u32,
    // The lease under which the value was read or the row held.
    pub wts: u64,
    pub rts: u64,
    pub value: V,
    pub written: bool,
}
