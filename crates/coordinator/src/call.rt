// The calls as values, and what each answers.

// One of the eight calls, with what it is given: a value, since laws speak of lists of calls, and none looks into a
// closure.
#[derive(Clone, Copy, PartialEq, Eq, Debug)]
pub enum Call<V> {
    Begin { place: u32 },
    Read { place: u32, key: u32 },
    Write { place: u32, key: u32, value: V },
    Freeze { place: u32 },
    Renew { place: u32 },
    Decide { place: u32 },
    Settle { place: u32 },
    Abort { place: u32 },
}

// What an accepted call answers.
#[derive(Clone, Copy, PartialEq, Eq, Debug)]
pub enum Answer<V> {
    // begin and abort
    Done,
    // read
    Value(V),
    // write and freeze: the transaction's timestamp
    Time(u64),
    // renew: the entries that are left
    Left(u8),
    // decide: the commit timestamp and the commit number
    Committed(u64, u32),
    // settle: the entries that are left, and beside them, as its rule has it, whether the place was freed
    Settled(u8, bool),
}
