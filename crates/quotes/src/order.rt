// What the server is asked to do with one node: a value, as it is read from a line.
#[derive(Clone, Copy, PartialEq, Eq, Debug)]
pub enum Order {
    // A desk quotes a new rate.
    Quote { place: u32, key: u32, rate: i32 },
    // A desk begins to quote, and thinks better of it.
    Withdraw { place: u32, key: u32 },
    // A desk holds the node and keeps it: nobody can quote it until it is released.
    Take { place: u32, key: u32 },
    // A desk that holds the node gives it up.
    Release { place: u32, key: u32 },
    // The node's quote shall stand until `t`.
    Keep { key: u32, t: u64 },
}
