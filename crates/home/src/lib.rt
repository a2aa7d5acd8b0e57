// What a home is: rows with leases, the calls on them, and why a call is refused.
#![tactic(auto)]

mod changes;
mod fault;
mod home;
mod row;
mod sizes;

pub use changes::amend;
pub use fault::{Fault, Layer, Refusal};
pub use home::Home;
pub use row::{Cause, Change, Flaw, Lease, Row};
pub use sizes::{MAX_LAST, check_size};
