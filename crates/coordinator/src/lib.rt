// Transactions over a home, by place: the opening and the eight calls, over tables that the caller lends. They are
// functions and not methods of a struct of the tables: each is given just what it may look at or alter, so that its
// contract needs no clause for the rest.
#![tactic(auto)]

mod call;
mod enter;
mod opening;
mod reads;
mod renews;
mod rounds;
mod settles;
mod sheet;
mod tables;
mod turns;
mod writes;

pub use call::{Answer, Call};
pub use opening::open_tables;
pub use reads::read;
pub use renews::renew;
pub use settles::settle;
pub use tables::{Entry, Place};
pub use turns::{MAX_COUNTER, abort, begin, decide, freeze};
pub use writes::write;
