// A quote server's morning: new quotes for the nodes of a curve, over any home.
#![tactic(auto)]

mod input;
mod morning;
mod order;
mod serve;
mod tally;

pub use input::{Line, MorningText, Unread, read_line, read_text};
pub use morning::{run_morning, serve_all, serve_both};
pub use order::Order;
pub use serve::{keep, quote, serve_order, withdraw};
pub use tally::Tally;
