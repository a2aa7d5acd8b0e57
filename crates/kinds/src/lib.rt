// Values that have a code and a word, so that they can be written down as bytes and in lines of text.
#![tactic(auto)]

mod kind;
mod node;
mod price;

pub use kind::Kind;
pub use node::Node;
pub use price::Price;
