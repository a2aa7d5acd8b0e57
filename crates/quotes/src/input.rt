// The text of a morning: the nodes of a curve and the orders for it, a line each.
ghost use Rattle.std.specs.Prelude.{◌≡◌};

use crate::order::Order;
use byte_home::pack_row;
use home::Row;
use kinds::Node;
use std::alloc::{AllocError, AllocFailed, Global};
use std::str::{FromStr, SplitWhitespace};
use thiserror::Error;

// One line of the text.
#[derive(Clone, Copy, PartialEq, Eq, Debug)]
pub enum Line {
    // A node of the curve's near end, which is kept as rows.
    Near(Node),
    // A node of its far end, which is kept as bytes.
    Far(Node),
    // Something to do.
    Order(Order),
}

// Reads one line; none where it is not one. Nothing more is known of why, so it is no `FromStr`.
pub fn read_line(line: &str) -> Option<Line> {
    let mut words = line.split_whitespace();
    let read = match words.next()? {
        "near" => Line::Near(node(&mut words)?),
        "far" => Line::Far(node(&mut words)?),
        "quote" => Line::Order(Order::Quote {
            place: number(&mut words)?,
            key: number(&mut words)?,
            rate: number(&mut words)?,
        }),
        "withdraw" => Line::Order(Order::Withdraw {
            place: number(&mut words)?,
            key: number(&mut words)?,
        }),
        "take" => Line::Order(Order::Take {
            place: number(&mut words)?,
            key: number(&mut words)?,
        }),
        "release" => Line::Order(Order::Release {
            place: number(&mut words)?,
            key: number(&mut words)?,
        }),
        "keep" => Line::Order(Order::Keep {
            key: number(&mut words)?,
            t: number(&mut words)?,
        }),
        _ => return None,
    };
    words.next().is_none().then_some(read)
}

// A morning's text, read: the curve in two tables, with every lease from 0 to 0, and what to do.
#[derive(Drop)]
pub struct MorningText {
    pub near: Vec<Row<Node>>,
    pub far: Vec<u8>,
    pub orders: Vec<Order>,
}

// Why a text could not be read.
#[derive(Debug, Drop, Error)]
pub enum Unread {
    #[error("line {0} is no line of a morning")]
    BadLine(usize),
    // It keeps no cause, since callers name it so: the conversions are by hand.
    #[error("no memory")]
    NoMemory,
}

impl From<AllocError> for Unread {
    fn from(_: AllocError) -> Unread {
        Unread::NoMemory
    }
}

impl<T: Drop> From<AllocFailed<T>> for Unread {
    fn from(_: AllocFailed<T>) -> Unread {
        Unread::NoMemory
    }
}

// Reads the whole text, a line each.
pub fn read_text(heap: Global, text: &str) -> Result<MorningText, Unread> {
    let mut morning = MorningText {
        near: Vec::new(heap),
        far: Vec::new(heap),
        orders: Vec::new(heap),
    };
    for (above, line) in text.lines().enumerate() {
        let read = read_line(line).ok_or(Unread::BadLine(above + 1))?;
        morning.add(read)?;
    }
    Ok(morning)
}

impl MorningText {
    // Takes in what one line says.
    fn add(&mut self, line: Line) -> Result<(), Unread> {
        match line {
            Line::Near(node) => self.near.push(fresh(node))?,
            Line::Far(node) => self.far.extend_from_slice(&pack_row(fresh(node)).unwrap())?,
            Line::Order(order) => self.orders.push(order)?,
        }
        Ok(())
    }
}

// A node that nobody holds, with its lease at the beginning of time.
fn fresh(node: Node) -> Row<Node>
    ensures { result ≡ record { value = node; wts = 0; rts = 0; holder = 0 } }
{
    Row {
        value: node,
        wts: 0,
        rts: 0,
        holder: 0,
    }
}

// The next word, as a number.
fn number<N: FromStr>(words: &mut SplitWhitespace) -> Option<N>
where
    N::Err: Drop,
{
    words.next()?.parse().ok()
}

// The next two words, as a day and a rate.
fn node(words: &mut SplitWhitespace) -> Option<Node> {
    let day = number(words)?;
    let rate = number(words)?;
    Node::new(day, rate)
}

#[cfg(test)]
mod tests {
    use super::*;
    use std::test::Fail;

    // What `morning` prints of a text that it cannot read: the first line that is none, counted from 1.
    #[test]
    fn the_text_of_a_bad_line(rt: HostRuntime) -> Result<(), Fail> {
        for (text, want) in [
            (
                "near 1 25000\nnear 0 25000\n",
                "line 2 is no line of a morning",
            ),
            (
                "quote 1 0 25050 1\nkeep 1\n",
                "line 1 is no line of a morning",
            ),
            ("far 65536 -1\n\n", "line 2 is no line of a morning"),
        ] {
            let unread = read_text(rt.alloc(), text)
                .err()
                .ok_or("a bad line is read")?;
            let told = format!(in rt.alloc(); "{unread}")?;
            assert_eq!(rt; told.as_str(), want);
        }
        Ok(())
    }

    // Memory that cannot be had has a text of its own.
    #[test]
    fn the_text_of_no_memory(rt: HostRuntime) -> Result<(), Fail> {
        let unread = Unread::NoMemory;
        let told = format!(in rt.alloc(); "{unread}")?;
        assert_eq!(rt; told.as_str(), "no memory");
        Ok(())
    }
}
