// A quote server's morning: reads a curve and the orders for it, serves them, and prints what came of it.
#![tactic(auto)]

use byte_home::{BYTE_LAST, ByteHome};
use home::{Fault, Home, Refusal, Row};
use kinds::Node;
use quotes::{MorningText, Tally, Unread, read_text, run_morning};
use row_home::RowHome;
use split_home::SplitHome;
use std::alloc::{AllocError, Global};
use std::fmt;
use std::io::Read;

// The most bytes of input that are read.
const MAX_TEXT: usize = 1_000_000;

fn main(rt: HostRuntime) -> anyhow::Result<()> {
    let mut bytes = Vec::new(rt.alloc());
    rt.stdin()
        .take(MAX_TEXT as u64 + 1)
        .read_to_end(&mut bytes)?;
    if bytes.len() > MAX_TEXT {
        println!(rt; "the input is longer than {MAX_TEXT} bytes")?;
        return Ok(());
    }
    let Ok(text) = std::str::from_utf8(&bytes) else {
        println!(rt; "the input is no text")?;
        return Ok(());
    };
    match read_text(rt.alloc(), text) {
        Ok(mut morning) => serve(&rt, &mut morning),
        Err(unread @ Unread::BadLine(_)) => {
            println!(rt; "{unread}")?;
            Ok(())
        }
        Err(unread) => Err(unread.into()),
    }
}

fn serve(rt: &HostRuntime, morning: &mut MorningText) -> anyhow::Result<()> {
    let before = rows_of(rt.alloc(), &mut morning.near, &mut morning.far)?;
    match run_morning(&mut morning.near, &mut morning.far, &morning.orders) {
        Ok(tally) => {
            let mut left = RowHome::make(&mut morning.near, BYTE_LAST);
            let mut right = ByteHome::<Node>::make(&mut morning.far);
            let home = SplitHome::make(&mut left, &mut right);
            print_morning(rt, before.as_str(), &home, tally)
        }
        Err(Fault { refusal, .. }) => {
            let number = refusal.number();
            println!(rt; "the curve cannot be opened: {number} {refusal}")?;
            Ok(())
        }
    }
}

// The rows of the curve as they stand, as a text to keep while the orders alter them.
fn rows_of(heap: Global, near: &mut [Row<Node>], far: &mut [u8]) -> Result<String, AllocError> {
    let mut left = RowHome::make(near, BYTE_LAST);
    let mut right = ByteHome::<Node>::make(far);
    let home = SplitHome::make(&mut left, &mut right);
    text_of(heap, &home)
}

// A function of its own, and for any home: the checker lends a home to `Rows` only where it comes as a parameter.
fn text_of<H: Home<Value = Node>>(heap: Global, home: &H) -> Result<String, AllocError> {
    let rows = Rows(home);
    format!(in heap; "{rows}")
}

// Prints the rows before and after the orders, and the counts. The rows after them are printed from the home: a text of
// them would take as much memory again.
fn print_morning<H: Home<Value = Node>>(
    rt: &HostRuntime,
    before: &str,
    home: &H,
    tally: Tally,
) -> anyhow::Result<()> {
    let after = Rows(home);
    let counts = Counts(tally);
    print!(rt; "before\n{before}after\n{after}{counts}")?;
    Ok(())
}

// The rows of a curve, a line each.
#[derive(Clone, Copy)]
struct Rows<'a, H>(&'a H);

impl<'a, H: Home<Value = Node>> fmt::Display for Rows<'a, H> {
    fn fmt<W: fmt::Write>(&self, f: &mut fmt::Formatter<W>) -> fmt::Result {
        let Rows(home) = self;
        // By key, since a home has no slice of rows to go through.
        for key in 0..home.count() {
            if let Ok(row) = home.look(key) {
                writeln!(f, "{}", Quoted { key, row })?;
            }
        }
        Ok(())
    }
}

// A row of the curve under its key.
#[derive(Clone, Copy)]
struct Quoted {
    key: u32,
    row: Row<Node>,
}

impl fmt::Display for Quoted {
    fn fmt<W: fmt::Write>(&self, f: &mut fmt::Formatter<W>) -> fmt::Result {
        let row = &self.row;
        write!(
            f,
            "{:>3}  day {:>5}  rate {:>7}  [{}, {}]  holder {}",
            self.key,
            row.value.day(),
            row.value.rate(),
            row.wts,
            row.rts,
            row.holder
        )
    }
}

// The counts of a morning: a line for what was done, and one for each reason for which a home can refuse anything.
#[derive(Clone, Copy)]
struct Counts(Tally);

impl fmt::Display for Counts {
    fn fmt<W: fmt::Write>(&self, f: &mut fmt::Formatter<W>) -> fmt::Result {
        let Counts(tally) = self;
        writeln!(f, "accepted {:>4}", tally.accepted)?;
        for refusal in [
            Refusal::NoKey,
            Refusal::Held,
            Refusal::TimeSpent,
            Refusal::NoPlace,
            Refusal::MovedOn,
            Refusal::NotYours,
            Refusal::TooEarly,
        ] {
            let number = refusal.number();
            let count = tally.refused[usize::from(number)];
            if count > 0 {
                writeln!(f, "refused  {count:>4}  {number} {refusal}")?;
            }
        }
        Ok(())
    }
}
