// Desks price two bonds against a curve that moves. Their transactions run over one home, call by call as they come; at
// the end of the day the decided ones run once more, one at a time in commit order, by plain code.
#![tactic(auto)]

mod day;
mod rerun;
mod script;

use coordinator::{Entry, Place};
use day::run_day;
use home::{Fault, Row};
use kinds::Price;
use rerun::{print_holds, rerun};
use row_home::RowHome;
use script::OPENING;
use serial::open_tables;

// The last timestamp of the day.
const LAST: u64 = 1_000;

fn main(rt: HostRuntime) -> anyhow::Result<()> {
    let mut rows = OPENING.map(|ticks| Row {
        value: Price { ticks },
        wts: 0,
        rts: 0,
        holder: 0,
    });
    let free = Place {
        state: 0,
        ts: 0,
        used: 0,
        cursor: 0,
    };
    let blank = Entry {
        key: 0,
        wts: 0,
        rts: 0,
        value: Price { ticks: 0 },
        written: false,
    };
    let mut places = vec![in rt.alloc(); free; 64]?;
    let mut entries = vec![in rt.alloc(); blank; 1_024]?;
    let mut counter = 0;
    let mut home = RowHome::make(&mut rows, LAST);
    if let Err(Fault { refusal, .. }) = open_tables(&home, &mut places, &entries, &mut counter) {
        println!(rt; "the tables cannot be opened: {refusal}")?;
        return Ok(());
    }
    let log = run_day(&rt, &mut home, &mut places, &mut entries, &mut counter)?;
    rerun(&rt, &log, &home)?;
    print_holds(&rt, &log, &home)?;
    Ok(())
}
