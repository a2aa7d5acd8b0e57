// The decided transactions once more, one at a time in commit order, by plain code over the calls and their answers.
use crate::day::Logged;
use crate::script::{KEYS, OPENING};
use coordinator::{Answer, Call};
use home::Home;
use kinds::Price;
use std::alloc::{AllocError, Global};

// A decided transaction: the calls of its place between its begin and its decide.
#[derive(Clone, Copy)]
struct Deal {
    place: u32,
    ts: u64,
    number: u32,
    begin: usize,
    decide: usize,
}

// Runs the decided transactions from the opening's values, and prints of each read what the desk saw and what the run
// sees, and of each key what the run leaves and what the home has.
pub(crate) fn rerun<H: Home<Value = Price>>(
    rt: &HostRuntime,
    log: &[Logged],
    home: &H,
) -> anyhow::Result<()> {
    let mut deals = decided(rt.alloc(), log)?;
    deals.sort_unstable_by_key(|deal| (deal.ts, deal.number));
    let mut values = OPENING;
    println!(rt; "the run")?;
    for deal in &deals {
        let Deal {
            place,
            ts,
            number,
            ..
        } = *deal;
        println!(rt; "  timestamp {ts}, number {number}, place {place}")?;
        run(rt, log, deal, &mut values)?;
    }
    println!(rt; "the end")?;
    for key in 0..home.count() {
        if let Ok(row) = home.look(key) {
            let has = row.value.ticks;
            let left = value_at(&values, key);
            println!(rt; "  key {key}: the home has {has}, the run leaves {left}")?;
        }
    }
    Ok(())
}

// The decided transactions, in the order of their decides.
fn decided(heap: Global, log: &[Logged]) -> Result<Vec<Deal>, AllocError> {
    let mut deals = Vec::new(heap);
    for (at, logged) in log.iter().enumerate() {
        if let Ok(Answer::Committed(ts, number)) = logged.answer {
            let place = logged.place;
            let begin = begin_of(log, place, at);
            deals.push(Deal {
                place,
                ts,
                number,
                begin,
                decide: at,
            })?;
        }
    }
    Ok(deals)
}

// The last begin of a place up to a call.
fn begin_of(log: &[Logged], place: u32, end: usize) -> usize {
    let mut begin = 0;
    for (at, logged) in log.iter().enumerate() {
        if at <= end && logged.place == place && matches!(logged.call, Call::Begin { .. }) {
            begin = at;
        }
    }
    begin
}

// One transaction, from first to last.
fn run(
    rt: &HostRuntime,
    log: &[Logged],
    deal: &Deal,
    values: &mut [i64; KEYS],
) -> anyhow::Result<()> {
    for (at, logged) in log.iter().enumerate() {
        if logged.place != deal.place || at < deal.begin || at > deal.decide {
            continue;
        }
        match (logged.call, logged.answer) {
            (Call::Read { key, .. }, Ok(Answer::Value(value))) => {
                let saw = value.ticks;
                let sees = value_at(values, key);
                println!(rt; "    key {key}: the desk saw {saw}, the run sees {sees}")?;
            }
            (Call::Write { key, value, .. }, Ok(_)) => {
                let ticks = value.ticks;
                println!(rt; "    key {key}: {ticks} is written")?;
                write_at(values, key, ticks);
            }
            _ => {}
        }
    }
    Ok(())
}

fn write_at(values: &mut [i64; KEYS], key: u32, ticks: i64) {
    if let Some(slot) = values.get_mut(key as usize) {
        *slot = ticks;
    }
}

fn value_at(values: &[i64; KEYS], key: u32) -> i64 {
    values.get(key as usize).copied().unwrap_or(0)
}

// Prints what became of the holds: a first write of a key holds it, until its transaction puts it or lets it go.
pub(crate) fn print_holds<H: Home<Value = Price>>(
    rt: &HostRuntime,
    log: &[Logged],
    home: &H,
) -> anyhow::Result<()> {
    let mut put = 0u32;
    let mut freed = 0u32;
    for (at, logged) in log.iter().enumerate() {
        if is_hold(log, at, *logged) {
            if wins(log, at, logged.place) {
                put = put.saturating_add(1);
            } else {
                freed = freed.saturating_add(1);
            }
        }
    }
    let held = held_now(home);
    let granted = put.saturating_add(freed);
    println!(rt; "holds granted {granted}: put {put}, freed {freed}, held {held}")?;
    Ok(())
}

// Whether a call is an accepted write, the first of its key in its transaction.
fn is_hold(log: &[Logged], end: usize, last: Logged) -> bool {
    let (Call::Write { key, .. }, Ok(_)) = (last.call, last.answer) else {
        return false;
    };
    let begin = begin_of(log, last.place, end);
    !log.iter().enumerate().any(|(at, logged)| {
        let earlier = begin <= at
            && at < end
            && logged.place == last.place
            && logged.answer.is_ok();
        earlier && matches!(logged.call, Call::Write { key: other, .. } if other == key)
    })
}

// Whether the transaction of a place that makes this call decides.
fn wins(log: &[Logged], from: usize, place: u32) -> bool {
    for (at, logged) in log.iter().enumerate() {
        if at > from && logged.place == place {
            match (logged.call, logged.answer) {
                (Call::Begin { .. }, Ok(_)) => return false,
                (_, Ok(Answer::Committed(..))) => return true,
                _ => {}
            }
        }
    }
    false
}

// How many rows somebody holds.
fn held_now<H: Home<Value = Price>>(home: &H) -> u32 {
    let mut held = 0u32;
    for key in 0..home.count() {
        match home.look(key) {
            Ok(row) if row.holder != 0 => held = held.saturating_add(1),
            _ => {}
        }
    }
    held
}
