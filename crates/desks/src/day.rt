// The day, call by call.
use crate::script::{Step, script};
use coordinator::{Answer, Call, Entry, Place};
use home::{Fault, Home};
use kinds::Price;
use serial::perform;
use std::fmt;

// A call with its answer.
#[derive(Clone, Copy)]
pub(crate) struct Logged {
    pub(crate) place: u32,
    pub(crate) call: Call<Price>,
    pub(crate) answer: Result<Answer<Price>, Fault>,
}

// Makes the calls of the day, prints each with its answer, and keeps them.
pub(crate) fn run_day<H: Home<Value = Price>>(
    rt: &HostRuntime,
    home: &mut H,
    places: &mut [Place],
    entries: &mut [Entry<Price>],
    counter: &mut u32,
) -> anyhow::Result<Vec<Logged>> {
    let mut log = Vec::new(rt.alloc());
    println!(rt; "the day")?;
    for step in script() {
        let (place, call) = call_of(step, &log);
        let answer = perform(home, places, entries, counter, call);
        let told = Told(answer);
        println!(rt; "  {step}: {told}")?;
        log.push(Logged {
            place,
            call,
            answer,
        })?;
    }
    Ok(log)
}

// The call of a step, and who makes it.
fn call_of(step: Step, log: &[Logged]) -> (u32, Call<Price>) {
    match step {
        Step::Begin(place) => (place, Call::Begin { place }),
        Step::Read(place, key) => (place, Call::Read { place, key }),
        Step::Move(place, key, ticks) => (
            place,
            Call::Write {
                place,
                key,
                value: Price { ticks },
            },
        ),
        Step::Quote(place, key, near, far) => (
            place,
            Call::Write {
                place,
                key,
                value: price_of(seen(log, place, near), seen(log, place, far)),
            },
        ),
        Step::Freeze(place) => (place, Call::Freeze { place }),
        Step::Renew(place) => (place, Call::Renew { place }),
        Step::Decide(place) => (place, Call::Decide { place }),
        Step::Settle(place) => (place, Call::Settle { place }),
        Step::Abort(place) => (place, Call::Abort { place }),
    }
}

// What the desk has read last of a key, or 0.
fn seen(log: &[Logged], place: u32, wanted: u32) -> i64 {
    log.iter()
        .rev()
        .find_map(|logged| match (logged.call, logged.answer) {
            (Call::Read { key, .. }, Ok(Answer::Value(value)))
                if logged.place == place && key == wanted => { Some(value.ticks) }
            _ => None,
        })
        .unwrap_or(0)
}

// The price of a bond by two rates of the curve: a point under par for each percent of their mean.
fn price_of(near: i64, far: i64) -> Price {
    let mean = near.wrapping_add(far).wrapping_div(2);
    Price {
        ticks: 10_000i64.wrapping_sub(mean),
    }
}

// What the desk is told.
#[derive(Clone, Copy)]
struct Told(Result<Answer<Price>, Fault>);

impl fmt::Display for Told {
    fn fmt<W: fmt::Write>(&self, f: &mut fmt::Formatter<W>) -> fmt::Result {
        match self.0 {
            Ok(Answer::Done) => write!(f, "done"),
            Ok(Answer::Value(value)) => write!(f, "{}", value.ticks),
            Ok(Answer::Time(ts)) => write!(f, "at {ts}"),
            Ok(Answer::Left(left)) => write!(f, "{left} left"),
            Ok(Answer::Committed(ts, number)) => write!(f, "commits at {ts}, number {number}"),
            Ok(Answer::Settled(_, true)) => write!(f, "free"),
            Ok(Answer::Settled(left, false)) => write!(f, "{left} left"),
            Err(fault) => write!(f, "refused, {} {}", fault.refusal.number(), fault.refusal),
        }
    }
}
