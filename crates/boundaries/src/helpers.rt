// What the tests share. A refusal is looked at by its numbers, as the documents list them.
use home::{Fault, Row};
use kinds::Price;

// A free row with this lease.
pub(crate) fn row(wts: u64, rts: u64) -> Row<Price> {
    Row {
        value: Price { ticks: 100 },
        wts,
        rts,
        holder: 0,
    }
}

// A row of a fresh table.
pub(crate) fn fresh() -> Row<Price> {
    Row {
        value: Price { ticks: 0 },
        ..row(0, 0)
    }
}

// Number, place, key and detail of a refusal, or zeros.
pub(crate) fn fault<A: Drop>(answer: Result<A, Fault>) -> (u8, u32, u32, u64) {
    match answer {
        Ok(_) => (0, 0, 0, 0),
        Err(fault) => (fault.refusal.number(), fault.place, fault.key, fault.detail),
    }
}

// Number, key and detail of a refusal, or zeros.
pub(crate) fn parts<A: Drop>(answer: Result<A, Fault>) -> (u8, u32, u64) {
    let (number, _, key, detail) = fault(answer);
    (number, key, detail)
}

// The number of a refusal, or 0.
pub(crate) fn number<A: Drop>(answer: Result<A, Fault>) -> u8 {
    fault(answer).0
}
