// What the desks do on this day, in the order in which they do it.

use std::fmt;

// Keys 0 to 2 are the curve's rates at two, five and ten years, in basis points; 3 and 4 are the quotes of two bonds, in
// hundredths of a point.
pub(crate) const KEYS: usize = 5;

// What the home holds at the opening.
pub(crate) const OPENING: [i64; KEYS] = [300, 350, 400, 0, 0];

// What the desk at a place does next: the place stands first, then the key.
#[derive(Clone, Copy)]
pub(crate) enum Step {
    Begin(u32),
    Read(u32, u32),
    // The curve moves: this key gets this rate.
    Move(u32, u32, i64),
    // The bond of this key is quoted at the price that the rates say which the desk has read last for two keys.
    Quote(u32, u32, u32, u32),
    Freeze(u32),
    Renew(u32),
    Decide(u32),
    Settle(u32),
    Abort(u32),
}

// The day.
pub(crate) fn script() -> [Step; 70] {
    [
        // Place 2 prices the first bond from two and five years, and has not written yet when the five years move.
        Step::Begin(2),
        Step::Read(2, 0),
        Step::Read(2, 1),
        Step::Begin(1),
        Step::Read(1, 1),
        Step::Move(1, 1, 360),
        Step::Freeze(1),
        Step::Renew(1),
        // Place 3 wants to move them too, and finds them held.
        Step::Begin(3),
        Step::Move(3, 1, 355),
        Step::Settle(3),
        Step::Decide(1),
        Step::Settle(1),
        Step::Settle(1),
        // Place 2 quotes by the old rate: the renewal finds that it has moved on, and the quote is let go.
        Step::Quote(2, 3, 0, 1),
        Step::Freeze(2),
        Step::Renew(2),
        Step::Renew(2),
        Step::Settle(2),
        Step::Settle(2),
        Step::Settle(2),
        Step::Settle(2),
        // It begins again, and sees the new rate.
        Step::Begin(2),
        Step::Read(2, 0),
        Step::Read(2, 1),
        Step::Quote(2, 3, 0, 1),
        Step::Freeze(2),
        Step::Renew(2),
        Step::Renew(2),
        Step::Renew(2),
        // Place 5 reads the two years before they move, and decides after.
        Step::Begin(5),
        Step::Read(5, 0),
        // Place 4 prices the second bond from five and ten years: a renewal of the ten years saves it.
        Step::Begin(4),
        Step::Read(4, 2),
        Step::Read(4, 1),
        Step::Quote(4, 4, 1, 2),
        Step::Freeze(4),
        Step::Renew(4),
        Step::Renew(4),
        Step::Renew(4),
        Step::Decide(2),
        // The two and the ten years move.
        Step::Begin(1),
        Step::Move(1, 0, 310),
        Step::Move(1, 2, 415),
        Step::Freeze(1),
        Step::Renew(1),
        Step::Renew(1),
        Step::Decide(1),
        Step::Decide(4),
        Step::Freeze(5),
        Step::Renew(5),
        Step::Decide(5),
        // Place 6 moves the five years and thinks better of it.
        Step::Begin(6),
        Step::Move(6, 1, 999),
        Step::Abort(6),
        Step::Settle(6),
        Step::Settle(6),
        // Everybody settles.
        Step::Settle(1),
        Step::Settle(1),
        Step::Settle(1),
        Step::Settle(2),
        Step::Settle(2),
        Step::Settle(2),
        Step::Settle(2),
        Step::Settle(4),
        Step::Settle(4),
        Step::Settle(4),
        Step::Settle(4),
        Step::Settle(5),
        Step::Settle(5),
    ]
}

impl fmt::Display for Step {
    fn fmt<W: fmt::Write>(&self, f: &mut fmt::Formatter<W>) -> fmt::Result {
        match *self {
            Step::Begin(place) => write!(f, "place {place} begins"),
            Step::Read(place, key) => write!(f, "place {place} reads {key}"),
            Step::Move(place, key, rate) => write!(f, "place {place} moves {key} to {rate}"),
            Step::Quote(place, key, near, far) => {
                write!(f, "place {place} quotes {key} by {near} and {far}")
            }
            Step::Freeze(place) => write!(f, "place {place} freezes"),
            Step::Renew(place) => write!(f, "place {place} renews"),
            Step::Decide(place) => write!(f, "place {place} decides"),
            Step::Settle(place) => write!(f, "place {place} settles"),
            Step::Abort(place) => write!(f, "place {place} gives up"),
        }
    }
}
