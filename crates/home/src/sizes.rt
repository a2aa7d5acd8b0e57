// What the openings of all makes share.
ghost use Rattle.std.specs.Prelude.{◌≡◌, ◌&&◌};
ghost use Rattle.home.specs.Opening.{is_count, size_checked};

use crate::fault::{Fault, Refusal};
use crate::row::Cause;

// The most keys that a home has.
pub const MAX_COUNT: usize = 65_535;

// The latest last timestamp that a home has.
pub const MAX_LAST: u64 = 9_223_372_036_854_775_807;

// Refuses 16 unless there are 1 to 65,535 keys and the size fits, by a test that each make has of its own.
pub fn check_size(count: usize, fits: bool) -> Result<(), Fault>
    ensures { result ≡ size_checked (is_count count && fits) }
{
    match count {
        1..=MAX_COUNT if fits => Ok(()),
        _ => Err(Cause::plain(Refusal::BadSize).at(0, 0)),
    }
}
