ghost use Rattle.std.specs.Prelude.{◌≡◌, ◌/◌, ◌%◌, is_some};
ghost use Rattle.std.specs.Int.{w32};
ghost use Rattle.std.proofs.Common.{to_z};
ghost use Rattle.kinds.specs.Words.{node_word, node_value, node_reading, node_of, is_node_word, day_of, with_rate};
ghost use Rattle.std.proofs.Common.{rules};

use crate::kind::Kind;

// A point of an interest-rate curve.
//
// The day is kept one less than it is, so that the sixteen bits hold exactly the days 1 to 65,536.
#[derive(Clone, Copy, PartialEq, Eq, Debug)]
pub struct Node {
    day_less_one: u16,
    // The rate in hundredths of a basis point.
    rate: i32,
}

impl Node {
    // The node of a day from 1 to 65,536; none of another day.
    pub fn new(day: u32, rate: i32) -> Option<Node>
        ensures { result ≡ node_of day rate }
    {
        // Of day 0 the difference wraps, past what sixteen bits hold.
        let day_less_one = u16::try_from(day.wrapping_sub(1)).ok()?;
        Some(Node { day_less_one, rate })
    }

    // The day, from 1 to 65,536.
    pub fn day(self) -> u32
        ensures { result ≡ day_of self }
    {
        u32::from(self.day_less_one) + 1
    }

    // The node of the same day with another rate.
    pub fn with_rate(self, rate: i32) -> Node
        ensures { result ≡ with_rate self rate }
    {
        Node { rate, ..self }
    }

    // The rate, in hundredths of a basis point.
    pub fn rate(self) -> i32
        ensures { result ≡ self.rate }
    {
        self.rate
    }
}

impl Kind for Node {
    const CODE: u8 = 2;

    ghost CODE = { 2 };

    ghost packed = { node_word };

    ghost unpacked = { node_value };

    ghost reading = { node_reading };

    ghost back = { Prim.search rules };

    ghost right = { Prim.search rules };

    fn pack(self) -> u64 {
        u64::from(self.day()) * 4_294_967_296 + u64::from(self.rate.cast_unsigned())
    }

    // A word is a node's exactly if its upper half is a day.
    fn unpack(word: u64) -> Option<Node>
        ensures value { result ≡ node_value word }
        ensures which { is_some result ≡ is_node_word word }
    {
        let (day, rate) = halves(word);
        Node::new(day, rate)
    }

    // A word that is no node's is read as some node: day 0 as 1, and of a later day what sixteen bits hold.
    fn read(word: u64) -> Node {
        let (day, rate) = halves(word);
        Node {
            day_less_one: (day.saturating_sub(1) % 65_536) as u16,
            rate,
        }
    }
}

// The upper half of a word, which is the day in a node's word, and the lower half as a rate.
fn halves(word: u64) -> (u32, i32)
    ensures { result ≡ (word / 4294967296, to_z w32 (word % 4294967296)) }
{
    let rate = (word % 4_294_967_296) as u32;
    ((word / 4_294_967_296) as u32, rate.cast_signed())
}
