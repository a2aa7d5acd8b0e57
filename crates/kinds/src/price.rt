ghost use Rattle.kinds.specs.Words.{price_word, price_value, price_reading};
ghost use Rattle.std.proofs.Common.{rules};

use crate::kind::Kind;

// A price: a signed count of ticks.
#[derive(Clone, Copy, PartialEq, Eq, Debug)]
pub struct Price {
    pub ticks: i64,
}

impl Kind for Price {
    const CODE: u8 = 1;

    ghost CODE = { 1 };

    ghost packed = { price_word };

    ghost unpacked = { price_value };

    ghost reading = { price_reading };

    ghost back = { Prim.search rules };

    ghost right = { Prim.search rules };

    fn pack(self) -> u64 {
        self.ticks.cast_unsigned()
    }

    fn unpack(word: u64) -> Option<Price> {
        Some(Price::read(word))
    }

    fn read(word: u64) -> Price {
        Price {
            ticks: word.cast_signed(),
        }
    }
}
