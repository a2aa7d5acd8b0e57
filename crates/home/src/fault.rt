// Why a call is refused.
ghost use Rattle.std.specs.Prelude.{◌≡◌, Some, codes};
ghost use Rattle.home.specs.Refusals.{number_of, word_of, layer_of};

use std::fmt;

// Every reason for which a call of the store is turned away, with the number that documents and formats give it.
#[derive(Clone, Copy, PartialEq, Eq, Debug)]
pub enum Refusal {
    NoKey = 1,
    Held = 2,
    TimeSpent = 3,
    NoPlace = 4,
    MovedOn = 5,
    NotYours = 6,
    TooEarly = 7,
    PlaceTaken = 8,
    WrongState = 9,
    SheetFull = 10,
    NoneLeft = 11,
    Unchecked = 12,
    DayFull = 13,
    ShortTable = 14,
    BadLine = 15,
    BadSize = 16,
    BadRow = 17,
    NotClean = 18,
    TwoLasts = 19,
}

impl Refusal {
    // The number of the refusal, from 1 to 19.
    pub fn number(self) -> u8
        ensures { result ≡ number_of self }
    {
        self as u8
    }

    // The word that stands for the refusal in print. This cannot fail, which printing can.
    pub fn word(self) -> &'static str
        ensures { result.now ≡ word_of self }
    {
        match self {
            Refusal::NoKey => "no key",
            Refusal::Held => "held",
            Refusal::TimeSpent => "time spent",
            Refusal::NoPlace => "no place",
            Refusal::MovedOn => "moved on",
            Refusal::NotYours => "not yours",
            Refusal::TooEarly => "too early",
            Refusal::PlaceTaken => "place taken",
            Refusal::WrongState => "wrong state",
            Refusal::SheetFull => "sheet full",
            Refusal::NoneLeft => "none left",
            Refusal::Unchecked => "unchecked",
            Refusal::DayFull => "day full",
            Refusal::ShortTable => "short table",
            Refusal::BadLine => "bad line",
            Refusal::BadSize => "bad size",
            Refusal::BadRow => "bad row",
            Refusal::NotClean => "not clean",
            Refusal::TwoLasts => "two lasts",
        }
    }
}

// A refusal is printed as its word.
impl fmt::Display for Refusal {
    ghost output = { λ refusal. Some (word_of refusal) };

    fn fmt<W: fmt::Write>(&self, f: &mut fmt::Formatter<W>) -> fmt::Result {
        f.write_str(self.word())
    }
}

// The layer of the store in which a refusal arose, with its number in documents and formats.
#[derive(Clone, Copy, PartialEq, Eq, Debug)]
pub enum Layer {
    Home = 1,
    Coordinator = 2,
    Above = 3,
}

impl Layer {
    // The number of the layer, counted from the homes upward.
    pub fn level(self) -> u8
        ensures { result ≡ layer_of self }
    {
        self as u8
    }
}

// A refusal with all that is known of it. Place and key are those given to the outermost call, or 0 where
// it has none; for BadRow and NotClean the key is the row's. The detail is the holder for Held and NotClean, the
// standing wts for MovedOn, the state for PlaceTaken and WrongState, which part of the row is bad for BadRow, and 0
// for the others. They are numbers and no options, since a fault is promised number by number.
#[derive(Clone, Copy, PartialEq, Eq, Debug)]
pub struct Fault {
    pub refusal: Refusal,
    pub layer: Layer,
    pub place: u32,
    pub key: u32,
    pub detail: u64,
}
