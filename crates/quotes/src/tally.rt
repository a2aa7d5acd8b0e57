// How many orders were done, and how many refused for each reason.
ghost use Rattle.std.specs.Prelude.{◌≡◌};
ghost use Rattle.quotes.specs.Days.{no_tally, tallied};

use home::Fault;

// The counts of a morning; `refused` goes by the number of the refusal, 1 to 19, and is no map, so that a tally is
// copied and allocates nothing.
#[derive(Clone, Copy, PartialEq, Eq, Debug)]
pub struct Tally {
    pub accepted: u64,
    pub refused: [u64; 20],
}

impl Tally {
    // A tally of nothing.
    pub fn new() -> Tally
        ensures { result ≡ no_tally }
    {
        Tally {
            accepted: 0,
            refused: [0; 20],
        }
    }

    // Counts one answer.
    pub fn count(&mut self, answer: Result<(), Fault>)
        ensures { self.new ≡ tallied self.old answer }
    {
        match answer {
            Ok(()) => self.accepted = self.accepted.saturating_add(1),
            Err(fault) => {
                let number = usize::from(fault.refusal.number());
                self.refused[number] = self.refused[number].saturating_add(1);
            }
        }
    }
}
