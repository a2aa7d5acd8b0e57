// The worked cases of the store, as one theorem.
ghost use Rattle.std.specs.Prelude.{◌≡◌, length};
ghost use Rattle.serial.specs.Cases.{AllCases, cases};

// How many cases there are; all of them hold.
pub fn cases_hold() -> u8
    ensures count { result ≡ length cases }
    ensures hold { AllCases }
{
    8
}
