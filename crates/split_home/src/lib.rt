// The split home: two homes side by side, as one.
#![tactic(auto)]

ghost use Rattle.std.specs.Prelude.{◌≡◌};
ghost use Rattle.split_home.specs.Splits.{split_counts};

use home::Home;

mod calls;
mod making;

// Two homes of any make, split ones too. The keys below the left home's count are the left home's; the others,
// less that count, are the right home's. One that failed its check has no keys.
#[derive(Drop)]
pub struct SplitHome<'a, 'b, L: Home, R: Home<Value = L::Value>> {
    left: &'a mut L,
    right: &'b mut R,
    // The counts of the two, where they go together: no call of a home alters them.
    counts: Option<(u32, u32)>,
    ghost counted: { counts ≡ split_counts (L.Home.meaning left.now) (R.Home.meaning right.now) },
}

// Which of the two homes has a key, and the key that the right one knows it by.
#[derive(Clone, Copy)]
pub(crate) enum Side {
    Left,
    Right(u32),
}
