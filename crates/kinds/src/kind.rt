ghost use Rattle.std.specs.Prelude.{◌≡◌, ℕ, ◌^◌, ◌<◌, Some, Option};

// A type of values that can be stored as a word, an unsigned 64-bit number.
pub trait Kind: Copy {
    // The number by which formats name the kind.
    const CODE: u8;

    // The same number, as contracts name it.
    ghost CODE: { ℕ };

    // The word of a value.
    ghost packed: { Self → ℕ };

    // The value of a word, where it has one.
    ghost unpacked: { ℕ → Option Self };

    // What a word is read as by one who knows that it has a value.
    ghost reading: { ℕ → Self };

    // The code of the kind, for callers that want no constant.
    fn kind_code() -> u8
        ensures { result ≡ CODE }
    {
        Self::CODE
    }

    // The word of this value; unpacking it gives this value again.
    fn pack(self) -> u64
        ensures word { result ≡ packed self }
        ensures again { unpacked result ≡ Some self };

    // The value that the word stands for, or none.
    fn unpack(word: u64) -> Option<Self>
        ensures { result ≡ unpacked word };

    // The value of a word that is known to have one; of another word, some value. It stands beside `unpack` for one who
    // has tested all words once: it needs no test again, and no proof that there is a value.
    fn read(word: u64) -> Self
        ensures { result ≡ reading word };

    // Where a word has a value, that value has the word.
    ghost back: { (w : ℕ) (x : Self) → w < 2 ^ 64 → unpacked w ≡ Some x → packed x ≡ w };

    // Where a word has a value, it is read as that value.
    ghost right: { (w : ℕ) (x : Self) → unpacked w ≡ Some x → reading w ≡ x };
}
