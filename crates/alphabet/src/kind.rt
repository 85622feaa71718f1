//! A kind of letters, each with a code from 0 to 65,535.
ghost use Rattle.std.specs.Prelude.{◌≡◌, ℕ, Some, Option};

pub trait Kind {
    type Letter: Copy + Drop;

    /// Which values are letters. To a law a `u8` is any natural number; a type that keeps its own range has nothing to say here.
    ghost ranged: { Self.Letter → Type 0 };

    /// The code of a letter.
    ghost coded: { Self.Letter → ℕ };

    /// The letter that a code gives, or none.
    ghost lettered: { ℕ → Option Self.Letter };

    fn code(l: Self::Letter) -> u16
        ensures { result ≡ coded l };

    fn letter(code: u16) -> Option<Self::Letter>
        ensures { result ≡ lettered code };

    /// The code of a letter gives that letter.
    ghost back: { (l : Self.Letter) → ranged l → lettered (coded l) ≡ Some l };

    /// A code that gives a letter is that letter's code.
    ghost only: { (c : ℕ) (l : Self.Letter) → lettered c ≡ Some l → ranged l × (coded l ≡ c) };
}
