//! What a reader of rows wants next.
ghost use Rattle.std.specs.Prelude.{◌≡◌, ◌<◌};
ghost use Rattle.containment.specs.Format as format;

#[derive(Clone, Copy)]
pub(crate) enum Want {
    /// The place of a row, or the end of the list.
    Place,
    /// The number of places in its set.
    Size,
    /// Places of its set: this many after the next, which is at least the second number.
    Member(usize, usize),
}

impl Want {
    /// What is wanted where `left` places of a set are, from `least` on.
    fn members(left: usize, least: usize) -> Want
        ensures { result ≡ format.members left least }
    {
        if left == 0 {
            Want::Place
        } else {
            Want::Member(left - 1, least)
        }
    }

    /// What is wanted after a number.
    pub(crate) fn next(self, number: usize) -> Want
        requires { number < 65536 }
        ensures { result ≡ format.after self number }
    {
        match self {
            Want::Place => Want::Size,
            Want::Size => Want::members(number, 0),
            Want::Member(left, _) => Want::members(left, number + 1),
        }
    }
}
