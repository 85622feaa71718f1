//! Where the rows of a list stand, in order and by place.
ghost use Rattle.std.specs.Prelude.{◌≡◌, ◌<◌, ◌≤◌, ◌&&◌, ◌==◌, length, slice_index, slice_set};
ghost use Rattle.containment.specs.Format.{rows_of};
ghost use Rattle.containment.specs.Indexing.{AllStart, Indexed, Listed, Low};
ghost use Rattle.containment.specs.Rows.{row_at};
ghost use Rattle.containment.specs.Serving.{all_step, served_by};
ghost use Rattle.containment.specs.Stepping.{marked};

use crate::places::Codes;
use crate::sets::{PLACES, Set};

/// The most rows of a list, each of which has two numbers or more.
const ROWS: usize = 8192;

/// A row: a place of the earlier layout, and a set of places of the later one.
#[derive(Clone, Copy)]
pub(crate) struct Row<'a> {
    pub(crate) place: u16,
    pub(crate) set: &'a [u16],
}

/// The rows of a list of numbers. The tables take some 33 KB on the stack, and as much again while they are filled and moved.
// Kept: the number of rows stands for no row, since an Option for each row would double the table of next rows; and the rows of a place are
// linked, since to sort them by place by comparisons is of a worse order.
#[derive(Drop)]
pub(crate) struct Index<'a> {
    pub(crate) numbers: &'a [u16],
    /// The number of rows.
    count: usize,
    /// The index at which each row begins.
    // Kept: an array beside the count and no ArrayVec, so that a call clears and moves no more than the two long tables, once.
    starts: [u16; ROWS],
    /// The next row with the same place, for each row.
    nexts: [u16; ROWS],
    /// The first row of each place.
    firsts: [u16; PLACES],
    ghost indexed: { ∥ Indexed numbers.now count starts nexts firsts ∥₁ },
}

/// Notes where each row begins, and tells how many rows there are.
fn note_starts(numbers: &[u16], starts: &mut [u16; ROWS]) -> usize
    requires { Listed (rows_of numbers.now) numbers.now }
    ensures count { result ≡ length (rows_of numbers.now) }
    ensures few { result ≤ ROWS }
    ensures starts { AllStart (rows_of numbers.now) numbers.now starts.new (length (rows_of numbers.now)) }
{
    let mut count = 0;
    let mut start = 0;
    // Kept: the index itself is noted, and goes on by a row's size; a slice peeled row by row would need it beside.
    while start < numbers.len() {
        starts[count] = start as u16;
        count += 1;
        start += 2 + usize::from(numbers[start + 1]);
    }
    count
}

/// Puts row `n` before the rows of its place that are linked.
fn link(n: u16, place: usize, nexts: &mut [u16; ROWS], firsts: &mut [u16; PLACES])
    requires row { n < ROWS }
    requires place { place < PLACES }
    ensures next { nexts.new ≡ slice_set nexts.old n (slice_index firsts.old place) }
    ensures first { firsts.new ≡ slice_set firsts.old place n }
{
    nexts[usize::from(n)] = firsts[place];
    firsts[place] = n;
}

/// Has the place the code, and is it in the table of followers?
fn steps(place: u16, follow: &Set, codes: &Codes, code: u16) -> bool
    requires { place < PLACES }
    ensures { result ≡ ((slice_index codes.now place == code) && marked follow.now place) }
{
    let place = usize::from(place);
    codes[place] == code && follow[place]
}

/// Has each place the code, and is each in the table of followers?
// Kept: three parameters, since a struct of them would be made by one caller and at once taken apart here.
fn all_step(places: &[u16], follow: &Set, codes: &Codes, code: u16) -> bool
    requires { Low places.now }
    ensures { result ≡ all_step follow.now codes.now code places.now }
{
    // Kept: the last place before the others, since the sets of a place may differ at their ends alone.
    match places.split_last() {
        Some((last, rest)) => {
            steps(*last, follow, codes, code)
                && rest.iter().all(|place| steps(*place, follow, codes, code))
        }
        None => true,
    }
}

impl<'a> Index<'a> {
    /// The index of a list of numbers.
    pub(crate) fn new(numbers: &'a [u16]) -> Index<'a>
        requires { Listed (rows_of numbers.now) numbers.now }
        ensures { result.numbers.now ≡ numbers.now }
    {
        let mut starts = [0; ROWS];
        let count = note_starts(numbers, &mut starts);
        let mut nexts = [0; ROWS];
        let mut firsts = [count as u16; PLACES];
        // Kept: by number and from the last row to the first, so that the rows of a place are linked in rising order.
        for n in (0..count).rev() {
            let place = usize::from(numbers[usize::from(starts[n])]);
            link(n as u16, place, &mut nexts, &mut firsts);
        }
        Index {
            numbers,
            count,
            starts,
            nexts,
            firsts,
        }
    }

    /// The number of rows.
    pub(crate) fn count(&self) -> usize
        ensures { result ≡ length (rows_of self.now.numbers.now) }
    {
        self.count
    }

    /// Row `n`.
    pub(crate) fn row(&self, n: usize) -> Row<'a>
        requires { n < length (rows_of self.now.numbers.now) }
        ensures place { result.place ≡ (row_at (rows_of self.now.numbers.now) n).place }
        ensures set { result.set.now ≡ (row_at (rows_of self.now.numbers.now) n).set }
        ensures low { Low result.set.now }
    {
        let start = usize::from(self.starts[n]);
        let from = start + 2;
        let size = usize::from(self.numbers[start + 1]);
        Row {
            place: self.numbers[start],
            set: &self.numbers[from..from + size],
        }
    }

    /// Is there a row for `f` each of whose places has the code and is in the table of followers?
    pub(crate) fn serves(&self, f: usize, follow: &Set, codes: &Codes, code: u16) -> bool
        requires { f < PLACES }
        ensures { result ≡ served_by (rows_of self.now.numbers.now) follow.now codes.now code f }
    {
        let mut n = usize::from(self.firsts[f]);
        // Kept: the rows of a place are linked, and no iterator of the library goes along links.
        while n < self.count {
            if all_step(self.row(n).set, follow, codes, code) {
                return true;
            }
            n = usize::from(self.nexts[n]);
        }
        false
    }
}
