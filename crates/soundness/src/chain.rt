// Chains of rows: a walk along the links that marks each place it meets.

ghost use Rattle.std.specs.Prelude.{◌≡◌, ◌+◌, ◌*◌, ◌≤◌, ◌<◌, length};
ghost use Rattle.machine.specs.Limits.{most_cells};
ghost use Rattle.machine_laws.specs.Marks.{all_marked};
ghost use Rattle.soundness.specs.Walked.{row_of, cell_table, Fitting, chain_marked};

use crate::store::Store;
use rows::{Holds, cell, record};

// Rows of one size, one behind the other from a start on. A walk along their links takes at most `steps` steps.
#[derive(Clone, Copy)]
pub struct Table {
    pub start: usize,
    pub size: usize,
    pub count: usize,
    pub steps: usize,
}

impl Table {
    // The records of a store.
    pub const RECORDS: Table = Table {
        start: record::FIRST,
        size: record::BYTES,
        count: record::COUNT,
        steps: record::STEPS,
    };

    // The cells of a store that has so many.
    pub fn cells(count: usize) -> Table
        ensures { result ≡ cell_table count }
    {
        Table {
            start: cell::FIRST,
            size: cell::BYTES,
            count,
            steps: cell::STEPS,
        }
    }
}

// The row of a table at the place x.
#[tactic(auto, using(crate::proofs::Walking::row_long, octets::specs::PartsLaws::part_of))]
fn row(s: &[u8], t: Table, x: usize) -> &[u8]
    requires { (t.start + t.size * t.count ≤ length s.now) × (0 < x) × (x ≤ t.count) }
    ensures { (result.now ≡ row_of t s.now x) × (length result.now ≡ t.size) }
{
    let start = t.start + t.size * (x - 1);
    &s[start..start + t.size]
}

// Walks the chain from `first` on and marks its places by ones: whether each is inside, not marked before, and its
// row as asked. Inline, so that each caller's loop knows the size of its rows and what they are to hold.
#[inline(always)]
#[tactic(auto, using(crate::proofs::Walking::turns))]
pub fn marked(
    s: &[u8],
    t: Table,
    role: u64,
    holds: Holds,
    first: usize,
    marks: &mut [u8; cell::STEPS],
) -> bool
    requires { Fitting t holds s.now }
    ensures { record { ok = result; marks = marks.new }
        ≡ chain_marked t role holds s.now first marks.old }
{
    let mut x = first;
    for _ in 0..t.steps {
        if x == 0 {
            return true;
        }
        if x > t.count || marks[x] != 0 {
            return false;
        }
        let row = row(s, t, x);
        // read before the row is tested, so that the next one is fetched meanwhile
        let next = usize::from(row[0]);
        if !rows::fits(row, role, holds) {
            return false;
        }
        marks[x] = 1;
        x = next;
    }
    true
}

impl<'a> Store<'a> {
    // The row of a table at the place x.
    pub fn row(self, t: Table, x: usize) -> &'a [u8]
        requires { (t.start + t.size * t.count ≤ length self.bytes.now) × (0 < x) × (x ≤ t.count) }
        ensures { (result.now ≡ row_of t self.entry.bytes.now x) × (length result.now ≡ t.size) }
    {
        row(self.bytes, t, x)
    }

    // Walks a chain of the store, as `marked` does.
    #[inline(always)]
    pub fn marked(self, t: Table, holds: Holds, first: usize, marks: &mut [u8; cell::STEPS]) -> bool
        requires { Fitting t holds self.bytes.now }
        ensures { record { ok = result; marks = marks.new }
            ≡ chain_marked t self.entry.role holds self.entry.bytes.now first marks.old }
    {
        marked(self.bytes, t, self.role, holds, first, marks)
    }
}

// Whether the places from 1 to n are all marked. All marks are read, so that the loop vectorizes.
#[tactic(auto, using(crate::proofs::Walking::marks))]
pub fn all_marked(marks: &[u8; cell::STEPS], n: usize) -> bool
    requires { n ≤ most_cells }
    ensures { result ≡ all_marked marks.now n }
{
    let mut all = true;
    for mark in &marks[1..=n] {
        all &= *mark == 1;
    }
    all
}
