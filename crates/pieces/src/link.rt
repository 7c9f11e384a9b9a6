// Links to cells, along the chain of a record's pieces.
ghost use Rattle.std.specs.Prelude.{◌≡◌, suc};
ghost use Rattle.machine.specs.Limits.{most_cells};
ghost use Rattle.machine_writes.specs.Links.{Links};
ghost use Rattle.pieces.specs.InPlace.{spot_from, holds_index, LinkIn};

use rows::cell::{Cell, STEPS, cell_at};

// A link to a cell, or the 0 that ends a chain, by the byte where it stands in a store whose links are in range.
#[derive(Clone, Copy)]
pub struct CellLink<'a> {
    pub store: &'a [u8],
    pub at: usize,
    ghost links: { Links store.now },
    ghost inside: { LinkIn store.now at },
}

impl CellLink<'_> {
    // From it on, the byte of the link to the first cell whose index is not below `index`, or of the 0 that ends the chain.
    #[tactic(auto, using(crate::proofs::Walks::seeks))]
    pub fn seek(self, index: u64) -> usize
        ensures { let b = self.entry.store.now in
            (result ≡ spot_from b (suc most_cells) self.entry.at index) × LinkIn b result }
    {
        let mut here = self.at;
        for n in 0..STEPS {
            let place = usize::from(self.store[here]);
            if place == 0 {
                return here;
            }
            let row = cell_at(place);
            if index <= u64::from(self.store[row + Cell::INDEX]) {
                return here;
            }
            here = row;
        }
        here
    }

    // Whether it leads to a piece of that index.
    #[tactic(auto, using(crate::proofs::Inserts::inserts))]
    pub fn holds(self, index: u64) -> bool
        ensures { result ≡ holds_index self.entry.store.now self.entry.at index }
    {
        let place = usize::from(self.store[self.at]);
        if place == 0 {
            return false;
        }
        let row = cell_at(place);
        index == u64::from(self.store[row + Cell::INDEX])
    }
}
