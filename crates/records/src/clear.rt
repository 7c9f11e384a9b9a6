// A chain of cells is freed: each cell becomes zero but for its link, and the chain goes in front of the free cells, in its
// own order.

ghost use Rattle.std.specs.Prelude.{◌≡◌, suc, ◌<◌, get_or};
ghost use Rattle.machine.specs.Layout.{free_cells_at, cell_off};
ghost use Rattle.machine.specs.Limits.{most_cells};
ghost use Rattle.records.specs.Clearing.{or_else, cell_free, free_from, clear_from, Clearable};

use rows::cell;
use rows::head::Head;

// The link `next`, or `end` where the chain ends.
#[tactic(auto, unfolding(crate::specs::Clearing::or_else))]
fn or_else(end: u8, next: u8) -> u8
    ensures { result ≡ or_else end next }
{
    if next == 0 {
        return end;
    }
    next
}

// The cell at a place is freed; answers the place that its link led to.
fn free_cell(store: &mut [u8], place: usize, end: u8) -> usize
    requires { (0 < place) × Clearable place end store.old }
    ensures { let b = store.old in
        (result ≡ get_or b (cell_off place) 0) × (store.new ≡ cell_free end place b) }
{
    let row = cell::cell_at(place);
    let next = store[row];
    let link = [or_else(end, next)];
    octets::copy_in(store, row, &link);
    octets::fill(store, row + 1, cell::BYTES - 1, 0);
    usize::from(next)
}

// The cells from the place `first` on are freed; the last one leads to the place `end`.
#[tactic(auto, using(crate::proofs::Clears::clears))]
fn free_cells(store: &mut [u8], first: usize, end: u8)
    requires { Clearable first end store.old }
    ensures { store.new ≡ free_from end (suc most_cells) first store.old }
{
    let mut place = first;
    for n in 0..cell::STEPS {
        if place == 0 {
            return;
        }
        place = free_cell(store, place, end);
    }
}

// The chain of cells that starts at the place `first` is freed, in front of the free cells.
#[tactic(auto, using(crate::proofs::Clears::clears))]
pub fn clear(store: &mut [u8], first: usize)
    requires { Clearable first (get_or store.old free_cells_at 0) store.old }
    ensures { store.new ≡ clear_from first store.old }
{
    let end = store[Head::FREE_CELLS];
    free_cells(store, first, end);
    let link = [or_else(end, first as u8)];
    octets::copy_in(store, Head::FREE_CELLS, &link);
}
