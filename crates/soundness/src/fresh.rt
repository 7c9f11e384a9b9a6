// Setup: a store becomes fresh.

ghost use Rattle.std.specs.Prelude.{◌≡◌, true, ◌+◌, ◌*◌, ◌≤◌, ◌<◌, ltb, length};
ghost use Rattle.std.specs.Bool.{then_some};
ghost use Rattle.octets.specs.Octets.{put};
ghost use Rattle.answer.specs.Answers.{bare};
ghost use Rattle.answer.specs.Results.{answered};
ghost use Rattle.machine.specs.Limits.{most_cells, store_bytes};
ghost use Rattle.machine.specs.Codes.{is_role};
ghost use Rattle.machine.specs.Layout.{free_row, encode};
ghost use Rattle.machine.specs.Sound.{fresh, setup_cells};
ghost use Rattle.machine.specs.Setup.{setup_of};
ghost use Rattle.soundness.specs.Rising.{free_link, free_table};

use crate::chain::Table;
use answer::Refusal;
use rows::head::Head;

// How many cells a store of n bytes has; none where no store is so long.
fn cells_of(n: usize) -> Option<usize>
    ensures { result ≡ then_some (ltb 0 (setup_cells n)) (setup_cells n) }
{
    let cells = n.saturating_sub(rows::cell::FIRST) / rows::cell::BYTES;
    let fits = 0 < cells
        && cells <= rows::cell::MOST
        && rows::cell::FIRST + rows::cell::BYTES * cells == n;
    fits.then_some(cells)
}

// A free row of n bytes with the link `next`, written at a.
fn put_free(store: &mut [u8], a: usize, n: usize, next: u8)
    requires { (1 ≤ n) × (a + n ≤ length store.old) }
    ensures { store.new ≡ put store.old a (free_row n next 0) }
{
    octets::copy_in(store, a, &[next]);
    octets::fill(store, a + 1, n - 1, 0);
}

// The link of place k in a chain that rises to `last`.
fn link_of(k: usize, last: usize) -> u8
    requires { (k ≤ last) × (last ≤ most_cells) }
    ensures { result ≡ free_link last k }
{
    if k == last { 0 } else { (k + 1) as u8 }
}

// All rows of a table, free, with a chain that rises: by the index, which each row's link is made of.
#[tactic(auto, using(crate::proofs::Rises::rows_more, crate::proofs::Rises::rows_none))]
fn put_rising(store: &mut [u8], t: Table)
    requires { (1 ≤ t.size) × (t.count ≤ most_cells) × (t.start + t.size * t.count ≤ length store.old) }
    ensures { store.new ≡ put store.old t.start (free_table t.size t.count t.count) }
{
    for i in 0..t.count {
        put_free(store, t.start + t.size * i, t.size, link_of(i + 1, t.count));
    }
}

// A fresh store of the role and so many cells, written over all bytes.
#[tactic(auto, using(crate::proofs::Rises::role_small))]
fn put_fresh(store: &mut [u8], role: u64, cells: usize)
    requires { (is_role role ≡ true) × (1 ≤ cells) × (cells ≤ most_cells)
        × (length store.old ≡ store_bytes cells) }
    ensures { store.new ≡ encode (fresh role cells) }
{
    let mut head = [0u8; Head::BYTES];
    head[Head::FREE] = 1;
    head[Head::FREE_CELLS] = 1;
    head[Head::FORM] = rows::head::FORM;
    head[Head::CELLS] = cells as u8;
    head[Head::ROLE] = role as u8;
    octets::copy_in(store, 0, &head);
    put_rising(store, Table::RECORDS);
    put_rising(store, Table::cells(cells));
}

// Makes a store fresh; refuses a length that is no store's, and a role that is none.
#[tactic(auto, unfolding(machine::specs::Setup::setup_of))]
pub fn setup(store: &mut [u8], role: u64) -> Result<(), Refusal>
    ensures { record { answer = bare (answered result); store = store.new }
        ≡ setup_of store.old role }
{
    let cells = cells_of(store.len()).ok_or(Refusal::UnsoundStore)?;
    if !rows::head::is_role(role) {
        return Err(Refusal::UnsoundStore);
    }
    put_fresh(store, role, cells);
    Ok(())
}
