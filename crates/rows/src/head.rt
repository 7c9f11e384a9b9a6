// The head of a store.

ghost use Rattle.std.specs.Prelude.{◌≡◌};
ghost use Rattle.machine.specs.Codes.{is_role};
ghost use Rattle.rows.specs.Asked.{head_fits};

#[derive(Clone, Copy)]
pub struct Head {}

impl Head {
    pub const BYTES: usize = 16;

    // First free record, first held, first whole, first free cell.
    pub const FREE: usize = 0;

    pub const HELD: usize = 1;

    pub const WHOLE: usize = 2;

    pub const FREE_CELLS: usize = 3;

    pub const FORM: usize = 4;

    pub const CELLS: usize = 5;

    pub const ROLE: usize = 6;

    pub const REST: usize = 7;
}

// The roles of a store.
pub const RECEIVE: u64 = 1;

pub const SEND: u64 = 2;

// The one form that a store has.
pub const FORM: u8 = 1;

// Whether a role is one of the two.
pub fn is_role(role: u64) -> bool
    ensures { result ≡ is_role role }
{
    (role == RECEIVE) | (role == SEND)
}

// Whether the head is that of a store of the role, and as long as its cells ask.
pub fn fits(store: &[u8], role: u64) -> bool
    ensures { result ≡ head_fits role store.now }
{
    if store.len() < Head::BYTES {
        return false;
    }
    let cells = usize::from(store[Head::CELLS]);
    if cells == 0 {
        return false;
    }
    if cells > crate::cell::MOST {
        return false;
    }
    let rest = octets::zero_part(store, Head::REST, Head::BYTES - Head::REST);
    (store.len() == crate::cell::FIRST + crate::cell::BYTES * cells)
        & is_role(role)
        & (u64::from(store[Head::ROLE]) == role)
        & (store[Head::FORM] == FORM)
        & rest
}
