// A list's first line, `node KEY ADDRESS CELLS CELLS`: the node that its calls are made on.

ghost use Rattle.std.specs.Prelude.{◌≤◌};
ghost use Rattle.machine.specs.Limits.{store_bytes, most_cells};

use crate::make::Node;
use crate::room::STORE;
use crate::text::Words;
use crate::told::Why;
use crate::value;
use rows::{cell, head};

// The bytes of a store with as many cells as the word says, or 0 where it does not say how many: of no bytes there is no
// fresh store, so the setup refuses them.
fn size(cells: &[u8]) -> usize
    ensures { result ≤ store_bytes most_cells }
{
    match value::number(cells) {
        Some(n) if n <= cell::MOST as u64 => cell::FIRST + cell::BYTES * n as usize,
        _ => 0,
    }
}

// The address of a key, which must be the one that the list gives.
fn address(key: &[u8], given: &[u8]) -> Result<[u8; 16], Why> {
    let key = value::name::<32>(key).ok_or(Why::Word(1))?;
    let mut made = [0u8; 16];
    if address::address(&key, &mut made).is_err() {
        return Err(Why::Word(1));
    }
    if !value::is_bytes(given, &made) {
        return Err(Why::Word(2));
    }
    Ok(made)
}

// Makes a store fresh.
fn set_up(store: &mut [u8], role: u64) -> Result<(), Why> {
    message::setup(store, role).map_err(|refusal| Why::Number(refusal.number()))
}

impl<'s> Node<'s, '_> {
    // The node of that line, in the first bytes of these stores. Every topic is accepted, no key is known.
    pub(crate) fn fresh(
        line: &[u8],
        recv: &'s mut [u8; STORE],
        send: &'s mut [u8; STORE],
    ) -> Result<Self, Why> {
        let words = Words::of(line);
        let [b"node", key, given, recv_cells, send_cells] = words.as_slice() else {
            return Err(Why::Form);
        };
        let address = address(key, given)?;
        let recv = &mut recv[..size(recv_cells)];
        set_up(recv, head::RECEIVE)?;
        let send = &mut send[..size(send_cells)];
        set_up(send, head::SEND)?;
        Ok(Node {
            address,
            recv,
            send,
            rules: b"00",
            known: b"",
        })
    }
}
