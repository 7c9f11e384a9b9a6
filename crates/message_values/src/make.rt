// Frames, and stores in the states that the lines start from.

// The bytes of a store of 25 cells, and of one of 45.
pub(crate) const SMALL: usize = 37140;

pub(crate) const LARGE: usize = 64740;

// A whole frame.
pub(crate) type Frame = [u8; 1400];

// The id that ends in `key`.
pub(crate) fn id(key: u8) -> [u8; 8] {
    [0, 0, 0, 0, 0, 0, 0, key]
}

// A frame of the id that ends in `key`: its flags, and three numbers at bytes 12, 20 and 28.
pub(crate) fn frame(key: u8, flags: u8, first: u64, second: u64, third: u64) -> Frame {
    let mut out = [0u8; 1400];
    out[7] = key;
    out[8] = flags;
    octets::write::<8>(&mut out, 12, first);
    octets::write::<8>(&mut out, 20, second);
    octets::write::<8>(&mut out, 28, third);
    out
}

// The first n bytes of s, or all where it has fewer.
pub(crate) fn start(s: &[u8], n: usize) -> &[u8] {
    &s[..n.min(s.len())]
}

// The done of a message of so many pieces, with that sum.
fn done(key: u8, count: u64, sum: &[u8; 32]) -> Frame {
    let mut out = frame(key, 0x40, count, 0, 0);
    octets::copy_in(&mut out, 20, sum);
    out
}

// The done of a message without bytes. The sum is the published one.
pub(crate) fn empty_done(key: u8) -> Frame {
    let sum = b"\xaf\x13\x49\xb9\xf5\xf9\xa1\xa6\xa0\x40\x4d\xea\x36\xdc\xc9\x49\
        \x9b\xcb\x25\xc9\xad\xc1\x12\xb7\xcc\x9a\x93\xca\xe4\x1f\x32\x62";
    done(key, 0, sum)
}

// The done of a message of one byte, 0. The sum is the published one.
pub(crate) fn one_done(key: u8) -> Frame {
    let sum = b"\x2d\x3a\xde\xdf\xf1\x1b\x61\xf1\x4c\x88\x6e\x35\xaf\xa0\x36\x73\
        \x6d\xcd\x87\xa7\x4d\x27\xb5\xc1\x51\x02\x25\xd0\xf5\x92\xe2\x13";
    done(key, 1, sum)
}

// A store to receive and one to send.
#[derive(Clone, Copy, PartialEq)]
pub(crate) struct Stores<const N: usize> {
    pub(crate) recv: [u8; N],
    pub(crate) send: [u8; N],
}

impl<const N: usize> Stores<N> {
    // Every byte of both is this one.
    pub(crate) fn filled(byte: u8) -> Self {
        Stores {
            recv: [byte; N],
            send: [byte; N],
        }
    }

    // Two fresh stores.
    pub(crate) fn fresh() -> Self {
        let mut stores = Stores::filled(0);
        let _ = message::setup(&mut stores.recv, 1);
        let _ = message::setup(&mut stores.send, 2);
        stores
    }

    // The id that ends in 1 is arriving with 300 bytes, and leaving in state 1.
    pub(crate) fn held() -> Self {
        let mut stores = Stores::fresh();
        stores.quiet(&frame(1, 0x80, 300, 0, 0));
        stores.pushed(1, &[7; 300]);
        stores.quiet(&frame(1, 0x81, 0, 0, 0));
        stores
    }

    // A packet comes in, and no line is written of it.
    pub(crate) fn quiet(&mut self, frame: &Frame) {
        self.quiet_from(0x11, frame);
    }

    // The same from any sender, by the byte that its address has sixteen times.
    pub(crate) fn quiet_from(&mut self, sender: u8, frame: &Frame) {
        let from = [sender; 16];
        let to = [0x22u8; 16];
        let mut run = [0u8; 86];
        let recv = &mut self.recv;
        let _ = message::packet(recv, &mut self.send, frame, &from, &to, b"\0", 1, &mut run);
    }

    // A message is pushed, and no line is written of it.
    pub(crate) fn pushed(&mut self, key: u8, bytes: &[u8]) {
        let from = [0x22u8; 16];
        let to = [0x11u8; 16];
        let id = id(key);
        let mut run = [0u8; 310];
        let send = &mut self.send;
        let _ = message::push(send, &id, 0, &from, &to, b"t", bytes, 0, 0, &mut run);
    }
}
