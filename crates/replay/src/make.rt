// The calls, made on the library as a line says.

use crate::kind::Kind;
use crate::told::Output;
use crate::{key, room, value};
use answer::{Done, Refusal};
use calendar::ALWAYS;
use packet::header;

// What a call gives, or nothing where its line is not of the form.
type Made = Option<Result<Done, Refusal>>;

// The node that a list's calls are made on, with its stores.
#[derive(Drop)]
pub(crate) struct Node<'s, 't> {
    pub(crate) address: [u8; 16],
    pub(crate) recv: &'s mut [u8],
    pub(crate) send: &'s mut [u8],
    // The bytes of the rule book, as a line says them.
    pub(crate) rules: &'t [u8],
    // The line with the known keys, or an empty one.
    pub(crate) known: &'t [u8],
}

impl<'t> Node<'_, 't> {
    // `push ID REPLY TO TOPIC DATA CREATED TRY`, from the node's address.
    fn push(&mut self, words: &[&[u8]], run: &mut [u8]) -> Made {
        let [_, id, reply, to, topic, data, created, try_ms] = words else {
            return None;
        };
        let id = value::name(id)?;
        let reply = value::flag(reply)?;
        let to = value::name(to)?;
        let mut topic_room = [0u8; 512];
        let topic = value::bytes(topic, &mut topic_room)?;
        let mut data_room = [0u8; room::MESSAGE];
        let data = value::bytes(data, &mut data_room)?;
        let created = value::number(created)?;
        let try_ms = value::number(try_ms)?;
        let from = self.address;
        Some(message::push(
            self.send, &id, reply, &from, &to, topic, data, created, try_ms, run,
        ))
    }

    // `packet FROM TO BYTES`.
    fn packet(&mut self, words: &[&[u8]], run: &mut [u8]) -> Made {
        let [_, from, to, bytes] = words else {
            return None;
        };
        let from = value::name(from)?;
        let to = value::name(to)?;
        let mut frame = [0u8; room::FRAME];
        value::bytes(bytes, &mut frame)?;
        let mut book = [0u8; room::BOOK];
        let rules = value::bytes(self.rules, &mut book)?;
        let known = u64::from(key::is_known(self.known, self.recv, &frame[..header::ID_SIZE]));
        Some(message::packet(self.recv, self.send, &frame, &from, &to, rules, known, run))
    }

    // `wake KIND ID CLOCK`, within hours: the original has none.
    fn wake(&mut self, words: &[&[u8]], run: &mut [u8]) -> Made {
        let [_, kind, id, clock] = words else {
            return None;
        };
        let kind = value::number(kind)?;
        let id = value::name(id)?;
        let clock = value::number(clock)?;
        Some(message::wake(self.send, kind, &id, clock, &ALWAYS, 0, run))
    }

    // `report ID`.
    fn report(&self, words: &[&[u8]], shown: &mut [u8]) -> Made {
        let [_, id] = words else {
            return None;
        };
        let id = value::name(id)?;
        let told = message::report(self.send, &id, shown);
        Some(told.map(|()| Done::NOTHING))
    }

    // `take`.
    fn take(&mut self, words: &[&[u8]], out: &mut Output) -> Made {
        let [_] = words else {
            return None;
        };
        Some(message::take(self.recv, &mut out.shown, &mut out.run))
    }

    // `rules BYTES`, which calls nothing: the rule book is in force from here on.
    fn rules(&mut self, words: &[&'t [u8]]) -> Made {
        let [_, bytes] = words else {
            return None;
        };
        let mut book = [0u8; room::BOOK];
        value::bytes(bytes, &mut book)?;
        self.rules = bytes;
        Some(Ok(Done::NOTHING))
    }

    // `known ADDRESS ..`, which calls nothing: these keys are known from here on.
    fn known(&mut self, line: &'t [u8]) -> Made {
        if !key::are_addresses(line) {
            return None;
        }
        self.known = line;
        Some(Ok(Done::NOTHING))
    }

    // The call of a line of that kind with these words.
    pub(crate) fn call(
        &mut self,
        kind: Kind,
        line: &'t [u8],
        words: &[&'t [u8]],
        out: &mut Output,
    ) -> Made {
        match kind {
            Kind::Push => self.push(words, &mut out.run),
            Kind::Packet => self.packet(words, &mut out.run),
            Kind::Wake => self.wake(words, &mut out.run),
            Kind::Report => self.report(words, &mut out.shown),
            Kind::Take => self.take(words, out),
            Kind::Rules => self.rules(words),
            Kind::Known => self.known(line),
            // These tell of a call.
            Kind::Number | Kind::Sent | Kind::Shown | Kind::Woke | Kind::Unseen => None,
        }
    }
}
