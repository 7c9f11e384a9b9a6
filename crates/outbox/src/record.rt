// A record that leaves, to be read.
ghost use Rattle.std.specs.Prelude.{◌≡◌, ◌≤◌, length, eqb, MatchOption};
ghost use Rattle.std.proofs.Math.Option.{none, some};
ghost use Rattle.machine.specs.Codes.{role_send};
ghost use Rattle.machine.specs.Limits.{largest_topic};
ghost use Rattle.machine.specs.Layout.{decode};
ghost use Rattle.machine.specs.Receive.{found};
ghost use Rattle.outbox.specs.Leaves.{Here};
ghost use Rattle.records.specs.HeldAt.{rec_in, key_in, HeldAt};

use packet::label::{Label, labelled};
use records::find::{Held, Store};
use records::row::Row;
use rows::head::SEND;
use soundness::pieces::Pieces;

// A held record of a sound send store.
#[derive(Clone, Copy)]
pub struct Leaving<'a> {
    pub held: Held<'a, SEND>,
    ghost here: { Here held.row.store.now held.row.link },
}

#[tactic(auto, unfolding(machine::specs::Layout::rec_of), using(crate::specs::HereLaws::here))]
impl<'a> Leaving<'a> {
    ghost use Rattle.soundness.specs.Places.{pieces_left};
    ghost use Rattle.outbox.specs.Left.{record_of, Carries};

    // The record that the link at byte `link` leads to.
    #[tactic(auto, using(crate::specs::HereLaws::here, records::specs::MetLaws::here))]
    pub fn at(send: &'a [u8], link: usize) -> Leaving<'a>
        requires { HeldAt role_send send.now link }
        ensures { (record_of result ≡ rec_in send.now link) × Here send.now link }
    {
        let row = Row { store: send, link };
        Leaving { held: Held { row } }
    }

    // The held record with that id.
    pub fn find(store: Store<'a, SEND>, id: &[u8]) -> Option<Leaving<'a>>
        ensures { let b = store.entry.bytes.now in
            let o = found id.now (decode b).held in
            MatchOption result (o ≡ none) (λ r. let link = r.held.row.link in
            (r.held.row.store.now ≡ b) × (o ≡ some (rec_in b link)) × (key_in b link ≡ id.now)
            × Here b link) }
    {
        let held = store.find(id)?;
        Some(Leaving { held })
    }

    // What its message says of itself, but for the topic.
    pub fn label(self) -> Label
        ensures { Carries result (record_of self.entry).label }
    {
        let row = self.held.row;
        labelled(
            row.id(),
            row.source(),
            row.destination(),
            row.reply() == 1,
            row.total(),
        )
    }

    // Its topic, as that part of the store.
    pub fn topic(self) -> &'a [u8]
        ensures { (result.now ≡ (record_of self.entry).label.topic) × (length result.now ≤ largest_topic) }
    {
        self.held.row.topic()
    }

    // Its pieces.
    pub fn pieces(self) -> Pieces<'a>
        ensures { pieces_left result ≡ (record_of self.entry).cells }
    {
        self.held.pieces()
    }

    // How many pieces it has.
    pub fn slots(self) -> u64
        ensures { (result ≡ (record_of self.entry).slots) × (result ≡ length (record_of self.entry).cells) }
    {
        self.held.row.slots()
    }

    // Its state.
    pub fn state(self) -> u8
        ensures { result ≡ (record_of self.entry).sending.state }
    {
        self.held.row.state()
    }

    // Whether it has the timed-out mark: a deadline wake was there before.
    pub fn is_late(self) -> bool
        ensures { result ≡ eqb (record_of self.entry).sending.timed_out 1 }
    {
        self.held.row.timed_out() == 1
    }
}
