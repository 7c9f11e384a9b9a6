// The room: packets are delivered to the node that they are addressed to, until none waits.

ghost use Rattle.std.specs.Prelude.{◌≡◌, List, ◌∷◌, ℕ, ◌+◌, ◌-◌, ◌*◌, ◌≤◌, length, take, drop, replicate};
ghost use Rattle.octets.specs.Octets.{same};
ghost use Rattle.answer.specs.Results.{answer_of};
ghost use Rattle.machine.specs.Packet.{packet_room};
ghost use Rattle.machine.specs.Wake.{send_wake_room};
ghost use Rattle.link.specs.Entries.{to_of};
ghost use Rattle.link.specs.Link.{put_out};
ghost use Rattle.lesson.specs.Room.{office_address, arrived, deliver_first, settled};
ghost use Rattle.lesson.specs.Lesson.{fresh_store, fresh};
ghost use Rattle.lesson.specs.Steps.{node_of, room_with, at_rest, asks, replies_room};
ghost use Rattle.lesson.specs.Steps.{Handed, SomeReady, Ready, Delivered};

use answer::{Done, Refusal};
use link::queue::Mark;
use link::{entry, queue};
use octets::equal;

pub const TABLET: [u8; 16] = [4, 0, 0, 0, 0, 0, 0, 0, 0, 0, 0, 0, 0, 0, 0, 1];

pub const OFFICE: [u8; 16] = [4, 0, 0, 0, 0, 0, 0, 0, 0, 0, 0, 0, 0, 0, 0, 2];

// The bytes of a store of 45 cells.
const STORE: usize = 64740;

// The longest run, a send wake's.
pub const RUN: usize = 10960;

// The most packets of a run: each takes 34 bytes at least.
const PACKETS: usize = RUN / 34 + 1;

// The most bytes of the queue in a round: each packet of a run twice, behind its size (2), and two replies of
// 88 bytes to each of them.
const QUEUE: usize = 2 * (RUN + 2 * PACKETS) + 352 * PACKETS;

// The most deliveries in a round: each packet of a run twice, and two replies to each of them.
const DELIVERIES: usize = 6 * PACKETS;

// A node's two stores.
#[derive(Drop)]
pub struct Stores {
    pub recv: [u8; STORE],
    pub send: [u8; STORE],
}

impl Stores {
    // Fresh, with 45 cells each.
    pub fn fresh() -> Stores
        ensures { (result.recv ≡ fresh_store 1) × (result.send ≡ fresh_store 2) }
    {
        let mut stores = Stores {
            recv: [0; STORE],
            send: [0; STORE],
        };
        let _ = message::setup(&mut stores.recv, 1);
        let _ = message::setup(&mut stores.send, 2);
        stores
    }
}

#[derive(Drop)]
pub struct Nodes {
    pub tablet: Stores,
    pub office: Stores,
}

// The room while no packet waits: the nodes, and the letters to come.
#[derive(Drop)]
pub struct Room<'a> {
    pub nodes: Nodes,
    pub letters: &'a [u8],
}

// The queue in its buffer: its first packet stands at the head, and its end and the letters to come are a mark.
#[derive(Drop)]
struct Queue<'a> {
    bytes: [u8; QUEUE],
    head: usize,
    mark: Mark<'a>,
}

// How long the run is that a call gives: a refused one gives none.
pub fn run_length(outcome: Result<Done, Refusal>) -> usize
    ensures { result ≡ (answer_of outcome).run }
{
    match outcome {
        Ok(done) => done.run as usize,
        Err(_) => 0,
    }
}

// The packet of an entry comes to the node with these stores; answers how long its reply in `run` is.
fn arrive(node: &mut Stores, e: &[u8], run: &mut [u8; 86]) -> usize
    requires { run.old ≡ replicate packet_room 0 }
    ensures { let o = arrived (node_of node.old.recv node.old.send) e.now in
        (result ≡ o.answer.run)
        × (node.new.recv ≡ o.recv)
        × (node.new.send ≡ o.send)
        × (run.new ≡ o.out)
        × (result ≤ packet_room)
        × (length run.new ≡ packet_room) }
{
    let frame = entry::frame_of(e);
    let from = entry::from_of(e);
    let to = entry::to_of(e);
    run_length(message::packet(
        &mut node.recv,
        &mut node.send,
        frame,
        &from,
        &to,
        &[0],
        1,
        run,
    ))
}

// Whether the packet of an entry goes to the office.
fn to_office(e: &[u8]) -> bool
    ensures { result ≡ same (to_of e.now) office_address }
{
    equal(&entry::to_of(e), &OFFICE)
}

// The packet of the entry from `start` to `next` comes to the node with these stores; its reply is put out.
fn hand_over(node: &mut Stores, queue: &mut Queue<'_>, start: usize, next: usize)
    requires { let e = take (next - start) (drop start queue.old.bytes) in
        (start ≤ next)
        × (next ≤ length queue.old.bytes)
        × (queue.old.mark.tail + replies_room * asks e ≤ length queue.old.bytes) }
    ensures { let e = take (next - start) (drop start queue.old.bytes) in
        Handed (arrived (node_of node.old.recv node.old.send) e) node.new.recv node.new.send
        queue.old.bytes queue.new.bytes queue.old.mark.letters.now
        queue.old.mark.tail queue.new.mark.tail queue.new.mark.letters.now
        × (queue.new.head ≡ queue.old.head) }
{
    let mut run = [0u8; 86];
    let n = arrive(node, &queue.bytes[start..next], &mut run);
    queue.mark = queue::put_all(&mut queue.bytes, queue.mark, &run[..n]);
}

// The first packet of the queue is delivered.
fn deliver(nodes: &mut Nodes, queue: &mut Queue<'_>)
    requires { SomeReady queue.old.bytes queue.old.head queue.old.mark.tail }
    ensures { (e : List ℕ) (q : List (List ℕ))
        → Ready queue.old.bytes queue.old.head queue.old.mark.tail e q
        → Delivered (deliver_first (e ∷ q) (room_with nodes.old (e ∷ q) queue.old.mark.letters.now))
        (room_with nodes.new) queue.new.bytes queue.new.head queue.new.mark.tail
        queue.new.mark.letters.now }
{
    let start = queue.head + 2;
    let next = start + queue::first_size(&queue.bytes, queue.head);
    queue.head = next;
    if to_office(&queue.bytes[start..next]) {
        hand_over(&mut nodes.office, queue, start, next);
        return;
    }
    hand_over(&mut nodes.tablet, queue, start, next);
}

impl<'a> Room<'a> {
    // Fresh nodes, and all of the letters to come.
    pub fn fresh(letters: &'a [u8]) -> Room<'a>
        ensures { at_rest result ≡ fresh letters.now }
    {
        let nodes = Nodes {
            tablet: Stores::fresh(),
            office: Stores::fresh(),
        };
        Room { nodes, letters }
    }

    // A run of the tablet's is put out, and all that waits is delivered, with the replies.
    pub fn settle(&mut self, run: &[u8])
        requires { length run.now ≤ send_wake_room }
        ensures { let before = at_rest self.old in
            at_rest self.new
            ≡ settled (record {
              tablet = before.tablet;
              office = before.office;
              link = put_out run.now before.link;
            }) }
    {
        let mark = Mark {
            tail: 0,
            letters: self.letters,
        };
        let mut queue = Queue {
            bytes: [0; QUEUE],
            head: 0,
            mark,
        };
        queue.mark = queue::put_all(&mut queue.bytes, mark, run);
        let mut left: usize = DELIVERIES;
        // no `for`: each delivery may put more packets behind the last one
        while queue.head < queue.mark.tail {
            deliver(&mut self.nodes, &mut queue);
            left -= 1;
        }
        self.letters = queue.mark.letters;
    }
}
