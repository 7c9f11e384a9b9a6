// Sizes for a length and a number of pieces, as a fresh receiver keeps and finishes them, the greatest that there are.
// What is asked of them stands in specs/Plan.antt; that these lines give it is proved in specs/PlanLaws.antt.

#![tactic(auto)]

ghost use Rattle.std.specs.Prelude.{◌≡◌, ◌*◌, ◌≤◌, min, length};
ghost use Rattle.octets.specs.Octets.{put};
ghost use Rattle.answer.specs.Results.{answer_of};
ghost use Rattle.machine.specs.Limits.{longest};
ghost use Rattle.planner.specs.Plan.{words, plan_of};
ghost use Rattle.planner.specs.Form.{planned, plannable};

use answer::{Done, Refusal};
use packet::chunk::MessageChunk;
use rows::{message, record};

// The least bytes of the buffer: room for the sizes of 30 pieces.
const ROOM: usize = 60;

// Whether there is a list of so many sizes.
fn has_list(total: u64, count: u64) -> bool
    requires { total ≤ longest }
    ensures { result ≡ plannable total count }
{
    let least = message::slots(total);
    let most = message::top(total) + 1;
    (least <= count) & ((count <= record::MOST_OF_SOURCE) & (count <= most))
}

// Writes so many sizes at the start of `out`, 2 bytes each. By the index, since what `chunks_mut` lends is not said of all
// of `out` again.
fn write_sizes(total: u64, count: usize, out: &mut [u8])
    requires { 2 * count ≤ length out.old }
    ensures { out.new ≡ put out.old 0 (words (planned count total)) }
{
    let mut left = total;
    for i in 0..count {
        let size = MessageChunk::LARGEST.min(left);
        octets::write::<2>(out, 2 * i, size);
        left -= size;
    }
}

// The sizes for a message of `total` bytes in `count` pieces, into `out`; the run length is their byte count.
// Refuses a buffer under 60 bytes, then a number of pieces that has no such list and a length over 32,500.
pub fn plan(total: u64, count: u64, out: &mut [u8]) -> Result<Done, Refusal>
    ensures { record { answer = answer_of result; out = out.new } ≡ plan_of total count out.old }
{
    if out.len() < ROOM {
        return Err(Refusal::ShortOutput);
    }
    if total > message::LONGEST {
        return Err(Refusal::NoPlan);
    }
    if !has_list(total, count) {
        return Err(Refusal::NoPlan);
    }
    write_sizes(total, count as usize, out);
    Ok(Done {
        run: 2 * count,
        ..Done::NOTHING
    })
}
