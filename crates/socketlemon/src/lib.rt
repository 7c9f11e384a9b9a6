// The calls by the C convention, for a host in any language; include/socketlemon.h declares them. A slice is
// a pointer and a length. Each export is one call and carries its whole contract.

#![tactic(auto)]

ghost use Rattle.std.specs.Prelude.{◌≡◌};
ghost use Rattle.address.specs.Address.{address_of};
ghost use Rattle.sums.specs.Sums.{keyed_hash_of, derive_key_of};
ghost use Rattle.machine.specs.Setup.{setup_of};
ghost use Rattle.machine.specs.Packet.{packet_of};
ghost use Rattle.machine.specs.Push.{push_of};
ghost use Rattle.machine.specs.Wake.{wake_of};
ghost use Rattle.machine.specs.Report.{report_of};
ghost use Rattle.machine.specs.Take.{take_of};
ghost use Rattle.planner.specs.Plan.{plan_of};

use answer::Answer;

// Makes the store fresh, in a role: 1 to receive, 2 to send.
#[unsafe(no_mangle)]
pub extern "C" fn socketlemon_setup(store: &mut [u8], role: u64) -> Answer
    ensures { record { answer = result; store = store.new }
        ≡ setup_of store.old role }
{
    message::setup(store, role).into()
}

// A packet that came in; its reply goes into `run`.
#[unsafe(no_mangle)]
pub extern "C" fn socketlemon_packet(
    recv: &mut [u8],
    send: &mut [u8],
    frame: &[u8],
    from: &[u8; 16],
    to: &[u8; 16],
    rules: &[u8],
    known: u64,
    run: &mut [u8],
) -> Answer
    ensures { record {
      answer = result;
      recv = recv.new;
      send = send.new;
      out = run.new;
    }
        ≡ packet_of recv.old send.old frame.now from.now
        to.now rules.now known run.old }
{
    message::packet(recv, send, frame, from, to, rules, known, run).into()
}

// A message to be sent; its init goes into `run`.
#[unsafe(no_mangle)]
pub extern "C" fn socketlemon_push(
    send: &mut [u8],
    id: &[u8; 8],
    reply: u64,
    from: &[u8; 16],
    to: &[u8; 16],
    topic: &[u8],
    bytes: &[u8],
    created: u64,
    try_ms: u64,
    run: &mut [u8],
) -> Answer
    ensures { record {
      answer = result;
      send = send.new;
      out = run.new;
    }
        ≡ push_of send.old id.now reply from.now to.now
        topic.now bytes.now created try_ms run.old }
{
    message::push(
        send, id, reply, from, to, topic, bytes, created, try_ms, run,
    )
    .into()
}

// A wake of a message: kind 1 sends what wants sending, within the calendar's hours, kind 2 lets the deadline pass.
#[unsafe(no_mangle)]
pub extern "C" fn socketlemon_wake(
    send: &mut [u8],
    kind: u64,
    id: &[u8; 8],
    clock: u64,
    calendar: &[u8],
    unix_ms: u64,
    run: &mut [u8],
) -> Answer
    ensures { record {
      answer = result;
      send = send.new;
      out = run.new;
    }
        ≡ wake_of send.old kind id.now clock calendar.now unix_ms run.old }
{
    message::wake(send, kind, id, clock, calendar, unix_ms, run).into()
}

// The report on a message, into `out`.
#[unsafe(no_mangle)]
pub extern "C" fn socketlemon_report(send: &[u8], id: &[u8; 8], out: &mut [u8]) -> Answer
    ensures { record { answer = result; out = out.new }
        ≡ report_of send.now id.now out.old }
{
    message::report(send, id, out).into()
}

// The oldest whole message: its record and its data go into `taken`, its read packet into `run`.
#[unsafe(no_mangle)]
pub extern "C" fn socketlemon_take(recv: &mut [u8], taken: &mut [u8], run: &mut [u8]) -> Answer
    ensures { record {
      answer = result;
      recv = recv.new;
      taken = taken.new;
      out = run.new;
    }
        ≡ take_of recv.old taken.old run.old }
{
    message::take(recv, taken, run).into()
}

// The address of a public key of 32 bytes, into `out`.
#[unsafe(no_mangle)]
pub extern "C" fn socketlemon_address(key: &[u8], out: &mut [u8]) -> Answer
    ensures { record { answer = result; out = out.new } ≡ address_of key.now out.old }
{
    address::address(key, out).into()
}

// The keyed hash of the input, which fills `out`.
#[unsafe(no_mangle)]
pub extern "C" fn socketlemon_keyed_hash(key: &[u8], input: &[u8], out: &mut [u8]) -> Answer
    ensures { record { answer = result; out = out.new }
        ≡ keyed_hash_of key.now input.now out.old }
{
    sums::keyed_hash(key, input, out).into()
}

// The key that a context and key material give, which fills `out`.
#[unsafe(no_mangle)]
pub extern "C" fn socketlemon_derive_key(context: &[u8], material: &[u8], out: &mut [u8]) -> Answer
    ensures { record { answer = result; out = out.new }
        ≡ derive_key_of context.now material.now out.old }
{
    sums::derive_key(context, material, out).into()
}

// The sizes for a message of `total` bytes in `count` pieces, which a fresh receiver keeps and finishes, into `out`.
#[unsafe(no_mangle)]
pub extern "C" fn socketlemon_plan(total: u64, count: u64, out: &mut [u8]) -> Answer
    ensures { record { answer = result; out = out.new } ≡ plan_of total count out.old }
{
    planner::plan(total, count, out).into()
}
