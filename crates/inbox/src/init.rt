// Init: a message is announced, with its length and its topic.

ghost use Rattle.std.specs.Prelude.{◌≡◌, ◌++◌};
ghost use Rattle.answer.specs.Results.{answered};
ghost use Rattle.topic.specs.Admission.{admission_of};
ghost use Rattle.machine.specs.Rules.{number_of};
ghost use Rattle.machine.specs.Layout.{decode};
ghost use Rattle.machine.specs.Find.{is_some};
ghost use Rattle.machine.specs.Receive.{found, init_step};
ghost use Rattle.machine.specs.Refusals.{refusal};
ghost use Rattle.machine.specs.Valid.{LabelSized};
ghost use Rattle.records.specs.HeldAt.{Receives};
ghost use Rattle.records.specs.Opening.{new_label};
ghost use Rattle.records.specs.Step.{stepped};
ghost use Rattle.machine.specs.Packet.{rules_row, place_row};

use answer::Refusal;
use packet::label::Label;
use records::find::Store;
use rows::head::RECEIVE;
use topic::Admission;

// What a rule book says of a topic and a source.
fn admission(rules: &[u8], topic: &[u8], from: &[u8; 16]) -> Result<(), Refusal>
    ensures { answered result
        ≡ number_of (admission_of rules.now topic.now from.now) }
{
    match topic::admission(rules, topic, from) {
        Admission::Malformed => Err(Refusal::BadRules),
        Admission::Closed => Err(Refusal::ClosedTopic),
        Admission::Open => Ok(()),
    }
}

// Rows 3 and 4: the rule book, which an init without reply flag reads.
fn rules_refusal(reply: bool, from: &[u8; 16], topic: &[u8], rules: &[u8]) -> Result<(), Refusal>
    ensures { answered result
        ≡ refusal (rules_row reply from.now topic.now rules.now) }
{
    if reply {
        return Ok(());
    }
    admission(rules, topic, from)
}

// Rows 5 to 7: the refusal of an init, whose id was searched for: whether a record with it is held.
#[tactic(auto, using(records::specs::RefuseLaws::rows))]
fn refusal(recv: Store<'_, RECEIVE>, is_held: bool, id: &[u8], total: u64) -> Result<(), Refusal>
    requires { is_held ≡ is_some (found id.now (decode recv.bytes.now).held) }
    ensures { let s = decode recv.entry.bytes.now in
        answered result ≡ refusal (place_row id.now total s (found id.now s.held)) }
{
    if recv.is_whole(id) {
        return Err(Refusal::AlreadyWhole);
    }
    if total > rows::message::LONGEST {
        return Err(Refusal::TooLong);
    }
    if is_held || recv.is_free() {
        return Ok(());
    }
    Err(Refusal::NoRecord)
}

// Init: the refusal, or the store with the message announced: a record opened, a held one left as it is where the init
// says it again, or else started again.
pub fn init(recv: &mut [u8], label: Label, topic: &[u8], rules: &[u8]) -> Result<(), Refusal>
    requires { Receives recv.old × LabelSized (new_label label topic.now) }
    ensures { let b = recv.old in
        let t = topic.now in
        let k = label.id in
        let s = decode b in
        let rules = rules_row label.reply label.source t rules.entry.now in
        let row = rules ++ place_row k label.total s (found k s.held) in
        record { number = answered result; store = recv.new }
        ≡ stepped (refusal row) (init_step (new_label label t) s) b }
{
    let id = label.id;
    let source = label.source;
    rules_refusal(label.reply, &source, topic, rules)?;
    let store = Store::<'_, RECEIVE> { bytes: recv };
    let found = store.find(&id);
    refusal(store, found.is_some(), &id, label.total)?;
    let Some(held) = found else {
        records::open::open_arriving(recv, label, topic);
        return Ok(());
    };
    if held.row.says_again(label, topic) {
        return Ok(());
    }
    let link = held.row.link;
    records::restart::restart(recv, link, label, topic);
    Ok(())
}
