// What a call shows besides packets: a report, or the message that was taken.

use crate::kind::Kind;
use crate::room::TAKEN;
use crate::told::Why;
use crate::value::{is_bytes, is_number};
use rows::record;
use rows::record::Record;

// Whether a call of that kind shows anything.
pub(crate) fn is_shown(kind: Kind) -> bool {
    matches!(kind, Kind::Report | Kind::Take)
}

// Whether the word at this place says what the library gives.
fn word(place: u64, is_right: bool) -> Result<(), Why> {
    if is_right {
        Ok(())
    } else {
        Err(Why::Word(place))
    }
}

// `= TO STATE STARTED SENT ACKED CREATED END LENGTH`, compared with the report.
fn report(words: &[&[u8]], out: &[u8; TAKEN]) -> Result<(), Why> {
    let [_, to, state, started, sent, acked, created, end, length] = words else {
        return Err(Why::Form);
    };
    word(1, is_bytes(to, &out[..16]))?;
    word(2, is_number(state, &out[16..17]))?;
    word(3, is_number(started, &out[17..18]))?;
    word(4, is_number(sent, &out[18..19]))?;
    word(5, is_number(acked, &out[19..20]))?;
    word(6, is_number(created, &out[20..28]))?;
    word(7, is_number(end, &out[28..36]))?;
    word(8, is_number(length, &out[36..44]))
}

// `= ID REPLY FROM TO TOPIC DATA`, compared with the message that was taken.
fn taken(words: &[&[u8]], out: &[u8; TAKEN]) -> Result<(), Why> {
    let [_, id, reply, from, to, topic, data] = words else {
        return Err(Why::Form);
    };
    let topic_end = Record::TOPIC + usize::from(out[Record::TOPIC_LENGTH]);
    let length = octets::read::<8>(out, Record::LENGTH) as usize;
    let bytes = &out[record::BYTES..];
    word(1, is_bytes(id, &out[Record::ID..Record::SOURCE]))?;
    word(2, is_number(reply, &out[Record::REPLY..Record::STATE]))?;
    word(3, is_bytes(from, &out[Record::SOURCE..Record::DESTINATION]))?;
    word(4, is_bytes(to, &out[Record::DESTINATION..Record::LENGTH]))?;
    word(5, is_bytes(topic, &out[Record::TOPIC..topic_end]))?;
    word(6, is_bytes(data, &bytes[..length.min(bytes.len())]))
}

// The words of a line `= ..`, compared with what a call of that kind showed in `out`.
pub(crate) fn compare(words: &[&[u8]], kind: Kind, out: &[u8; TAKEN]) -> Result<(), Why> {
    match kind {
        Kind::Report => report(words, out),
        Kind::Take => taken(words, out),
        // Nothing is shown, so that no word is: neither a first one nor more of them.
        _ if words.len() == 1 => Err(Why::Word(1)),
        _ => Err(Why::Form),
    }
}
