// Whose key is known: the addresses of a line `known ADDRESS ..`.

use crate::value;
use rows::record;
use rows::record::Record;

// Whether every word after the first is an address.
pub(crate) fn are_addresses(line: &[u8]) -> bool {
    line.split(|b| *b == b' ')
        .skip(1)
        .all(|word| value::name::<16>(word).is_some())
}

// Whether the line has that address.
fn has(line: &[u8], address: &[u8]) -> bool {
    line.split(|b| *b == b' ').skip(1).any(|word| value::name::<16>(word).is_some_and(
        |listed| listed.as_slice() == address,
    ))
}

// Whether a record is an arriving one of that id.
fn is_arriving(row: &[u8; record::BYTES], id: &[u8]) -> bool {
    u64::from(row[Record::KIND]) == record::ARRIVING && &row[Record::ID..Record::SOURCE] == id
}

// The source of the arriving record of that id.
fn source<'a>(recv: &'a [u8], id: &[u8]) -> Option<&'a [u8]> {
    let (rows, _) = recv.get(record::FIRST..)?.as_chunks::<{ record::BYTES }>();
    let mut records = rows.iter().take(record::COUNT);
    let row = records.find(|row| is_arriving(row, id))?;
    Some(&row[Record::SOURCE..Record::DESTINATION])
}

// The key mark of a packet: whether the line has the source in the arriving record of that id.
pub(crate) fn is_known(line: &[u8], recv: &[u8], id: &[u8]) -> bool {
    source(recv, id).is_some_and(|source| has(line, source))
}
