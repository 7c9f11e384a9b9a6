// The topic rules of an init: what a rule book (bytes) says of a topic and a source. Any book of any length and content has
// an answer. A book is checked and looked up in time linear in its length, but for the search for a topic that stands twice
// (`book::are_distinct`).

#![tactic(auto)]

mod book;
mod entry;
mod same;
pub mod subnet;

ghost use Rattle.std.specs.Prelude.{◌≡◌};
ghost use Rattle.topic.specs.Admission.{admission_of};

pub use book::Admission;
use book::Book;

// Whether `book` lets `source` send to `topic`. The whole book is checked before the topic is looked up.
#[tactic(auto, using(crate::proofs::Rest::books), unfolding(crate::specs::Book::admits))]
pub fn admission(book: &[u8], topic: &[u8], source: &[u8; 16]) -> Admission
    ensures { result ≡ admission_of book.now topic.now source.now }
{
    match Book::read(book) {
        None => Admission::Malformed,
        Some(book) if book.admits(topic, source) => Admission::Open,
        Some(_) => Admission::Closed,
    }
}
