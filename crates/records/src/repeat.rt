// An init that comes again: the five that it says are compared with the record's where they stand.

ghost use Rattle.std.specs.Prelude.{◌≡◌};
ghost use Rattle.machine.specs.Values.{equal_in_five};
ghost use Rattle.machine.specs.Layout.{label_of};
ghost use Rattle.machine.specs.Valid.{LabelSized};
ghost use Rattle.records.specs.HeldAt.{row_in};
ghost use Rattle.records.specs.Opening.{new_label};

use crate::row::Row;
use packet::label::Label;

impl Row<'_> {
    // Whether an init says what the record holds.
    pub fn says_again(self, label: Label, topic: &[u8]) -> bool
        requires { LabelSized (new_label label topic.now) }
        ensures { let h = new_label label topic.now in
            result ≡ equal_in_five (label_of (row_in self.entry.store.now self.entry.link)) h }
    {
        let source = label.source;
        let destination = label.destination;
        let from = octets::equal(self.source(), &source);
        let to = octets::equal(self.destination(), &destination);
        let long = self.total() == label.total;
        let about = octets::equal(self.topic(), topic);
        let reply = self.reply() == u8::from(label.reply);
        from & to & long & about & reply
    }
}
