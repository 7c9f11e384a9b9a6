// What an init says of a message: its id, whom it goes between, whether it is a reply, and how long it is.
// Its topic stands beside it.

ghost use Rattle.std.specs.Prelude.{◌≡◌, length};
ghost use Rattle.packet.specs.Frame.{id_size, address_size};
ghost use Rattle.packet.specs.Named.{Named};

#[derive(Clone, Copy)]
pub struct Label {
    pub id: [u8; 8],
    pub source: [u8; 16],
    pub destination: [u8; 16],
    pub reply: bool,
    pub total: u64,
}

// The bytes as an array.
fn array_of<const N: usize>(bytes: &[u8]) -> [u8; N]
    requires { length bytes.now ≡ N }
    ensures { result ≡ bytes.now }
{
    <[u8; N]>::try_from(bytes).unwrap()
}

// The label with these fields.
pub fn labelled(id: &[u8], source: &[u8], destination: &[u8], reply: bool, total: u64) -> Label
    requires { (length id.now ≡ id_size) × (length source.now ≡ address_size)
        × (length destination.now ≡ address_size) }
    ensures { let s = source.now in
        let d = destination.now in
        (result ≡ record { id = id.entry.now; source = s; destination = d; reply = reply; total = total }) ×
        Named result }
{
    Label {
        id: array_of(id),
        source: array_of(source),
        destination: array_of(destination),
        reply,
        total,
    }
}
