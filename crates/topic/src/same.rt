// Comparing bytes that mostly differ early, as the topics and the nets of a rule book do.
ghost use Rattle.std.specs.Prelude.{◌≡◌};
ghost use Rattle.octets.specs.Octets.{same};

use octets::equal;

// So many bytes are compared one by one: those of an address.
const FRONT: usize = 16;

// Whether two slices hold the same bytes. The first ones are compared one by one, and the rest at once, which is a call.
pub fn is_same(s: &[u8], t: &[u8]) -> bool
    ensures { result ≡ same s.now t.now }
{
    if s.len() != t.len() {
        return false;
    }
    let front = s.len().min(FRONT);
    for i in 0..front {
        if s[i] != t[i] {
            return false;
        }
    }
    equal(&s[front..], &t[front..])
}
