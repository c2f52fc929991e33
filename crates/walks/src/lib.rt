// Walks the events of an answer, or of what a replay wrote: where the event that begins at an index ends.
#![tactic(auto)]

ghost use Rattle.std.specs.Prelude.{◌≡◌, ◌<◌};
ghost use Rattle.walks.specs.Walk.{behind as behind_of};

// An octet as a number of octets.
fn wide(x: u8) -> usize
    ensures { (result ≡ x) × (result < 256) }
{
    x as usize
}

// The index behind the event that begins at an index; 0 where no whole event begins there.
pub fn behind(octets: &[u8], at: usize) -> usize
    ensures { result ≡ behind_of octets.now at }
{
    let n = octets.len();
    if n < 2 {
        return 0;
    }
    if n - 2 < at {
        return 0;
    }
    let size = wide(octets[at + 1]);
    let head = at + 2;
    if n - head < size {
        return 0;
    }
    head + size
}
