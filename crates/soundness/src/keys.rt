// Whether the pairs of a block are distinct. Each key has one of 256 marks. A key whose mark none before it has is
// another than all of them; only where the mark was seen is it compared with each.
ghost use Rattle.std.specs.Prelude.{◌+◌, ◌≤◌, ◌<◌, ◌≡◌, length};
ghost use Rattle.soundness.specs.Below.{all_below};
ghost use Rattle.soundness.specs.Clauses.{other_test};
ghost use Rattle.soundness.specs.Seen.{marks, mark_of, Marked};
ghost use Rattle.model.specs.Layout.{block_size, most_pairs};

use state::State;

const MARKS: usize = 256;

// The mark of a key: pairs of one monitor differ in it by their address' lowest octets, pairs of one device by their
// handles.
fn mark_of(key: u64) -> usize
    ensures { (result ≡ mark_of key) × (result < marks) }
{
    ((key / 65536 % 256 + key % 16 * 16) % 256) as usize
}

// Whether the pair at a place is another than each one before it.
fn other_sound(s: &[u8], i: usize) -> bool
    requires { (length s.now ≡ block_size) × (i < most_pairs) }
    ensures { result ≡ other_test s.now i }
{
    let key = octets::get64(s, State::PAIRS_AT + State::PAIR_ROW * i);
    for j in 0..i {
        if key == octets::get64(s, State::PAIRS_AT + State::PAIR_ROW * j) {
            return false;
        }
    }
    true
}

// The same, by the marks of the keys before it, to which its own is added.
fn take_key(seen: &mut [bool], s: &[u8], i: usize) -> bool
    requires { (length s.now ≡ block_size) × (i < most_pairs) × (length seen.old ≡ marks)
        × Marked s.now i seen.old }
    ensures { (result ≡ other_test s.now i) × Marked s.now (i + 1) seen.new }
{
    let m = mark_of(octets::get64(s, State::PAIRS_AT + State::PAIR_ROW * i));
    if !seen[m] {
        seen[m] = true;
        return true;
    }
    other_sound(s, i)
}

// Whether the first c pairs are each another than those before.
pub(super) fn are_others(s: &[u8], c: usize) -> bool
    requires { (length s.now ≡ block_size) × (c ≤ most_pairs) }
    ensures { result ≡ all_below (other_test s.now) c }
{
    let mut seen = [false; MARKS];
    for i in 0..c {
        if !take_key(&mut seen, s, i) {
            return false;
        }
    }
    true
}
