// Whether a packet may start any pair (document 02, T-05): where none may, the monitors of which no pair is held are
// not asked.
ghost use Rattle.std.specs.Prelude.{◌≡◌, false, length};
ghost use Rattle.packets.specs.Shut.{NoneLess, Shut};
ghost use Rattle.model.specs.Layout.{block_size, most_pairs};

use state::State;

// Whether some of 64 pairs keeps less than a level.
fn is_weaker(s: &[u8], level: u8) -> bool
    requires { length s.now ≡ block_size }
    ensures { result ≡ false → NoneLess s.now level most_pairs }
{
    let mut some = false;
    for j in 0..State::PAIRS {
        some = some | (super::weakest::kept_at(s, j) < level);
    }
    some
}

// Whether a packet of an RSSI may start a pair: there is room behind the n pairs held, or one keeps less.
pub(super) fn may_start(s: &[u8], n: usize, rssi: u8) -> bool
    requires { length s.now ≡ block_size }
    ensures { result ≡ false → Shut s.now n rssi }
{
    if State::PAIRS <= n {
        return is_weaker(s, state::level_of(rssi));
    }
    true
}
