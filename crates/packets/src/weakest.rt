// The pair that keeps the smallest RSSI, the first of several (document 02, T-05).
ghost use Rattle.std.specs.Prelude.{◌≡◌, ◌+◌, ◌-◌, ◌*◌, ◌<◌, length, nat_lt};
ghost use Rattle.laws.specs.Tests.{pick};
ghost use Rattle.model.specs.Level.{level};
ghost use Rattle.packets.specs.Weakest.{level_at, weakest_below};
ghost use Rattle.model.specs.Layout.{block_size, most_pairs};

use state::State;

// A pair's index, and the level that it keeps.
#[derive(Clone, Copy)]
pub(super) struct Weak {
    pub at: usize,
    pub least: u8,
}

// The level that pair i keeps.
pub(super) fn kept_at(s: &[u8], i: usize) -> u8
    requires { (length s.now ≡ block_size) × (i < most_pairs) }
    ensures { result ≡ level_at s.now i }
{
    state::level_of(s[State::PAIRS_AT + State::PAIR_ROW * i + State::RSSI_AT])
}

// The weaker of a pair and the one at j, which keeps another level: the first where they keep the same.
fn weaker(w: Weak, j: usize, kept: u8) -> Weak
    ensures { (result.at ≡ pick (nat_lt kept w.least) j w.at)
        × (result.least ≡ pick (nat_lt kept w.least) kept w.least) }
{
    if kept < w.least {
        return Weak { at: j, least: kept };
    }
    w
}

// Of 64 pairs the first that keeps the smallest RSSI, and its level.
pub(super) fn weakest(s: &[u8]) -> Weak
    requires { length s.now ≡ block_size }
    ensures { (result.at < most_pairs) × (result.at ≡ weakest_below s.now most_pairs)
        × (result.least ≡ level_at s.now result.at) }
{
    let mut weak = Weak {
        at: 0,
        least: kept_at(s, 0),
    };
    for j in 0..State::PAIRS {
        weak = weaker(weak, j, kept_at(s, j));
    }
    weak
}
