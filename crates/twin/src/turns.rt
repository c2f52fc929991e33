// A handle's turn at a packet: whether it would start a pair, and the room that the start takes.
ghost use Rattle.std.specs.Prelude.{◌≡◌, ◌+◌, ◌<◌, ◌≤◌, not, ◌&&◌, nat_lt};
ghost use Rattle.laws.specs.Loops.{some};
ghost use Rattle.laws.specs.Tests.{pick};
ghost use Rattle.rule.specs.Base.{All};
ghost use Rattle.model.specs.Frames.{packet_of};
ghost use Rattle.model.specs.Layout.{most_pairs};
ghost use Rattle.model.specs.Monitors.{matches, strong};
ghost use Rattle.twin.specs.Table.{payload_at};
ghost use Rattle.twin.specs.Silent.{Looks};
ghost use Rattle.twin.specs.Numbered.{Added, mon_at};
ghost use Rattle.twin.specs.declared.watch.Deed.TheVariants.{Still};
ghost use Rattle.twin.specs.Seen.{Comes, Frames, Held, Joins, Least, Marked, begun_at, level_in, list_of, pair_in};

use super::watch::{Begun, Deed, Seen, Turn};
use super::{heard, kept, pairs, starts};
use state::State;

// Whether a start is of a handle and the device of packet i.
fn is_pair(t: &[u8], i: usize, h: u8, b: Begun) -> bool
    requires { Comes t.now i × Marked t.now (i + 1) b }
    ensures { result ≡ pair_in t.now i h b }
{
    if b.handle != h {
        return false;
    }
    let d = kept::payload_at(t, usize::from(b.packet) - 1);
    let p = kept::payload_at(t, i);
    parts::same(&d[1..8], &p[1..8])
}

// Whether the pair of a handle and the device of packet i is under watch.
fn holds(t: &[u8], i: usize, h: u8, seen: Seen) -> bool
    requires { Comes t.now i × Held seen × All (Marked t.now (i + 1)) (list_of seen) }
    ensures { result ≡ some (pair_in t.now i h) (list_of seen) }
{
    for b in seen.list() {
        if is_pair(t, i, h, *b) {
            return true;
        }
    }
    false
}

// The level of what a start keeps, packet i heard already.
fn level_at(t: &[u8], i: usize, b: Begun) -> u8
    requires { Looks t.now b.monitor b.packet (i + 1) }
    ensures { result ≡ level_in t.now (i + 1) b }
{
    let k = usize::from(b.packet);
    state::level_of(pairs::kept_rssi(t, usize::from(b.monitor), k, i + 1))
}

// Of starts v and w the one that keeps less, v where they keep the same.
fn lower(t: &[u8], i: usize, seen: Seen, v: usize, w: usize) -> usize
    requires { Frames t.now (i + 1) × (v < most_pairs) × (w < most_pairs) × Marked t.now (i + 1) (begun_at seen v)
        × Marked t.now (i + 1) (begun_at seen w) }
    ensures { result
        ≡ pick (nat_lt (level_in t.now (i + 1) (begun_at seen w))
        (level_in t.now (i + 1) (begun_at seen v))) w v }
{
    if level_at(t, i, seen.starts[w]) < level_at(t, i, seen.starts[v]) {
        return w;
    }
    v
}

// The first start that keeps the smallest RSSI; there is one.
fn weakest(t: &[u8], i: usize, seen: Seen) -> usize
    requires { Frames t.now (i + 1) × Held seen × (1 ≤ seen.count) × All (Marked t.now (i + 1)) (list_of seen) }
    ensures { Least (λ j. level_in t.now (i + 1) (begun_at seen j)) seen.count result }
{
    let mut found = 0;
    for j in 1..seen.count {
        found = lower(t, i, seen, found, j);
    }
    found
}

pub(super) fn no_turn(seen: Seen) -> Turn
    ensures { (result.seen ≡ seen) × (result.deed ≡ Still) }
{
    Turn {
        seen: seen,
        deed: Deed::Still,
    }
}

// Whether packet i would start a pair of handle h, room apart.
pub(super) fn wants(t: &[u8], i: usize, h: u8, a: usize, seen: Seen) -> bool
    requires { Comes t.now i × Added t.now a × Held seen × All (Marked t.now (i + 1)) (list_of seen) }
    ensures { result
        ≡ (matches (mon_at t.now a) (packet_of (payload_at t.now i))
        && (strong (mon_at t.now a) (packet_of (payload_at t.now i))
        && not (some (pair_in t.now i h) (list_of seen)))) }
{
    let params = heard::params_of(t, a);
    if !heard::is_match(params, kept::payload_at(t, i)) {
        return false;
    }
    if state::level_of(kept::rssi_at(t, i)) < state::level_of(params[1]) {
        return false;
    }
    !holds(t, i, h, seen)
}

// A start at packet i: behind the others where there is room; else, where its RSSI is above the smallest kept, the
// first that keeps it goes.
pub(super) fn join(t: &[u8], i: usize, b: Begun, seen: Seen) -> Turn
    requires { Frames t.now (i + 1) × Comes t.now i × Held seen × All (Marked t.now (i + 1)) (list_of seen) }
    ensures { Joins t.now i b seen result }
{
    if seen.count < State::PAIRS {
        return Turn {
            seen: starts::push(seen, b),
            deed: Deed::Joined,
        };
    }
    let w = weakest(t, i, seen);
    if state::level_of(kept::rssi_at(t, i)) <= level_at(t, i, seen.starts[w]) {
        return no_turn(seen);
    }
    Turn {
        seen: starts::push(starts::without_start(seen, w), b),
        deed: Deed::Displaced(w),
    }
}
