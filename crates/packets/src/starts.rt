// The starts of a packet (document 01, Watching, by history; document 02, T-05): each handle in turn. A start takes
// its room at once; where 64 pairs are held, the one that keeps the smallest RSSI goes for it if the packet's is
// above that. The events are written as they come: the stop event of the pair that goes, then the start event.
ghost use Rattle.std.specs.Prelude.{◌≡◌, ℕ, ◌+◌, ◌-◌, ◌*◌, ◌<◌, ◌≤◌, true, false, ◌&&◌, [], ◌∷◌, length, take, drop};
ghost use Rattle.laws.specs.Put.{put};
ghost use Rattle.sessions.specs.Machine.{answer_room};
ghost use Rattle.model.specs.Types.{Model, Packet, device_of};
ghost use Rattle.model.specs.Watch.{holds};
ghost use Rattle.model.specs.Level.{level};
ghost use Rattle.model.specs.Events.{event};
ghost use Rattle.steps.specs.Typed.{Sent};
ghost use Rattle.packets.specs.Writes.{PutAt};
ghost use Rattle.packets.specs.News.{start_row};
ghost use Rattle.packets.specs.Weakest.{level_at, weakest_below};
ghost use Rattle.model.specs.Frames.{packet_of};
ghost use Rattle.model.specs.Block.{padded};
ghost use Rattle.marks.specs.Fields.{Framed};
ghost use Rattle.marks.specs.Marks.{flag, opens, sifted, allowed};
ghost use Rattle.packets.specs.Changes.{starts};
ghost use Rattle.packets.specs.Writes.{begun_as};
ghost use Rattle.packets.specs.Moves.{AtPair, pair_at, with_pair};
ghost use Rattle.packets.specs.Device.{Sender};
ghost use Rattle.packets.specs.Firm.{Settled};
ghost use Rattle.packets.specs.Starts.{Holding, Asked, Told};
ghost use Rattle.packets.specs.Handles.{Turns, NoStart};
ghost use Rattle.model.specs.Layout.{block_size, count_at, event_most, most_monitors, most_pairs, pair_size, pairs_at, turn_most, turns_most};

use super::weakest;
use state::State;

// What turns leave: how many pairs are held, how many octets were written, and whether the report of a start is let
// through.
#[derive(Clone, Copy)]
pub struct Turn {
    pub held: usize,
    pub wrote: usize,
    pub told: bool,
}

// The event of pair i, written into out at an index. Answers how many octets that is.
fn put_event(s: &[u8], i: usize, state: u8, out: &mut [u8], at: usize) -> usize
    requires { (length s.now ≡ block_size) × (i < most_pairs) }
    ensures { (result ≤ event_most)
        × (at ≤ length out.old → drop (at + result) out.new ≡ drop (at + result) out.old)
        × ((m : Model) → AtPair m s.now i → at + event_most ≤ length out.old
        → PutAt out.old at (event m.prefix (pair_at m i) state) out.new result) }
{
    let end = State::PREFIX_AT + octets::at_most(s[State::PREFIX_LENGTH_AT], State::PREFIX);
    let from = State::PAIRS_AT + State::PAIR_ROW * i;
    let to = from + State::KEY;
    events::put_event(out, at, &s[State::PREFIX_AT..end], &s[from..to], state)
}

// The row of a pair at its start, written whole: its key and its RSSI, zeros else.
fn start_row(s: &mut [u8], i: usize, key: u64, rssi: u8)
    requires { (length s.old ≡ block_size) × (i < most_pairs) }
    ensures { s.new ≡ put s.old (pairs_at + pair_size * i) (start_row key rssi) }
{
    let at = State::PAIRS_AT + State::PAIR_ROW * i;
    parts::fill(s, at, State::PAIR_ROW, 0);
    octets::put64(s, at, key);
    s[at + State::RSSI_AT] = rssi;
}

// A pair at its start behind the n pairs held, and the number of pairs.
fn push_row(s: &mut [u8], n: usize, key: u64, rssi: u8)
    requires { (length s.old ≡ block_size) × (n < most_pairs) }
    ensures { s.new
        ≡ put (put s.old (pairs_at + pair_size * n) (start_row key rssi)) count_at ((n + 1) ∷ []) }
{
    start_row(s, n, key, rssi);
    s[State::COUNT_AT] = (n + 1) as u8;
}

// Pair i of 64 goes, those behind it move down, and a pair at its start stands last.
fn replace_row(s: &mut [u8], i: usize, key: u64, rssi: u8)
    requires { (length s.old ≡ block_size) × (i < most_pairs) }
    ensures { s.new
        ≡ put (put s.old (pairs_at + pair_size * i)
        (take (pair_size * (most_pairs - 1 - i)) (drop (pairs_at + pair_size * (i + 1)) s.old)))
        (pairs_at + pair_size * (most_pairs - 1)) (start_row key rssi) }
{
    let to = State::PAIRS_AT + State::PAIR_ROW * i;
    let from = State::PAIRS_AT + State::PAIR_ROW * (i + 1);
    let size = State::PAIR_ROW * (State::PAIRS - 1 - i);
    parts::shift(s, to, from, size);
    start_row(s, State::PAIRS - 1, key, rssi);
}

// A start behind the n pairs held. Answers how many octets were written.
fn start_free(s: &mut [u8], n: usize, key: u64, rssi: u8, out: &mut [u8], at: usize) -> usize
    requires { (length s.old ≡ block_size) × (n < most_pairs) }
    ensures { (result ≤ turn_most)
        × (at ≤ length out.old → drop (at + result) out.new ≡ drop (at + result) out.old)
        × ((m : Model) (p : Packet) (a h : ℕ) → Holding m s.old n → Asked m p a h key rssi
        → at + turn_most ≤ length out.old
        → Told m a h p s.new (n + 1) out.old at out.new result) }
{
    push_row(s, n, key, rssi);
    put_event(s, n, 1, out, at)
}

// A start for which pair i of 64, the weakest, goes. Answers how many octets were written.
fn start_full(s: &mut [u8], i: usize, key: u64, rssi: u8, out: &mut [u8], at: usize) -> usize
    requires { (length s.old ≡ block_size) × (i < most_pairs) × (at + turn_most ≤ length out.old) }
    ensures { (result ≤ turn_most) × (drop (at + result) out.new ≡ drop (at + result) out.old)
        × ((m : Model) (p : Packet) (n a h : ℕ) → Holding m s.old n → Asked m p a h key rssi
        → most_pairs ≤ n → i ≡ weakest_below s.old most_pairs → level_at s.old i < level rssi
        → Told m a h p s.new n out.old at out.new result) }
{
    let stop = put_event(s, i, 0, out, at);
    replace_row(s, i, key, rssi);
    let start = put_event(s, State::PAIRS - 1, 1, out, at + stop);
    stop + start
}

// A start of a pair that is not held, where there is room or a pair that goes, as of a monitor that filters no
// duplicates.
// Kept: that no pair starts is told by no octets written: of a block of no sound state no more is known of a start.
fn start_new(s: &mut [u8], n: usize, key: u64, rssi: u8, out: &mut [u8], at: usize) -> Turn
    requires { (length s.old ≡ block_size) × (n ≤ most_pairs) × (at + turn_most ≤ length out.old) }
    ensures { (result.held ≤ most_pairs) × (result.wrote ≤ turn_most)
        × (drop (at + result.wrote) out.new ≡ drop (at + result.wrote) out.old) × (1 ≤ result.held)
        × ((m : Model) (p : Packet) (a h : ℕ) → Holding m s.old n → Asked m p a h key rssi
        → Told m a h p s.new result.held out.old at out.new result.wrote) }
{
    if n < State::PAIRS {
        let wrote = start_free(s, n, key, rssi, out, at);
        let held = n + 1;
        return Turn {
            held,
            wrote,
            told: false,
        };
    }
    let weak = weakest::weakest(s);
    if state::level_of(rssi) <= weak.least {
        return Turn {
            held: n,
            wrote: 0,
            told: false,
        };
    }
    let wrote = start_full(s, weak.at, key, rssi, out, at);
    Turn {
        held: n,
        wrote,
        told: false,
    }
}

// The packet that pair i, at its start, keeps for duplicates, where its handle's octet says that these are filtered:
// this one if it is let through, else none.
fn keep_start(s: &mut [u8], i: usize, a: u8, payload: &[u8])
    requires { (length s.old ≡ block_size) × (i < most_pairs) × Framed payload.now }
    ensures { (m : Model) → AtPair m s.old i → Sent (packet_of payload.now)
        → s.new ≡ padded
        (with_pair m i (begun_as (sifted a) (allowed a) (packet_of payload.now) (pair_at m i))) }
{
    if a / 16 % 2 != 1 {
        return;
    }
    let at = State::PAIRS_AT + State::PAIR_ROW * i + State::EVENT_AT;
    if a / 32 % 2 == 1 {
        super::windows::put_latest(s, at, payload);
        return;
    }
    super::windows::put_none(s, at);
}

// One handle's turn, by its octet and whether its pair of the packet's device is held.
fn start_at(
    s: &mut [u8],
    n: usize,
    h: usize,
    a: u8,
    held: u8,
    dev: u64,
    payload: &[u8],
    out: &mut [u8],
    at: usize,
) -> Turn
    requires { (length s.old ≡ block_size) × (n ≤ most_pairs) × (h < most_monitors) × (dev < 72057594037927936)
        × (at + turn_most ≤ length out.old) × Framed payload.now }
    ensures { (result.held ≤ most_pairs) × (result.wrote ≤ turn_most)
        × (drop (at + result.wrote) out.new ≡ drop (at + result.wrote) out.old)
        × ((m : Model) → Holding m s.old n → Sender (packet_of payload.now) dev
        → (opens a ≡ true → held ≡ flag (holds m.pairs h (device_of (packet_of payload.now))))
        → Told m a h (packet_of payload.now) s.new result.held out.old at
        out.new result.wrote
        × (result.told ≡ (starts a h (packet_of payload.now) m.pairs && allowed a))) }
{
    let idle = Turn {
        held: n,
        wrote: 0,
        told: false,
    };
    if a / 4 % 2 != 1 {
        return idle;
    }
    if held != 0 {
        return idle;
    }
    let key = h as u64 + 256 * dev;
    let turn = start_new(s, n, key, payload[payload.len() - 1], out, at);
    let pairs = turn.held;
    let wrote = turn.wrote;
    if wrote == 0 {
        return Turn {
            held: pairs,
            wrote,
            told: false,
        };
    }
    keep_start(s, pairs - 1, a, payload);
    Turn {
        held: pairs,
        wrote,
        told: a / 32 % 2 == 1,
    }
}

// Whether an octet says that its handle may start a pair.
fn is_start(acts: &[u8]) -> bool
    requires { length acts.now ≡ most_monitors }
    ensures { result ≡ false → NoStart acts.now most_monitors }
{
    let mut some = false;
    for a in acts {
        some = some | (*a / 4 % 2 == 1);
    }
    some
}

// The turns of the handles 0 to 15. For each, under is 1 where its pair of the packet's device was held before them,
// else 0: no turn before its own changes that where its monitor matches the packet, since its pair then keeps the
// packet's RSSI and goes for no start.
pub(super) fn start_all(
    s: &mut [u8],
    n: usize,
    acts: &[u8],
    under: &[u8],
    dev: u64,
    payload: &[u8],
    out: &mut [u8],
) -> Turn
    requires { (length s.old ≡ block_size) × (n ≤ most_pairs) × (length acts.now ≡ most_monitors)
        × (length under.now ≡ most_monitors) × (dev < 72057594037927936) × (answer_room ≤ length out.old)
        × Framed payload.now }
    ensures { (result.held ≤ most_pairs) × (result.wrote ≤ turns_most)
        × (drop result.wrote out.new ≡ drop result.wrote out.old)
        × ((m : Model) → Holding m s.old n
        → Settled m (packet_of payload.now) acts.now under.now dev
        → Turns m (packet_of payload.now) most_monitors s.new result.held out.old
        out.new result.wrote result.told) }
{
    if !is_start(acts) {
        return Turn {
            held: n,
            wrote: 0,
            told: false,
        };
    }
    let mut held = n;
    let mut wrote = 0;
    let mut told = false;
    for h in 0..State::MONITORS {
        let turn = start_at(s, held, h, acts[h], under[h], dev, payload, out, wrote);
        held = turn.held;
        wrote += turn.wrote;
        told = told | turn.told;
    }
    Turn { held, wrote, told }
}
