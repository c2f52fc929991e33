// A packet's gains: the monitors are asked once (crate marks), and each handle that matches looks for its pair.
ghost use Rattle.std.specs.Prelude.{ℕ, ◌+◌, ◌-◌, ◌*◌, ◌≤◌, ◌<◌, ◌≡◌, true, ◌||◌, ◌&&◌, List, map, length, get_or};
ghost use Rattle.laws.specs.Tests.{pick};
ghost use Rattle.octets.specs.Little.{little};
ghost use Rattle.totals.specs.Gains.{wide_row};
ghost use Rattle.sessions.specs.Machine.{last_number};
ghost use Rattle.model.specs.Types.{Model, Packet, device_of};
ghost use Rattle.model.specs.Level.{level};
ghost use Rattle.model.specs.Frames.{has_packet, packet_of, packet as packet_frame};
ghost use Rattle.model.specs.Watch.{holds, packet_move};
ghost use Rattle.model.specs.Sound.{sound_model};
ghost use Rattle.model.specs.Block.{padded};
ghost use Rattle.model.specs.Layout.{block_size, most_monitors, most_pairs, pair_size, pairs_at};
ghost use Rattle.marks.specs.Fields.{Framed};
ghost use Rattle.marks.specs.Marks.{allowed};
ghost use Rattle.packets.specs.Moves.{AtPair, pair_at};
ghost use Rattle.counts.specs.Given.{Given};
ghost use Rattle.packets.specs.Starts.{Holding, Sought};
ghost use Rattle.months.specs.Counts.{one, reports_of, row_in};
ghost use Rattle.months.specs.Tables.{table_of};
ghost use Rattle.counts.specs.Room.{begun, weak, weak_of};
ghost use Rattle.counts.specs.Turns.{matched_row};
ghost use Rattle.counts.specs.Causes.{left_at, met_by, wanted};

use super::reasons;
use state::State;
use totals::{Gain, Row};

// A handle's gain, and what is left of the room for starts behind its turn.
#[derive(Clone, Copy)]
struct Turn {
    gain: Gain,
    left: usize,
}

// Whether the pair of that key is of the packet's device, and its handle matches.
fn is_met(key: u64, acts: &[u8], dev: u64) -> bool
    requires { length acts.now ≡ most_monitors }
    ensures { (m : Model) (p : Packet) (s : List ℕ) (i : ℕ) → AtPair m s i → Given m.mons p acts.now dev
        → key ≡ little 8 s (pairs_at + pair_size * i) → result ≡ met_by m p (pair_at m i) }
{
    if key / 256 != dev {
        return false;
    }
    let h = (key % 256) as usize;
    if State::MONITORS <= h {
        return false;
    }
    marks::MATCHED <= acts[h]
}

// Whether pair i keeps a smaller RSSI than the packet's, whose level is given, when the packet has been kept: a pair
// of its device whose handle matches keeps that one.
fn is_weak(s: &[u8], i: usize, acts: &[u8], dev: u64, least: u8) -> bool
    requires { (length s.now ≡ block_size) × (i < most_pairs) × (length acts.now ≡ most_monitors) }
    ensures { (m : Model) (p : Packet) → AtPair m s.now i → Given m.mons p acts.now dev
        → least ≡ level p.rssi → result ≡ weak_of p.rssi (packet_move m.mons p (pair_at m i)) }
{
    let key = reasons::key_at(s, i);
    if is_met(key, acts, dev) {
        return false;
    }
    state::level_of(s[State::PAIRS_AT + State::PAIR_ROW * i + State::RSSI_AT]) < least
}

// How many of the n pairs held keep a smaller RSSI, so.
fn count_weak(s: &[u8], n: usize, acts: &[u8], dev: u64, least: u8) -> usize
    requires { (length s.now ≡ block_size) × (n ≤ most_pairs) × (length acts.now ≡ most_monitors) }
    ensures { (result ≤ n)
        × ((m : Model) (p : Packet) → Holding m s.now n → Given m.mons p acts.now dev
        → least ≡ level p.rssi → result ≡ weak p.rssi (map (packet_move m.mons p) m.pairs)) }
{
    // Kept: a loop; std's law of `filter` and `count` asks what the test says of every number, and it says it of a pair.
    let mut k = 0;
    for i in 0..n {
        k += usize::from(is_weak(s, i, acts, dev, least));
    }
    k
}

// How many reports a packet has: with a scan response two.
fn reports_of(payload: &[u8]) -> u8
    requires { Framed payload.now }
    ensures { result ≡ reports_of (packet_of payload.now) }
{
    let end = 10 + octets::wide(payload[8]);
    if payload.len() <= end {
        return 1;
    }
    2
}

// The reports that a packet counts for a handle.
fn reports_if(cause: bool, payload: &[u8]) -> u8
    requires { Framed payload.now }
    ensures { result ≡ pick cause (reports_of (packet_of payload.now)) 0 }
{
    if cause {
        return reports_of(payload);
    }
    0
}

// What a packet adds to a handle that it matches.
fn gain_of(cause: bool, payload: &[u8]) -> Gain
    requires { Framed payload.now }
    ensures { wide_row result ≡ matched_row cause (packet_of payload.now) }
{
    let reports = reports_if(cause, payload);
    let last = payload.len() - 1;
    let level = state::level_of(payload[last]);
    Gain {
        packets: 1,
        reports,
        ticks: 0,
        level,
    }
}

// Whether a handle starts a pair, by its octet and what is left of the room.
fn is_start(s: &[u8], n: usize, key: u64, a: u8, left: usize) -> bool
    requires { (length s.now ≡ block_size) × (n ≤ most_pairs) }
    ensures { (m : Model) (p : Packet) (h : ℕ) → Holding m s.now n → Sought p h key
        → result ≡ begun a (holds m.pairs h (device_of p)) left }
{
    if a / 4 % 2 != 1 {
        return false;
    }
    if left == 0 {
        return false;
    }
    !reasons::is_held(s, n, key)
}

// Whether a handle is a reason for the packet's report: a pair of it, or its start where the report filtering lets it
// through.
fn is_cause(s: &[u8], n: usize, key: u64, a: u8, payload: &[u8], start: bool) -> bool
    requires { (length s.now ≡ block_size) × (n ≤ most_pairs) × Framed payload.now }
    ensures { (m : Model) (h dev : ℕ) (acts : List ℕ) → Holding m s.now n
        → Given m.mons (packet_of payload.now) acts dev → h < most_monitors → key ≡ h + 256 * dev
        → a ≡ get_or acts h 0 → result ≡ (wanted m (packet_of payload.now) h || (start && allowed a)) }
{
    if reasons::is_wanted(s, n, key, a, payload) {
        return true;
    }
    start & (a / 32 % 2 == 1)
}

// What is left of the room behind a handle's turn.
fn left_after(left: usize, start: bool) -> usize
    ensures { (result ≡ left - pick start 1 0) × (result ≤ left) }
{
    if left == 0 {
        return 0;
    }
    if start {
        return left - 1;
    }
    left
}

// One handle's turn, by its octet.
fn turn_at(s: &[u8], n: usize, h: usize, a: u8, dev: u64, payload: &[u8], left: usize) -> Turn
    requires { (length s.now ≡ block_size) × (n ≤ most_pairs) × (h < most_monitors) × (dev < 72057594037927936)
        × Framed payload.now }
    ensures { (result.left ≤ left)
        × ((m : Model) (acts : List ℕ) → Holding m s.now n
        → Given m.mons (packet_of payload.now) acts dev → a ≡ get_or acts h 0
        → left ≡ left_at m (packet_of payload.now) h
        → (wide_row result.gain ≡ row_in m (packet_frame (packet_of payload.now)) h)
        × (result.left ≡ left_at m (packet_of payload.now) (h + 1))) }
{
    if a < marks::MATCHED {
        let none = totals::no_gain();
        return Turn { gain: none, left };
    }
    let key = h as u64 + 256 * dev;
    let start = is_start(s, n, key, a, left);
    let cause = is_cause(s, n, key, a, payload, start);
    let gain = gain_of(cause, payload);
    let rest = left_after(left, start);
    Turn { gain, left: rest }
}

// The turns of the handles 0 to 15, with so much room for starts.
fn turn_all(
    s: &[u8],
    n: usize,
    acts: &[u8],
    dev: u64,
    payload: &[u8],
    room: usize,
) -> [Gain; Row::TABLE]
    requires { (length s.now ≡ block_size) × (n ≤ most_pairs) × (length acts.now ≡ most_monitors)
        × (dev < 72057594037927936) × Framed payload.now }
    ensures { (m : Model) → Holding m s.now n
        → Given m.mons (packet_of payload.now) acts.now dev
        → room ≡ left_at m (packet_of payload.now) 0
        → map wide_row result ≡ table_of (row_in m (packet_frame (packet_of payload.now))) most_monitors }
{
    let mut gains = totals::no_gains();
    let mut left = room;
    for h in 0..State::MONITORS {
        let turn = turn_at(s, n, h, acts[h], dev, payload, left);
        gains[h] = turn.gain;
        left = turn.left;
    }
    gains
}

// The gains of a packet frame's payload on a block of the right length.
pub(super) fn gains_of(s: &[u8], payload: &[u8]) -> [Gain; Row::TABLE]
    requires { (length s.now ≡ block_size) × Framed payload.now }
    ensures { (m : Model) → sound_model m ≡ true → s.now ≡ padded m → m.position < last_number
        → has_packet payload.now ≡ true
        → map wide_row result ≡ table_of (row_in m (packet_frame (packet_of payload.now))) most_monitors }
{
    let mut acts = [0u8; State::MONITORS];
    marks::mark_all(&mut acts, s, payload);
    let dev = octets::get64(payload, 0) / 256;
    let n = octets::at_most(s[State::COUNT_AT], State::PAIRS);
    let last = payload.len() - 1;
    let least = state::level_of(payload[last]);
    let weak = count_weak(s, n, &acts, dev, least);
    let room = State::PAIRS - n + weak;
    turn_all(s, n, &acts, dev, payload, room)
}
