// The state that the kept frames lead to, as the records of an image have it.
ghost use Rattle.std.specs.Prelude.{◌≡◌, ℕ, ◌+◌, ◌-◌, ◌*◌, ◌<◌, ◌≤◌, List, ◌++◌, length, slice_index};
ghost use Rattle.laws.specs.Put.{put};
ghost use Rattle.rule.specs.Base.{All};
ghost use Rattle.model.specs.Types.{fresh};
ghost use Rattle.laws.specs.Tests.{pick};
ghost use Rattle.model.specs.Monitors.{monitor_of, sifts, type_in};
ghost use Rattle.model.specs.Image.{extra_text, monitor_row};
ghost use Rattle.model.specs.Block.{monitor_place, padded};
ghost use Rattle.model.specs.Layout.{block_size, event_at, extra_at, monitor_size, monitors_at, most_condition, most_monitors, most_prefix, pair_size, pairs_at, since_good_at};
ghost use Rattle.pasts.specs.Pair;
ghost use Rattle.pasts.specs.Past.{history_state};
ghost use Rattle.twin.specs.Table.{after, past_at};
ghost use Rattle.twin.specs.Heard.{Adds};
ghost use Rattle.twin.specs.Hears.{start_of};
ghost use Rattle.twin.specs.Silent.{Looks};
ghost use Rattle.twin.specs.Numbered.{Added, May, Maybe, mon_at, numbered};
ghost use Rattle.twin.specs.Seen.{Frames, Held, Marked, list_of, named_by};
ghost use Rattle.twin.specs.MonitorRows.{Names, places_of};
ghost use Rattle.twin.specs.PairRows.{latest_by, numbers_of, pair_at, place_of, rows_of};

use super::watch::Seen;
use super::{heard, kept, pairs, watch};
use state::State;

// Writes a monitor's settings and condition into a row.
fn put_settings(row: &mut [u8], h: u8, params: &[u8])
    requires { (length row.old ≡ monitor_size) × Adds params.now
        × (length params.now ≤ type_in params.now + 1 + most_condition) }
    ensures { row.new ≡ put row.old 0 (monitor_row (h, monitor_of params.now)) }
{
    let at = statuses::type_at(params[0]);
    let from = at + 1;
    row[0] = h;
    parts::copy(row, State::HIGH_AT, &params[1..5]);
    row[State::TYPE_AT] = params[at];
    row[State::CONDITION_LENGTH_AT] = (params.len() - from) as u8;
    parts::copy(row, State::CONDITION_AT, &params[from..]);
}

// Writes what version 2 adds.
fn put_added(row: &mut [u8], params: &[u8])
    requires { (length row.old ≡ monitor_size) × Adds params.now }
    ensures { row.new
        ≡ put row.old extra_at (extra_text (monitor_of params.now).extra) }
{
    let at = statuses::type_at(params[0]);
    parts::copy(row, State::OPTIONS_AT, &params[5..at]);
}

// The row of a handle: that of the monitor that frame number a added, zeros where a is 0.
fn monitor_row(t: &[u8], h: u8, a: usize) -> [u8; State::MONITOR_ROW]
    requires { 1 ≤ a → Names t.now a }
    ensures { result ≡ monitor_place h (named_by t.now a) }
{
    let mut row = [0u8; State::MONITOR_ROW];
    if a == 0 {
        return row;
    }
    let params = heard::params_of(t, a);
    put_settings(&mut row, h, params);
    put_added(&mut row, params);
    row
}

// Writes the rows of the monitors, each named by the number of the frame that added it.
fn put_monitors(b: &mut [u8], t: &[u8], live: &[u8; State::MONITORS])
    requires { (block_size ≤ length b.old)
        × ((h : ℕ) → 1 ≤ slice_index live.now h → Names t.now (slice_index live.now h)) }
    ensures { (b.new ≡ put b.old monitors_at (places_of t.now live.now most_monitors))
        × (length (places_of t.now live.now most_monitors) ≡ monitor_size * most_monitors) }
{
    for h in 0..State::MONITORS {
        let row = monitor_row(t, h as u8, octets::wide(live[h]));
        parts::copy(b, State::MONITORS_AT + State::MONITOR_ROW * h, &row);
    }
}

// Writes the numbers of a pair into its row: ticks since a good packet, ticks, packets and sum of the window, the
// kept RSSI.
fn put_numbers(row: &mut [u8], t: &[u8], n: usize, a: usize, k: usize)
    requires { (length row.old ≡ pair_size) × Looks t.now a k n }
    ensures { (h : ℕ) → row.new
        ≡ put row.old since_good_at (numbers_of (pair_at t.now n h a k)) }
{
    let w = pairs::window_of(t, a, k, n);
    octets::put16(row, State::SILENT_AT, pairs::silent(t, a, k, n));
    row[State::TICKS_AT] = pairs::phase(t, a, k, n) as u8;
    octets::put32(row, State::PACKETS_AT, w.packets);
    octets::put64(row, State::SUM_AT, w.sum);
    row[State::RSSI_AT] = pairs::kept_rssi(t, a, k, n);
}

// The number of the packet that the last fields tell of, if there is one: the last reason for a report where the
// monitor filters duplicates, else the latest in the window.
fn last_of(t: &[u8], a: usize, k: usize, n: usize) -> Option<usize>
    requires { Looks t.now a k n }
    ensures { Maybe t.now n result
        × ((h : ℕ) → numbered t.now result
        ≡ Pair.kept_packet (start_of t.now h a k) (after t.now k (n - k))) }
{
    if pairs::is_sifting(t, a) {
        return pairs::last_reason(t, a, k, n);
    }
    let w = pairs::window_of(t, a, k, n);
    w.last
}

// The event type where there is no such packet.
fn no_event(t: &[u8], a: usize) -> u8
    requires { Added t.now a }
    ensures { result ≡ pick (sifts (mon_at t.now a)) 0xFF 0 }
{
    if pairs::is_sifting(t, a) {
        return 0xFF;
    }
    0
}

// Writes event type and data of packet number r, or, where there is none, an event type and no data.
fn put_latest(row: &mut [u8], t: &[u8], none: u8, r: Option<usize>)
    requires { (length row.old ≡ pair_size) × May t.now r }
    ensures { row.new ≡ put row.old event_at (latest_by none (numbered t.now r)) }
{
    let Some(r) = r else {
        row[State::EVENT_AT] = none;
        row[State::LENGTH_AT] = 0;
        return;
    };
    let data = pairs::data_of(t, r);
    row[State::EVENT_AT] = pairs::event_of(t, r);
    row[State::LENGTH_AT] = data.len() as u8;
    parts::copy(row, State::DATA_AT, data);
}

// The row of the pair of a handle and packet number k after n frames.
fn pair_row(t: &[u8], n: usize, h: u8, a: usize, k: usize) -> [u8; State::PAIR_ROW]
    requires { Looks t.now a k n }
    ensures { result ≡ place_of (pair_at t.now n h a k) }
{
    let mut row = [0u8; State::PAIR_ROW];
    let p = kept::payload_at(t, k - 1);
    row[0] = h;
    parts::copy(&mut row, State::KIND_AT, &p[1..8]);
    put_numbers(&mut row, t, n, a, k);
    put_latest(&mut row, t, no_event(t, a), last_of(t, a, k, n));
    row
}

// Writes the rows of the pairs under watch after n frames.
fn put_pairs(b: &mut [u8], t: &[u8], n: usize, seen: Seen)
    requires { (block_size ≤ length b.old) × Frames t.now n × Held seen × All (Marked t.now n) (list_of seen) }
    ensures { (b.new ≡ put b.old pairs_at (rows_of t.now n (list_of seen)))
        × (length (rows_of t.now n (list_of seen)) ≡ pair_size * seen.count) }
{
    for j in 0..seen.count {
        let s = seen.starts[j];
        let row = pair_row(
            t,
            n,
            s.handle,
            usize::from(s.monitor),
            usize::from(s.packet),
        );
        parts::copy(b, State::PAIRS_AT + State::PAIR_ROW * j, &row);
    }
}

// The state after n kept frames, into a block of settings and editions.
pub(super) fn fill(b: &mut [u8], t: &[u8], n: usize)
    requires { (block_size ≤ length b.old) × Frames t.now n }
    ensures { (opcode : ℕ) (prefix x : List ℕ) → length prefix ≤ most_prefix → b.old ≡ padded (fresh opcode prefix)
        ++ x → b.new ≡ padded (history_state opcode prefix (past_at t.now n)) ++ x }
{
    let seen = watch::after_all(t, n);
    let live = seen.live;
    octets::put32(b, State::POSITION_AT, n as u32);
    b[State::FILTER_AT] = seen.filter;
    put_monitors(b, t, &live);
    put_pairs(b, t, n, seen);
    b[State::COUNT_AT] = seen.count as u8;
}
