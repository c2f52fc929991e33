// A tick's gains: the pairs whose watch goes on over it, and the windows that close with a report.
ghost use Rattle.std.specs.Prelude.{ℕ, ◌+◌, ◌*◌, ◌≤◌, ◌<◌, ◌≡◌, true, map, ltb, length};
ghost use Rattle.rule.specs.Engine.{find};
ghost use Rattle.totals.specs.Gains.{wide_row};
ghost use Rattle.model.specs.Types.{Model};
ghost use Rattle.model.specs.Frames.{tick as a_tick};
ghost use Rattle.model.specs.Sound.{sound_model};
ghost use Rattle.model.specs.Block.{padded};
ghost use Rattle.model.specs.Layout.{block_size, most_monitors, most_pairs};
ghost use Rattle.ticks.specs.Row.{closes_at, windowed_by};
ghost use Rattle.packets.specs.Moves.{AtPair, pair_at};
ghost use Rattle.packets.specs.Starts.{Holding};
ghost use Rattle.months.specs.Counts.{one, watching, windows, row_in};
ghost use Rattle.months.specs.Tables.{table_of};
ghost use Rattle.counts.specs.Ticks.{Known, goes_by, says_by, through_by, watched_for, closed_for};

use state::{Seconds, State, Ticks};
use totals::{Gain, Row};

// Whether a watch goes on: a tick more since a good packet is not yet the whole run.
fn stays(silent: Ticks, run: Ticks) -> bool
    ensures { result ≡ ltb (silent.0 + 1) run.0 }
{
    if silent.0 < run.0 {
        return silent.0 + 1 < run.0;
    }
    false
}

// Whether the watch of pair i goes on.
fn goes_on(s: &[u8], i: usize) -> bool
    requires { (length s.now ≡ block_size) × (i < most_pairs) }
    ensures { (m : Model) → AtPair m s.now i → result ≡ goes_by (find m.mons (pair_at m i).handle) (pair_at m i) }
{
    let at = State::PAIRS_AT + State::PAIR_ROW * i;
    let h = octets::wide(s[at]);
    if State::MONITORS <= h {
        return false;
    }
    let run = Seconds(s[State::INTERVALS_AT + State::MONITOR_ROW * h]).ticks();
    let silent = Ticks(octets::get16(s, at + State::SILENT_AT));
    stays(silent, run)
}

// Whether a sampling period has windows: from 0x01 to 0xFE.
fn windowed(period: u8) -> bool
    ensures { result ≡ windowed_by period }
{
    (1 <= period) & (period <= 254)
}

// Whether one tick more closes the window.
fn closes(period: u8, ticks: u8) -> bool
    ensures { result ≡ closes_at period ticks }
{
    let some = windowed(period);
    if ticks < period {
        return some & (period <= ticks + 1);
    }
    some
}

// Whether a report of an event type is let through by the report filtering of handle h, where the filter is on.
fn is_through(s: &[u8], h: usize, event: u8) -> bool
    requires { (length s.now ≡ block_size) × (h < most_monitors) }
    ensures { (m : Model) → Known m s.now → result ≡ through_by m.filter (find m.mons h) event }
{
    if s[State::FILTER_AT] != 1 {
        return false;
    }
    let at = State::MONITORS_AT + State::MONITOR_ROW * h;
    let bits = state::filtering_of(s[at + State::OPTIONS_AT], s[at + State::FILTERING_AT]);
    state::lets_through(bits, event)
}

// Whether the window of pair i closes with a report, if its watch goes on.
fn says(s: &[u8], i: usize) -> bool
    requires { (length s.now ≡ block_size) × (i < most_pairs) }
    ensures { (m : Model) → Known m s.now → AtPair m s.now i
        → result ≡ says_by m.filter (find m.mons (pair_at m i).handle) (pair_at m i) }
{
    let at = State::PAIRS_AT + State::PAIR_ROW * i;
    let h = octets::wide(s[at]);
    if State::MONITORS <= h {
        return false;
    }
    if !closes(
        s[State::PERIODS_AT + State::MONITOR_ROW * h],
        s[at + State::TICKS_AT],
    ) {
        return false;
    }
    if octets::get32(s, at + State::PACKETS_AT) == 0 {
        return false;
    }
    is_through(s, h, s[at + State::EVENT_AT])
}

// Whether pair i is handle h's and its watch goes on.
fn is_watched(s: &[u8], i: usize, h: usize) -> bool
    requires { (length s.now ≡ block_size) × (i < most_pairs) }
    ensures { (m : Model) → AtPair m s.now i → result ≡ watched_for m h (pair_at m i) }
{
    if octets::wide(s[State::PAIRS_AT + State::PAIR_ROW * i]) != h {
        return false;
    }
    goes_on(s, i)
}

// Whether it is, and its window closes with a report.
fn is_closed(s: &[u8], i: usize, h: usize) -> bool
    requires { (length s.now ≡ block_size) × (i < most_pairs) }
    ensures { (m : Model) → Known m s.now → AtPair m s.now i → result ≡ closed_for m h (pair_at m i) }
{
    if !is_watched(s, i, h) {
        return false;
    }
    says(s, i)
}

// Whether handle h has a device under watch after the tick.
fn is_watching(s: &[u8], n: usize, h: usize) -> bool
    requires { (length s.now ≡ block_size) × (n ≤ most_pairs) }
    ensures { (m : Model) → Holding m s.now n → result ≡ watching m h }
{
    (0..n).any(|i| is_watched(s, i, h))
}

// How many windows of handle h close with a report.
fn count_closed(s: &[u8], n: usize, h: usize) -> usize
    requires { (length s.now ≡ block_size) × (n ≤ most_pairs) }
    ensures { (result ≤ n)
        × ((m : Model) → Known m s.now → Holding m s.now n → result ≡ windows m h) }
{
    // Kept: a loop; std's law of `filter` and `count` asks what the test says of every number, and it says it of a pair.
    let mut k = 0;
    for i in 0..n {
        k += usize::from(is_closed(s, i, h));
    }
    k
}

// What a tick adds to handle h.
fn gain_at(s: &[u8], n: usize, h: usize) -> Gain
    requires { (length s.now ≡ block_size) × (n ≤ most_pairs) }
    ensures { (m : Model) → Known m s.now → Holding m s.now n → wide_row result ≡ row_in m a_tick h }
{
    Gain {
        packets: 0,
        reports: count_closed(s, n, h) as u8,
        ticks: u8::from(is_watching(s, n, h)),
        level: 128,
    }
}

// The gains of a tick on a block of the right length.
pub(super) fn gains_of(s: &[u8]) -> [Gain; Row::TABLE]
    requires { length s.now ≡ block_size }
    ensures { (m : Model) → sound_model m ≡ true → s.now ≡ padded m
        → map wide_row result ≡ table_of (row_in m a_tick) most_monitors }
{
    let n = octets::at_most(s[State::COUNT_AT], State::PAIRS);
    let mut gains = totals::no_gains();
    for h in 0..State::MONITORS {
        gains[h] = gain_at(s, n, h);
    }
    gains
}
