// Rows of which a tick tells nothing (document 01, Watching, by history): the watch goes on and no window closes.
// Most rows at most ticks are such ones, and where every row before stayed they stand at their places already.
ghost use Rattle.std.specs.Prelude.{◌+◌, ◌≤◌, ◌≡◌, true, false, length};
ghost use Rattle.octets.specs.Little.{little};
ghost use Rattle.ticks.specs.Calm.{CalmRow, CalmOn, StillRow};
ghost use Rattle.model.specs.Layout.{most_monitors, most_pairs, pair_size, pairs_size, since_good_at};

use state::{Seconds, State};

// The sampling period of a monitor that has no windows: no reports but at the start.
const NO_REPORTS: u8 = 0xFF;

// A row one tick further, with its ticks since a good packet then, where no window closes. Answers whether none does;
// else the row is left as it is.
fn count_up(r: &mut [u8], period: u8, silent: u16) -> bool
    requires { (length r.old ≡ pair_size) × (silent ≡ little 2 r.old since_good_at + 1) }
    ensures { (result ≡ false → r.new ≡ r.old)
        × (result ≡ true → StillRow period r.old r.new) }
{
    let ticks = octets::wide(r[State::TICKS_AT]) + 1;
    if octets::wide(period) <= ticks {
        if super::tells::windowed(period) {
            return false;
        }
        octets::put16(r, State::SILENT_AT, silent);
        return true;
    }
    octets::put16(r, State::SILENT_AT, silent);
    if period != NO_REPORTS {
        r[State::TICKS_AT] = ticks as u8;
    }
    true
}

// A row one tick further, where its watch goes on and no window closes. Answers whether it is such a row; any other
// is left as it is.
fn calm_row(r: &mut [u8], intervals: &[u8], periods: &[u8]) -> bool
    requires { (length r.old ≡ pair_size) × (length intervals.now ≡ most_monitors)
        × (length periods.now ≡ most_monitors) }
    ensures { (result ≡ false → r.new ≡ r.old)
        × (result ≡ true → CalmRow intervals.now periods.now r.old r.new) }
{
    let handle = octets::wide(r[0]);
    if State::MONITORS <= handle {
        return false;
    }
    let run = Seconds(intervals[handle]).ticks();
    let silent = octets::get16(r, State::SILENT_AT) as u32 + 1;
    if run.0 as u32 <= silent {
        return false;
    }
    count_up(r, periods[handle], silent as u16)
}

// The rows from an index on as long as they are such ones. Answers the index behind them.
pub(super) fn calm_rows(
    t: &mut [u8],
    from: usize,
    n: usize,
    intervals: &[u8],
    periods: &[u8],
) -> usize
    requires { (from ≤ n) × (n ≤ most_pairs) × (length t.old ≡ pairs_size) × (length intervals.now ≡ most_monitors)
        × (length periods.now ≡ most_monitors) }
    ensures { (from ≤ result) × (result ≤ n)
        × CalmOn intervals.now periods.now t.old t.new from from result }
{
    for i in from..n {
        let start = State::PAIR_ROW * i;
        let end = start + State::PAIR_ROW;
        if !calm_row(&mut t[start..end], intervals, periods) {
            return i;
        }
    }
    n
}

// The same behind a row's turn, where every row before stayed: else the index itself.
pub(super) fn calm_behind(
    t: &mut [u8],
    from: usize,
    kept: usize,
    n: usize,
    intervals: &[u8],
    periods: &[u8],
) -> usize
    requires { (from ≤ n) × (n ≤ most_pairs) × (length t.old ≡ pairs_size) × (length intervals.now ≡ most_monitors)
        × (length periods.now ≡ most_monitors) }
    ensures { (from ≤ result) × (result ≤ n)
        × CalmOn intervals.now periods.now t.old t.new from kept result }
{
    if kept != from {
        return from;
    }
    calm_rows(t, from, n, intervals, periods)
}
