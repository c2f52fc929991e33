// A tick (document 01, Watching, by history): one pass over the pairs held, in place. For each pair in start order:
// the ticks since a good packet, the end of a watch with its stop event, the closing of a window with its report.
// Pairs that stay move down over those that end, and the rows behind them are cleared.
#![tactic(auto)]

mod calm;
mod columns;
mod tells;

ghost use Rattle.std.specs.Prelude.{ℕ, ◌+◌, ◌*◌, ◌≤◌, ◌<◌, List, ◌≡◌, true, not, length, ltb};
ghost use Rattle.laws.specs.Put.{put};
ghost use Rattle.laws.specs.Rows.{row};
ghost use Rattle.octets.specs.Little.{little};
ghost use Rattle.model.specs.Frames.{tick as a_tick};
ghost use Rattle.steps.specs.Stepped.{Steps, Within, Taken};
ghost use Rattle.ticks.specs.Row.{emptied_row, ticked_row, kept_at, told_at};
ghost use Rattle.ticks.specs.Table.{Turned, Passed, Cleared};
ghost use Rattle.model.specs.Layout.{report_most};
ghost use Rattle.sessions.specs.Machine.{answer_room};
ghost use Rattle.model.specs.Layout.{block_size, most_monitors, most_pairs, most_prefix, pair_size, pairs_size, since_good_at};

use state::{Seconds, State, Ticks};

// Whether a watch goes on: a tick more since a good packet is not yet the whole run.
fn stays(silent: Ticks, run: Ticks) -> bool
    ensures { result ≡ ltb (silent.0 + 1) run.0 }
{
    u32::from(silent.0) + 1 < u32::from(run.0)
}

// Empties the window of a row: its ticks, packets and sum, and the latest packet. The kept RSSI between them stays.
fn empty_window(r: &mut [u8])
    requires { length r.old ≡ pair_size }
    ensures { r.new ≡ emptied_row r.old }
{
    parts::fill(r, State::TICKS_AT, State::COUNTS, 0);
    parts::fill(r, State::EVENT_AT, State::LATEST, 0);
}

// A row one tick further: the ticks since a good packet, and its window.
fn advance(r: &mut [u8], period: u8)
    requires { (length r.old ≡ pair_size) × (little 2 r.old since_good_at < 65535) }
    ensures { r.new ≡ ticked_row period r.old }
{
    let silent = octets::get16(r, State::SILENT_AT);
    let ticks = r[State::TICKS_AT];
    octets::put16(r, State::SILENT_AT, silent + 1);
    if !tells::windowed(period) {
        return;
    }
    if tells::closes(period, ticks) {
        empty_window(r);
        return;
    }
    r[State::TICKS_AT] = ticks + 1;
}

// Moves a row down.
fn move_row(t: &mut [u8], to: usize, from: usize)
    requires { (to ≤ from) × (from < most_pairs) × (length t.old ≡ pairs_size) }
    ensures { t.new ≡ put t.old (pair_size * to) (row pair_size from t.old) }
{
    if to == from {
        return;
    }
    parts::shift(
        t,
        State::PAIR_ROW * to,
        State::PAIR_ROW * from,
        State::PAIR_ROW,
    );
}

// A row that stays, one tick further, at its new place.
fn keep_row(t: &mut [u8], to: usize, from: usize, period: u8)
    requires { (to ≤ from) × (from < most_pairs) × (length t.old ≡ pairs_size)
        × (little 2 (row pair_size from t.old) since_good_at < 65535) }
    ensures { t.new
        ≡ put t.old (pair_size * to) (ticked_row period (row pair_size from t.old)) }
{
    move_row(t, to, from);
    let start = State::PAIR_ROW * to;
    let end = start + State::PAIR_ROW;
    advance(&mut t[start..end], period);
}

// How many rows are kept and how many octets are written so far.
#[derive(Clone, Copy)]
struct Turn {
    kept: usize,
    wrote: usize,
}

// One row's turn: row i is told, and moved to place kept where it stays.
fn tick_row(
    t: &mut [u8],
    i: usize,
    kept: usize,
    out: &mut [u8],
    at: usize,
    intervals: &[u8],
    periods: &[u8],
    filters: &[u8],
    prefix: &[u8],
) -> Turn
    requires { (i < most_pairs) × (kept ≤ i) × (length t.old ≡ pairs_size) × (at + report_most ≤ length out.old)
        × (length prefix.now ≤ most_prefix) }
    ensures { Turned t.old t.new out.old out.new kept at result.kept
        result.wrote (kept_at intervals.now periods.now t.old i)
        (told_at intervals.now periods.now filters.now prefix.now
        t.old i) }
{
    let start = State::PAIR_ROW * i;
    let end = start + State::PAIR_ROW;
    let handle = t[start] as usize;
    let run = Seconds(tells::octet_at(intervals, handle)).ticks();
    let period = tells::octet_at(periods, handle);
    let silent = Ticks(octets::get16(t, start + State::SILENT_AT));
    if stays(silent, run) {
        let wrote = at + tells::tell_window(&t[start..end], out, at, period, filters);
        keep_row(t, kept, i, period);
        return Turn {
            kept: kept + 1,
            wrote,
        };
    }
    let wrote = at + tells::tell_stop(&t[start..end], out, at, prefix);
    Turn { kept, wrote }
}

// The turns of the rows from an index on, in order, where every row before stayed at its place and nothing was told.
// Behind each turn, rows that are calm are passed at once.
fn tick_rest(
    t: &mut [u8],
    from: usize,
    n: usize,
    out: &mut [u8],
    intervals: &[u8],
    periods: &[u8],
    filters: &[u8],
    prefix: &[u8],
) -> Turn
    requires { (from ≤ n) × (n ≤ most_pairs) × (length t.old ≡ pairs_size) × (answer_room ≤ length out.old)
        × (length prefix.now ≤ most_prefix) × (length intervals.now ≡ most_monitors)
        × (length periods.now ≡ most_monitors) }
    ensures { (result.kept ≤ n) × (result.wrote ≤ report_most * n)
        × ((t₀ : List ℕ)
        → Passed t₀ t.old out.old out.old from 0
        (kept_at intervals.now periods.now t₀)
        (told_at intervals.now periods.now filters.now prefix.now t₀) from
        → Passed t₀ t.new out.old out.new result.kept result.wrote
        (kept_at intervals.now periods.now t₀)
        (told_at intervals.now periods.now filters.now prefix.now t₀) n) }
{
    // Kept: a `while`, as a turn goes over as many rows as are calm behind it, which a `for` cannot.
    let mut i = from;
    let mut kept = from;
    let mut wrote = 0;
    while i < n {
        let turn = tick_row(t, i, kept, out, wrote, intervals, periods, filters, prefix);
        wrote = turn.wrote;
        i += 1;
        let next = calm::calm_behind(t, i, turn.kept, n, intervals, periods);
        kept = turn.kept + (next - i);
        i = next;
    }
    Turn { kept, wrote }
}

// The turns of all rows, in order.
fn tick_rows(
    t: &mut [u8],
    n: usize,
    out: &mut [u8],
    intervals: &[u8],
    periods: &[u8],
    filters: &[u8],
    prefix: &[u8],
) -> Turn
    requires { (n ≤ most_pairs) × (length t.old ≡ pairs_size) × (answer_room ≤ length out.old)
        × (length prefix.now ≤ most_prefix) × (length intervals.now ≡ most_monitors)
        × (length periods.now ≡ most_monitors) }
    ensures { (result.kept ≤ n) × (result.wrote ≤ report_most * n)
        × Passed t.old t.new out.old out.new result.kept result.wrote
        (kept_at intervals.now periods.now t.old)
        (told_at intervals.now periods.now filters.now prefix.now
        t.old) n }
{
    let from = calm::calm_rows(t, 0, n, intervals, periods);
    tick_rest(t, from, n, out, intervals, periods, filters, prefix)
}

// A tick on the pair table: the turns of all rows, and the freed rows cleared.
fn tick_pairs(
    t: &mut [u8],
    n: usize,
    out: &mut [u8],
    intervals: &[u8],
    periods: &[u8],
    filters: &[u8],
    prefix: &[u8],
) -> Turn
    requires { (n ≤ most_pairs) × (length t.old ≡ pairs_size) × (answer_room ≤ length out.old)
        × (length prefix.now ≤ most_prefix) × (length intervals.now ≡ most_monitors)
        × (length periods.now ≡ most_monitors) }
    ensures { Cleared t.old t.new out.old out.new result.kept
        result.wrote (kept_at intervals.now periods.now t.old)
        (told_at intervals.now periods.now filters.now prefix.now
        t.old) n }
{
    let turn = tick_rows(t, n, out, intervals, periods, filters, prefix);
    let kept = turn.kept;
    parts::fill(t, State::PAIR_ROW * kept, State::PAIR_ROW * (n - kept), 0);
    turn
}

// A tick on a block of the right length.
fn tick_in(s: &mut [u8], out: &mut [u8]) -> usize
    requires { (length s.old ≡ block_size) × (answer_room ≤ length out.old) }
    ensures { Steps a_tick s.old s.new out.old out.new result
        × Within out.old out.new result }
{
    let head = columns::head_of(s);
    let intervals = columns::column(s, State::INTERVALS_AT);
    let periods = columns::column(s, State::PERIODS_AT);
    let n = octets::at_most(s[State::COUNT_AT], State::PAIRS);
    let filters = columns::filters_of(s, head[State::FILTER_AT]);
    let end = State::PREFIX_AT + octets::at_most(head[State::PREFIX_LENGTH_AT], State::PREFIX);
    let turn = tick_pairs(
        &mut s[State::PAIRS_AT..State::COUNT_AT],
        n,
        out,
        &intervals,
        &periods,
        &filters,
        &head[State::PREFIX_AT..end],
    );
    s[State::COUNT_AT] = turn.kept as u8;
    state::advance(s);
    turn.wrote
}

// Takes one tick: changes the block, writes the answer at the output's start, and answers its length. A block that is
// not of 5,225 octets, an output under 2,880 octets, and a block at the last frame number are left as they are, and
// the answer is 0. Of a block that is of no sound state the contents, what is written and how much are free; the
// lengths stay, the answer is at most the output's length, and the octets past it are as they were.
pub fn tick(s: &mut [u8], out: &mut [u8]) -> usize
    ensures { Taken a_tick true s.old s.new out.old out.new result }
{
    if !state::ready(s, out) {
        return 0;
    }
    if s[State::COUNT_AT] == 0 {
        state::advance(s);
        return 0;
    }
    tick_in(s, out)
}
