// What a tick writes for a pair: the report of a window that closes, the stop event of a watch that ends (document
// 01, Watching, by history).
ghost use Rattle.std.specs.Prelude.{◌+◌, ◌*◌, ◌≤◌, ◌<◌, ◌≡◌, true, length, get_or};
ghost use Rattle.laws.specs.Loops.{when};
ghost use Rattle.laws.specs.Rows.{row};
ghost use Rattle.octets.specs.Little.{little};
ghost use Rattle.model.specs.Level.{mean};
ghost use Rattle.events.specs.Octets.{event_octets};
ghost use Rattle.ticks.specs.Row.{windowed_by, closes_at, report_row, says_row};
ghost use Rattle.ticks.specs.Written.{Appended};
ghost use Rattle.model.specs.Layout.{report_most, length_at, most_data, most_prefix, packets_at, pair_size};

use state::State;

// Whether a sampling period has windows: from 0x01 to 0xFE.
pub(super) fn windowed(period: u8) -> bool
    ensures { result ≡ windowed_by period }
{
    (1 <= period) & (period <= 254)
}

// Whether one tick more closes the window.
pub(super) fn closes(period: u8, ticks: u8) -> bool
    ensures { result ≡ closes_at period ticks }
{
    let some = windowed(period);
    some & (u16::from(period) <= u16::from(ticks) + 1)
}

// The mean RSSI of a window's packets: the greatest whole number not above sum / packets, as an octet. A sum below 0 is
// the complement of one that is not, and so is the quotient.
fn mean_of(sum: u64, packets: u64) -> u8
    requires { 1 ≤ packets }
    ensures { result ≡ mean sum packets }
{
    if sum < 9223372036854775808 {
        return (sum / packets % 256) as u8;
    }
    let below = (18446744073709551615 - sum) / packets;
    (255 - below % 256) as u8
}

// The octet at an index, 0 past the end.
pub(super) fn octet_at(xs: &[u8], i: usize) -> u8
    ensures { result ≡ get_or xs.now i 0 }
{
    xs.get(i).copied().unwrap_or(0)
}

// Whether a pair that stays reports its window, with the report filtering by handle. Most ticks close none, so that
// is asked first.
fn says(r: &[u8], period: u8, filters: &[u8]) -> bool
    requires { length r.now ≡ pair_size }
    ensures { result ≡ says_row true period filters.now r.now }
{
    if !closes(period, r[State::TICKS_AT]) {
        return false;
    }
    let packets = octets::get32(r, State::PACKETS_AT);
    let filter = octet_at(filters, r[0] as usize);
    let through = state::lets_through(filter, r[State::EVENT_AT]);
    (1 <= packets) & ((r[State::LENGTH_AT] <= State::MOST_DATA) & through)
}

// Appends the report of a window.
fn put_window(r: &[u8], out: &mut [u8], at: usize) -> usize
    requires { (length r.now ≡ pair_size) × (1 ≤ little 4 r.now packets_at) × (get_or r.now length_at 0 ≤ most_data)
        × (at + report_most ≤ length out.old) }
    ensures { Appended out.old out.new at result (report_row r.now) }
{
    let packets = octets::get32(r, State::PACKETS_AT) as u64;
    let rssi = mean_of(octets::get64(r, State::SUM_AT), packets);
    let end = State::DATA_AT + r[State::LENGTH_AT] as usize;
    events::put_report(
        out,
        at,
        r[State::EVENT_AT],
        &r[State::KIND_AT..State::SILENT_AT],
        &r[State::DATA_AT..end],
        rssi,
    )
}

// Appends what a tick writes for a pair that stays: the report of its window where there is one.
pub(super) fn tell_window(r: &[u8], out: &mut [u8], at: usize, period: u8, filters: &[u8]) -> usize
    requires { (length r.now ≡ pair_size) × (at + report_most ≤ length out.old) }
    ensures { Appended out.old out.new at result
        (when (says_row true period filters.now r.now) (report_row r.now)) }
{
    if says(r, period, filters) {
        return put_window(r, out, at);
    }
    0
}

// Appends what a tick writes for a pair whose watch ends: its stop event.
pub(super) fn tell_stop(r: &[u8], out: &mut [u8], at: usize, prefix: &[u8]) -> usize
    requires { (length r.now ≡ pair_size) × (length prefix.now ≤ most_prefix)
        × (at + report_most ≤ length out.old) }
    ensures { Appended out.old out.new at result (event_octets prefix.now r.now 0) }
{
    events::put_event(out, at, prefix, r, 0)
}
