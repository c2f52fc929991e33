// What a tick reads of the monitors and of the head before it goes over the pairs.
ghost use Rattle.std.specs.Prelude.{◌+◌, ◌*◌, ◌≤◌, ◌<◌, ◌≡◌, length, take};
ghost use Rattle.laws.specs.Rows.{row};
ghost use Rattle.ticks.specs.Table.{column_by, column_of, filter_by, filter_in};
ghost use Rattle.model.specs.Layout.{block_size, head_size, monitor_size, most_monitors};

use state::State;

// One octet of every monitor's row, by handle.
pub(super) fn column(s: &[u8], at: usize) -> [u8; State::MONITORS]
    requires { at + monitor_size * 15 < length s.now }
    ensures { result ≡ column_of s.now at most_monitors }
{
    let mut r = [0u8; State::MONITORS];
    for h in 0..State::MONITORS {
        r[h] = s[at + State::MONITOR_ROW * h];
    }
    r
}

// The report filtering of a monitor by its row's octets, where the filter is on; else 0, which lets nothing through.
fn filter_at(filter: u8, options: u8, filtering: u8) -> u8
    ensures { result ≡ filter_by filter options filtering }
{
    if filter == 1 {
        return state::filtering_of(options, filtering);
    }
    0
}

// The same of every handle.
pub(super) fn filters_of(s: &[u8], filter: u8) -> [u8; State::MONITORS]
    requires { length s.now ≡ block_size }
    ensures { result ≡ column_by (filter_in s.now filter) most_monitors }
{
    let mut r = [0u8; State::MONITORS];
    for h in 0..State::MONITORS {
        let at = State::MONITORS_AT + State::MONITOR_ROW * h;
        r[h] = filter_at(
            filter,
            s[at + State::OPTIONS_AT],
            s[at + State::FILTERING_AT],
        );
    }
    r
}

// The head of the block: position, filter, opcode, prefix length, prefix.
pub(super) fn head_of(s: &[u8]) -> [u8; State::HEAD]
    requires { head_size ≤ length s.now }
    ensures { result ≡ take head_size s.now }
{
    let mut r = [0u8; State::HEAD];
    parts::copy(&mut r, 0, &s[0..State::HEAD]);
    r
}
