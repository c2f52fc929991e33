// The lines of an image stored in a block of 5,225 octets (document 01, The image), whatever they hold: A0 at the
// start, A1 and A5 in the row of their handle, A3 behind the pairs. Nothing is tested here: whether the text was an
// image is told afterwards, by the block's soundness and by what save would write of it.
#![tactic(auto)]

ghost use Rattle.std.specs.Prelude.{◌≡◌, length};
ghost use Rattle.restore.specs.Lines.{stored_monitor, stored_pair, spread_of, stored, stored_in};
ghost use Rattle.model.specs.Layout.{block_size, line_row, monitor_size, pair_size};

use state::State;

// An A1 row at the place of its handle.
fn store_monitor(s: &mut [u8], row: &[u8])
    requires { (length s.old ≡ block_size) × (length row.now ≡ monitor_size) }
    ensures { s.new ≡ stored_monitor s.old row.now }
{
    let h = row[0] as usize;
    if State::MONITORS <= h {
        return;
    }
    parts::copy(s, State::MONITORS_AT + State::MONITOR_ROW * h, row);
}

// An A5 line as a row, at the place of its handle: what version 2 adds stands behind the room of the condition.
fn store_second(s: &mut [u8], line: &[u8])
    requires { (length s.old ≡ block_size) × (length line.now ≡ line_row) }
    ensures { s.new ≡ stored_monitor s.old (spread_of line.now) }
{
    let mut row = [0u8; State::MONITOR_ROW];
    let n = octets::at_most(line[1 + State::CONDITION_LENGTH_AT], State::CONDITION);
    let end = 1 + State::CONDITION_AT + n;
    parts::copy(&mut row, 0, &line[1..end]);
    parts::copy(&mut row, State::OPTIONS_AT, &line[end..end + State::EXTRA]);
    store_monitor(s, &row);
}

// An A3 row behind the pairs, and one pair more.
fn store_pair(s: &mut [u8], row: &[u8])
    requires { (length s.old ≡ block_size) × (length row.now ≡ pair_size) }
    ensures { s.new ≡ stored_pair s.old row.now }
{
    let n = s[State::COUNT_AT];
    if State::MOST_PAIRS <= n {
        return;
    }
    let at = State::PAIRS_AT + State::PAIR_ROW * (n as usize);
    parts::copy(s, at, row);
    s[State::COUNT_AT] = n + 1;
}

// A line's octets, by the octet that names it.
fn put_line(s: &mut [u8], line: &[u8])
    requires { (length s.old ≡ block_size) × (length line.now ≡ line_row) }
    ensures { s.new ≡ stored s.old line.now }
{
    let name = line[0];
    if name == 0xA0 {
        parts::copy(s, 0, &line[1..State::HEAD_LINE]);
        return;
    }
    if name == 0xA1 {
        store_monitor(s, &line[1..State::LINE_ROW]);
        return;
    }
    if name == 0xA5 {
        store_second(s, line);
        return;
    }
    if name == 0xA3 {
        store_pair(s, &line[1..State::PAIR_LINE]);
        return;
    }
}

// Stores the octets of a line of an image, zeros behind them up to 97, in a block of 5,225 octets; lines of other
// names, and blocks and lines of other lengths, change nothing.
pub fn store_line(s: &mut [u8], line: &[u8])
    ensures { s.new ≡ stored_in s.old line.now }
{
    if s.len() != State::SIZE {
        return;
    }
    if line.len() != State::LINE_ROW {
        return;
    }
    put_line(s, line);
}
