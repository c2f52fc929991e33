// A text held to the lines that save would write of a block: each is written into a buffer of one line and compared
// with what stands in the text.
ghost use Rattle.std.specs.Prelude.{◌+◌, ◌*◌, ◌≤◌, ◌<◌, ◌≡◌, length};
ghost use Rattle.sessions.specs.Machine.{save_room};
ghost use Rattle.model.specs.Layout.{block_size, monitor_size, most_monitors, most_pairs, pair_size};
ghost use Rattle.save.specs.Text.{head_text, monitor_text, pair_text, end_text, monitors_text, pairs_text, rest_text};
ghost use Rattle.save.specs.Passed.{passed};

use super::past;
use state::State;

// The longest line.
const ROOM: usize = 2 * State::LINE_ROW + 1;

pub(super) fn head(s: &[u8], text: &[u8]) -> usize
    requires { length s.now ≡ block_size }
    ensures { result ≡ passed text.now 0 (head_text s.now) }
{
    let mut line = [0u8; ROOM];
    let n = super::put_head(s, &mut line);
    past(text, 0, &line[..n])
}

fn monitor(row: &[u8], text: &[u8], at: usize) -> usize
    requires { length row.now ≡ monitor_size }
    ensures { result ≡ passed text.now at (monitor_text row.now) }
{
    let mut line = [0u8; ROOM];
    let n = super::put_monitor(&mut line, 0, row);
    past(text, at, &line[..n])
}

fn monitors(s: &[u8], text: &[u8]) -> usize
    requires { (length s.now ≡ block_size) × (length text.now ≤ save_room) }
    ensures { result ≡ passed text.now 0 (monitors_text s.now most_monitors) }
{
    let mut at = 0;
    for h in 0..State::MONITORS {
        let b = State::MONITORS_AT + State::MONITOR_ROW * h;
        let e = b + State::MONITOR_ROW;
        at = monitor(&s[b..e], text, at);
    }
    at
}

fn pair(row: &[u8], text: &[u8], at: usize) -> usize
    requires { length row.now ≡ pair_size }
    ensures { result ≡ passed text.now at (pair_text row.now) }
{
    let mut line = [0u8; ROOM];
    let n = super::put_pair(&mut line, 0, row);
    past(text, at, &line[..n])
}

fn pairs(s: &[u8], text: &[u8], from: usize, n: usize) -> usize
    requires { (length s.now ≡ block_size) × (n ≤ most_pairs) × (length text.now ≤ save_room) }
    ensures { result ≡ passed text.now from (pairs_text s.now n) }
{
    let mut at = from;
    for i in 0..n {
        let b = State::PAIRS_AT + State::PAIR_ROW * i;
        let e = b + State::PAIR_ROW;
        at = pair(&s[b..e], text, at);
    }
    at
}

fn end(text: &[u8], at: usize, mons: usize, pairs: usize) -> usize
    requires { (mons ≤ most_monitors) × (pairs ≤ most_pairs) }
    ensures { result ≡ passed text.now at (end_text mons pairs) }
{
    let mut line = [0u8; ROOM];
    let n = super::put_end(&mut line, 0, mons, pairs);
    past(text, at, &line[..n])
}

// Behind the first line: the monitors, the pairs, their numbers.
pub(super) fn rest(s: &[u8], text: &[u8]) -> usize
    requires { (length s.now ≡ block_size) × (length text.now ≤ save_room) }
    ensures { result ≡ passed text.now 0 (rest_text s.now) }
{
    let n = octets::at_most(s[State::COUNT_AT], State::PAIRS);
    let u = super::live_in(s);
    let a = monitors(s, text);
    let b = pairs(s, text, a, n);
    end(text, b, u, n)
}
