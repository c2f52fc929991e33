// Save: the image's text of the state in a block of 5,225 octets (document 01, The image). The rows of the block are
// the lines before hexadecimal: A0 from its start, A1 or A5 of each monitor row in use by handle, A3 of each pair held
// in start order, AF with their numbers. Lengths that stand in rows are cut to what the row has, so any block whatever
// can be given.
#![tactic(auto)]

mod passes;

ghost use Rattle.std.specs.Prelude.{◌+◌, ◌*◌, ◌≤◌, ◌<◌, ◌≡◌, true, ◌&&◌, ◌∷◌, length, eqb};
ghost use Rattle.laws.specs.Put.{put, put_if};
ghost use Rattle.laws.specs.Tests.{pick, sames};
ghost use Rattle.lines.specs.Hex.{text_of};
ghost use Rattle.sessions.specs.Machine.{core_room};
ghost use Rattle.model.specs.Types.{Model};
ghost use Rattle.model.specs.Sound.{sound_model};
ghost use Rattle.model.specs.Image.{image_text};
ghost use Rattle.model.specs.Block.{padded};
ghost use Rattle.save.specs.Text.{head_text, monitor_text, pair_text, end_text, live_below, monitors_text, pairs_text, rest_room, rest_text, saved_text, saves, saves_in};
ghost use Rattle.save.specs.Passed.{lost, passed};
ghost use Rattle.model.specs.Layout.{head_line, monitor_line, monitor_lines, pair_line, pair_lines};
ghost use Rattle.model.specs.Layout.{block_size, monitor_size, most_monitors, most_pairs, pair_size};

use state::State;

// The longest first line, and the longest text behind it.
const HEAD: usize = 2 * State::HEAD_LINE + 1;

const REST: usize = State::IMAGE - HEAD;

// A line: the octet that names it, then a row, in hexadecimal with the LF. The row's text takes the place of the
// name's LF.
fn put_line(out: &mut [u8], at: usize, name: u8, row: &[u8]) -> usize
    requires { at + 2 * length row.now + 3 ≤ length out.old }
    ensures { (result ≡ at + length (text_of (name ∷ row.now)))
        × (out.new ≡ put out.old at (text_of (name ∷ row.now))) }
{
    let first = [name];
    lines::put_text(out, at, &first);
    lines::put_text(out, at + 2, row);
    at + 2 * row.len() + 3
}

fn put_head(s: &[u8], out: &mut [u8]) -> usize
    requires { (length s.now ≡ block_size) × (head_line ≤ length out.old) }
    ensures { (result ≡ length (head_text s.now))
        × (out.new ≡ put out.old 0 (head_text s.now)) }
{
    let n = octets::at_most(s[State::PREFIX_LENGTH_AT], State::PREFIX);
    let end = State::PREFIX_AT + n;
    put_line(out, 0, 0xA0, &s[..end])
}

// A monitor's line: A1, or A5 with what version 2 adds. That stands behind the room of the condition, and its text
// takes the place of the LF of what comes before.
fn put_monitor(out: &mut [u8], at: usize, row: &[u8]) -> usize
    requires { (length row.now ≡ monitor_size) × (at + monitor_line ≤ length out.old) }
    ensures { (result ≡ at + length (monitor_text row.now))
        × (out.new ≡ put out.old at (monitor_text row.now)) }
{
    if row[State::INTERVAL_AT] == 0 {
        return at;
    }
    let n = octets::at_most(row[State::CONDITION_LENGTH_AT], State::CONDITION);
    let end = State::CONDITION_AT + n;
    if row[State::OPTIONS_AT] == 0 {
        return put_line(out, at, 0xA1, &row[..end]);
    }
    let next = put_line(out, at, 0xA5, &row[..end]);
    lines::put_text(out, next - 1, &row[State::OPTIONS_AT..]);
    next + 2 * State::EXTRA
}

fn put_monitors(s: &[u8], out: &mut [u8], at: usize) -> usize
    requires { (length s.now ≡ block_size) × (at + monitor_lines ≤ length out.old) }
    ensures { (result ≡ at + length (monitors_text s.now most_monitors))
        × (out.new ≡ put out.old at (monitors_text s.now most_monitors)) }
{
    let mut next = at;
    for h in 0..State::MONITORS {
        let b = State::MONITORS_AT + State::MONITOR_ROW * h;
        let e = b + State::MONITOR_ROW;
        next = put_monitor(out, next, &s[b..e]);
    }
    next
}

fn put_pair(out: &mut [u8], at: usize, row: &[u8]) -> usize
    requires { (length row.now ≡ pair_size) × (at + pair_line ≤ length out.old) }
    ensures { (result ≡ at + length (pair_text row.now))
        × (out.new ≡ put out.old at (pair_text row.now)) }
{
    let n = octets::at_most(row[State::LENGTH_AT], State::DATA);
    let end = State::DATA_AT + n;
    put_line(out, at, 0xA3, &row[..end])
}

fn put_pairs(s: &[u8], out: &mut [u8], at: usize, n: usize) -> usize
    requires { (length s.now ≡ block_size) × (n ≤ most_pairs) × (at + pair_lines ≤ length out.old) }
    ensures { (result ≡ at + length (pairs_text s.now n))
        × (out.new ≡ put out.old at (pairs_text s.now n)) }
{
    let mut next = at;
    for i in 0..n {
        let b = State::PAIRS_AT + State::PAIR_ROW * i;
        let e = b + State::PAIR_ROW;
        next = put_pair(out, next, &s[b..e]);
    }
    next
}

// 1 where an interval says that its row is in use.
fn one_if(interval: u8) -> usize
    ensures { (result ≡ pick (eqb interval 0) 0 1) × (result ≤ 1) }
{
    if interval == 0 {
        return 0;
    }
    1
}

fn live_in(s: &[u8]) -> usize
    requires { length s.now ≡ block_size }
    ensures { (result ≡ length (live_below s.now most_monitors)) × (result ≤ most_monitors) }
{
    let mut n = 0;
    for h in 0..State::MONITORS {
        n += one_if(s[State::MONITORS_AT + State::MONITOR_ROW * h + State::INTERVAL_AT]);
    }
    n
}

fn put_end(out: &mut [u8], at: usize, mons: usize, pairs: usize) -> usize
    requires { (at + 7 ≤ length out.old) × (mons ≤ most_monitors) × (pairs ≤ most_pairs) }
    ensures { (result ≡ at + length (end_text mons pairs))
        × (out.new ≡ put out.old at (end_text mons pairs)) }
{
    let u = mons as u8;
    let n = pairs as u8;
    let row = [u, n];
    put_line(out, at, 0xAF, &row)
}

// Behind the first line: the monitors, the pairs, their numbers.
fn put_rest(s: &[u8], out: &mut [u8], at: usize) -> usize
    requires { (length s.now ≡ block_size) × (at + rest_room ≤ length out.old) }
    ensures { (result ≡ at + length (rest_text s.now))
        × (out.new ≡ put out.old at (rest_text s.now)) }
{
    let n = octets::at_most(s[State::COUNT_AT], State::PAIRS);
    let u = live_in(s);
    let b = put_monitors(s, out, at);
    let c = put_pairs(s, out, b, n);
    put_end(out, c, u, n)
}

fn put_image(s: &[u8], out: &mut [u8]) -> usize
    requires { (length s.now ≡ block_size) × (core_room ≤ length out.old) }
    ensures { (result ≡ length (saved_text s.now))
        × (out.new ≡ put out.old 0 (saved_text s.now)) }
{
    let a = put_head(s, out);
    put_rest(s, out, a)
}

// The image's text of the state in s, written from the start of out; its length. Where s is not 5,225 octets or out
// is under 10,698, nothing is written and the answer is 0. Of the block of a sound state that is its image; of any
// other block it is saved_text, the lines of what stands in its rows.
pub fn save_image(s: &[u8], out: &mut [u8]) -> usize
    ensures text { (result ≡ pick (saves s.now (length out.old)) (length (saved_text s.now)) 0)
        × (out.new
        ≡ put_if (saves s.now (length out.old)) out.old 0
        (saved_text s.now)) }
    ensures of_sound { (m : Model) → sound_model m ≡ true → s.now ≡ padded m → core_room ≤ length out.old
        → (result ≡ length (image_text m)) × (out.new ≡ put out.old 0 (image_text m)) }
{
    if s.len() != State::SIZE {
        return 0;
    }
    if out.len() < State::IMAGE {
        return 0;
    }
    put_image(s, out)
}

// The first line alone, and what stands behind it: as save_image, into room for the longest.
pub fn save_head(s: &[u8], out: &mut [u8]) -> usize
    ensures { (result ≡ pick (saves_in head_line s.now (length out.old)) (length (head_text s.now))
        0) × (out.new
        ≡ put_if (saves_in head_line s.now (length out.old)) out.old 0
        (head_text s.now)) }
{
    if s.len() != State::SIZE {
        return 0;
    }
    if out.len() < HEAD {
        return 0;
    }
    put_head(s, out)
}

pub fn save_rest(s: &[u8], out: &mut [u8]) -> usize
    ensures { (result ≡ pick (saves_in rest_room s.now (length out.old)) (length (rest_text s.now))
        0) × (out.new
        ≡ put_if (saves_in rest_room s.now (length out.old)) out.old 0
        (rest_text s.now)) }
{
    if s.len() != State::SIZE {
        return 0;
    }
    if out.len() < REST {
        return 0;
    }
    put_rest(s, out, 0)
}

// An index past every image: where a text is not what is looked for.
pub const LOST: usize = 65536;

// The index behind a line that stands in a text at an index; LOST where another text stands there.
pub fn past(text: &[u8], at: usize, line: &[u8]) -> usize
    ensures { result ≡ passed text.now at line.now }
{
    let n = text.len();
    let k = line.len();
    if n < at {
        if k == 0 {
            return at;
        }
        return LOST;
    }
    if n - at < k {
        return LOST;
    }
    let e = at + k;
    if parts::same(&text[at..e], line) {
        return e;
    }
    LOST
}

// The index behind the first line of a block's text, where a text begins with it.
pub fn past_head(s: &[u8], text: &[u8]) -> usize
    ensures { result
        ≡ pick (eqb (length s.now) block_size) (passed text.now 0 (head_text s.now))
        lost }
{
    if s.len() != State::SIZE {
        return LOST;
    }
    passes::head(s, text)
}

// Whether a text is a block's behind the first line.
pub fn is_rest(s: &[u8], text: &[u8]) -> bool
    ensures { result
        ≡ (eqb (length s.now) block_size && sames (rest_text s.now) text.now) }
{
    if s.len() != State::SIZE {
        return false;
    }
    if State::IMAGE < text.len() {
        return false;
    }
    passes::rest(s, text) == text.len()
}
