// Images with editions (document 02, T-12): the image's text of a whole block, any text read into one, and whether a
// block is sound. The core's text and the core are those of the crates save and restore; a line for each edition
// stands behind the first line.
#![tactic(auto)]

ghost use Rattle.std.specs.Prelude.{ℕ, ◌+◌, ◌*◌, ◌≤◌, ◌<◌, ◌≡◌, true, List, length, take, drop};
ghost use Rattle.laws.specs.Put.{put, put_if};
ghost use Rattle.laws.specs.Loops.{each};
ghost use Rattle.laws.specs.Tests.{pick, sames};
ghost use Rattle.rule.specs.Base.{All};
ghost use Rattle.lines.specs.Hex.{text_of};
ghost use Rattle.sessions.specs.Machine.{save_room};
ghost use Rattle.model.specs.Layout.{line_row};
ghost use Rattle.restore.specs.Rows.{Row};
ghost use Rattle.save.specs.Passed.{passed};
ghost use Rattle.editions.specs.Editions.{Gateway, sound_gateway, image_on, most_editions};
ghost use Rattle.editions.specs.Block.{edition_line, edition_size};
ghost use Rattle.wholes.specs.Layout.{whole_size};
ghost use Rattle.wholes.specs.Whole.{whole, sound_whole};
ghost use Rattle.snapshots.specs.Saved.{line_at, lines_text, saved_on, saves_on};
ghost use Rattle.snapshots.specs.Stored.{stored_edition, stored_on, stored_all_on, Placed};
ghost use Rattle.snapshots.specs.Accepted.{ReadOn, restores_on, restored_on};

use index::Whole;
use state::State;

// The octet that names an edition's line.
const NAME: u8 = 0xA4;

// The line of edition i, written at an index.
fn put_one(s: &[u8], i: usize, out: &mut [u8], at: usize) -> usize
    requires { (length s.now ≡ whole_size) × (i < most_editions) × (at + edition_line ≤ length out.old) }
    ensures { (result ≡ at + length (line_at s.now i))
        × (out.new ≡ put out.old at (line_at s.now i)) }
{
    let from = Whole::EDITIONS_AT + Whole::EDITION * i;
    let k = octets::at_most(s[from + 4], State::PREFIX);
    let to = from + 5 + k;
    let mut line = [NAME; 1 + Whole::EDITION];
    parts::copy(&mut line, 1, &s[from..to]);
    let n = 6 + k;
    lines::put_text(out, at, &line[..n]);
    at + 2 * n + 1
}

// The lines of a block's editions, written at an index.
fn put_lines(s: &[u8], out: &mut [u8], from: usize) -> usize
    requires { (length s.now ≡ whole_size) × (from + edition_line * most_editions ≤ length out.old) }
    ensures { (result ≡ from + length (lines_text s.now))
        × (out.new ≡ put out.old from (lines_text s.now)) }
{
    let count = octets::at_most(s[Whole::EDITION_COUNT_AT], Whole::EDITIONS);
    let mut at = from;
    for i in 0..count {
        at = put_one(s, i, out, at);
    }
    at
}

// The image's text of a block: the core's first line, the editions' lines, the rest of the core's.
fn put_image(s: &[u8], out: &mut [u8]) -> usize
    requires { (length s.now ≡ whole_size) × (save_room ≤ length out.old) }
    ensures { (result ≡ length (saved_on s.now))
        × (out.new ≡ put out.old 0 (saved_on s.now)) }
{
    let a = save::save_head(&s[..State::SIZE], out);
    let b = put_lines(s, out, a);
    let n = save::save_rest(&s[..State::SIZE], &mut out[b..]);
    b + n
}

// The image's text of the state in a whole block, written from the start of out; its length. Where the block is not
// 6,987 octets or out is under 13,162, nothing is written and the answer is 0. Of a sound block that is its image; of
// any other it is saved_on.
pub fn save_image(s: &[u8], out: &mut [u8]) -> usize
    ensures { (result ≡ pick (saves_on s.now (length out.old)) (length (saved_on s.now)) 0)
        × (out.new
        ≡ put_if (saves_on s.now (length out.old)) out.old 0
        (saved_on s.now)) }
{
    if s.len() != Whole::SIZE {
        return 0;
    }
    if out.len() < Whole::IMAGE {
        return 0;
    }
    put_image(s, out)
}

// Whether a block is that of a sound state: its core is sound, its index is that of the pairs held, its editions are
// sound, and the head has the prefix in force at the position. That no pair is held twice is told with the index.
pub fn is_sound(s: &[u8]) -> bool
    ensures { result ≡ sound_whole s.now }
{
    if s.len() != Whole::SIZE {
        return false;
    }
    if !soundness::is_loose(&s[..State::SIZE]) {
        return false;
    }
    if !prefixes::is_prefixed(s) {
        return false;
    }
    index::is_indexed(s)
}

// An A4 line's row behind the editions that a block holds, where there is room.
fn store_edition(s: &mut [u8], line: &[u8])
    requires { (length s.old ≡ whole_size) × (length line.now ≡ line_row) }
    ensures { s.new ≡ stored_edition s.old (take edition_size (drop 1 line.now)) }
{
    let c = octets::wide(s[Whole::EDITION_COUNT_AT]);
    if Whole::EDITIONS <= c {
        return;
    }
    parts::copy(
        s,
        Whole::EDITIONS_AT + Whole::EDITION * c,
        &line[1..1 + Whole::EDITION],
    );
    s[Whole::EDITION_COUNT_AT] = (c + 1) as u8;
}

// A line's octets: an A4 line among the editions, any other in the core.
fn store_line(s: &mut [u8], line: &[u8])
    requires { (length s.old ≡ whole_size) × (length line.now ≡ line_row) }
    ensures { s.new ≡ stored_on s.old line.now }
{
    if line[0] == NAME {
        store_edition(s, line);
        return;
    }
    restore::store_line(&mut s[..State::SIZE], line);
}

// The line at an index, read in one pass and stored. The answer is the index behind it, or that index where no line
// of at most 97 octets stands there.
fn store_text(s: &mut [u8], text: &[u8], at: usize) -> usize
    requires { (length s.old ≡ whole_size) × (at ≤ length text.now) }
    ensures { Placed text.now at s.old s.new result }
{
    let mut line = [0u8; State::LINE_ROW];
    let k = reader::read_pairs(text, at, &mut line);
    let e = at + 2 * k;
    if reader::is_end(text, e) {
        store_line(s, &line);
        return e + 1;
    }
    at
}

// The lines of a text, up to the first that cannot be read.
fn store_lines(s: &mut [u8], text: &[u8])
    requires { length s.old ≡ whole_size }
    ensures { (rs : List (List ℕ)) → All Row rs → text.now ≡ each text_of rs
        → s.new ≡ stored_all_on s.old rs }
{
    let n = text.len();
    let mut at = 0;
    while at < n {
        let e = store_text(s, text, at);
        if e == at {
            return;
        }
        at = e;
    }
}

// The lines of a text in an empty block. Of the image of a sound state that is the state's whole block; what it is of
// another text is not said.
fn fill_block(s: &mut [u8], text: &[u8])
    requires { length s.old ≡ whole_size }
    ensures { (g : Gateway) → sound_gateway g ≡ true → text.now ≡ image_on g → s.new ≡ whole g }
{
    parts::fill(s, 0, Whole::SIZE, 0);
    store_lines(s, text);
    index::renew(s);
}

// The index behind the line of edition i, where it stands in a text at an index.
fn past_one(s: &[u8], i: usize, text: &[u8], at: usize) -> usize
    requires { (length s.now ≡ whole_size) × (i < most_editions) }
    ensures { result ≡ passed text.now at (line_at s.now i) }
{
    let mut line = [0u8; Whole::EDITION_LINE];
    let n = put_one(s, i, &mut line, 0);
    save::past(text, at, &line[..n])
}

// The index behind the editions' lines, where they stand in a text at an index.
fn past_lines(s: &[u8], text: &[u8], from: usize) -> usize
    requires { (length s.now ≡ whole_size) × (length text.now ≤ save_room) }
    ensures { result ≡ passed text.now from (lines_text s.now) }
{
    let count = octets::at_most(s[Whole::EDITION_COUNT_AT], Whole::EDITIONS);
    let mut at = from;
    for i in 0..count {
        at = past_one(s, i, text, at);
    }
    at
}

// Whether a text is what save writes of a block: line by line, none is kept.
fn is_saved(s: &[u8], text: &[u8]) -> bool
    requires { (length s.now ≡ whole_size) × (length text.now ≤ save_room) }
    ensures { result ≡ sames (saved_on s.now) text.now }
{
    let a = save::past_head(&s[..State::SIZE], text);
    let b = past_lines(s, text, a);
    if text.len() < b {
        return false;
    }
    save::is_rest(&s[..State::SIZE], &text[b..])
}

// Reads an image into s: the answer is whether the text is an image of a sound state. Where it is, s is then the
// whole block of the state that the text holds; where not, what s holds is not said.
fn take_image(text: &[u8], s: &mut [u8]) -> bool
    requires { length s.old ≡ whole_size }
    ensures { ReadOn text.now s.new result }
{
    if Whole::IMAGE < text.len() {
        return false;
    }
    fill_block(s, text);
    if is_sound(s) {
        return is_saved(s, text);
    }
    false
}

// Restores an image into s: the answer is whether s has 6,987 octets and the text is an image of a sound state. Where
// it is, s is then the whole block of the state that the text holds; where the text is refused, the blank state's. A
// block of another length stays as it is.
pub fn read_image(text: &[u8], s: &mut [u8]) -> bool
    ensures { (result ≡ restores_on text.now (length s.old))
        × (s.new ≡ restored_on text.now s.old) }
{
    if s.len() != Whole::SIZE {
        return false;
    }
    let image = take_image(text, s);
    if !image {
        index::put_blank(s);
    }
    image
}
