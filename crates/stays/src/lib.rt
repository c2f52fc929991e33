// The service record's rows in text (man/visits.1): a visit as a row of a table for people, of comma-separated
// values, or as a JSON object.
#![tactic(auto)]

ghost use Rattle.std.specs.Prelude.{◌+◌, ◌/◌, ◌%◌, ◌≤◌, ◌<◌, ◌≡◌, ◌++◌, [], length, take, ◌&&◌, leb, IfSome};
ghost use Rattle.texts.specs.Text.{room, told};
ghost use Rattle.visit.specs.Book.{mean_of};
ghost use Rattle.stays.specs.Clocks.{nine, two_at, clock_in};
ghost use Rattle.stays.specs.Rows.{gap_of, none_text, quote_text, day_text, moment_text, frame_or, moment_or, ended_text, mean_or, lead_of, blanks_of, put_text, end_text, row_text};

use texts::Text;
use visit::{End, Visit};

// How a row is written.
#[derive(Clone, Copy, PartialEq, Eq)]
pub enum Style {
    Table,
    Csv,
    Json,
}

// A visit and its end: the frame (0: none), the tick, how.
#[derive(Clone, Copy)]
pub struct Row {
    pub visit: Visit,
    pub frame: u32,
    pub tick: u32,
    pub how: End,
}

// A day's colon.
const COLON: u8 = b':';

// Ticks of a day.
const DAY: u64 = 864000;

// Blanks at most behind a value.
const WIDEST: usize = 32;

// The days since the first tick's.
pub fn day(t: Text, days: u64) -> Text
    ensures { told result ≡ take room (told t ++ day_text days) }
{
    if days == 0 {
        return t.with(b"");
    }
    t.said(b"+", days)
}

// A tick's time: since the first tick, or of the day where the first tick's is known, in ticks.
pub fn moment(t: Text, clock: Option<u32>, tick: u32) -> Text
    ensures { told result ≡ take room (told t ++ moment_text clock tick) }
{
    match clock {
        Some(from) => {
            let ticks = from as u64 + tick as u64;
            day(t.time(ticks % DAY), ticks / DAY)
        }
        None => t.time(tick as u64),
    }
}

// How a visit ended, in words.
#[tactic(auto, unfolding(crate::specs::Rows::ended_text, model::specs::Quoted::codes))]
pub fn ended(t: Text, how: End) -> Text
    ensures { told result ≡ take room (told t ++ ended_text how) }
{
    match how {
        End::Silence => t.with(b"silence"),
        End::Full => t.with(b"full table"),
        End::Cancelled => t.with(b"cancelled"),
        End::There => t.with(b"still there"),
    }
}

// Blanks behind a value.
fn blanks(t: Text, n: usize) -> Text
    requires { n ≤ 32 }
    ensures { told result ≡ take room (told t ++ blanks_of n) }
{
    let all = [b' '; WIDEST];
    t.with(&all[..n])
}

// A text behind another.
fn append(t: Text, value: Text) -> Text
    ensures { told result ≡ take room (told t ++ told value) }
{
    t.with(value.as_slice())
}

// The characters of a text.
fn long(t: Text) -> usize
    ensures { result ≡ length (told t) }
{
    t.as_slice().len()
}

impl Style {
    // What is written of what is not known.
    #[tactic(auto, unfolding(crate::specs::Rows::none_text, model::specs::Quoted::codes))]
    fn none(self, t: Text) -> Text
        ensures { told result ≡ take room (told t ++ none_text self) }
    {
        match self {
            Style::Table => t.with(b"-"),
            Style::Csv => t.with(b""),
            Style::Json => t.with(b"null"),
        }
    }

    // The mark around a text in JSON.
    #[tactic(auto, unfolding(crate::specs::Rows::quote_text, model::specs::Quoted::codes))]
    fn quote(self, t: Text) -> Text
        ensures { told result ≡ take room (told t ++ quote_text self) }
    {
        match self {
            Style::Json => t.with(b"\""),
            _ => t.with(b""),
        }
    }

    // A frame's number, where there is one.
    fn frame(self, t: Text, frame: u32) -> Text
        ensures { told result ≡ take room (told t ++ frame_or self frame) }
    {
        if frame == 0 {
            return self.none(t);
        }
        t.said(b"", frame as u64)
    }

    // Its time.
    fn moment(self, t: Text, clock: Option<u32>, frame: u32, tick: u32) -> Text
        ensures { told result ≡ take room (told t ++ moment_or self clock frame tick) }
    {
        if frame == 0 {
            return self.none(t);
        }
        let a = self.quote(t);
        let b = moment(a, clock, tick);
        self.quote(b)
    }

    // The mean RSSI in dBm, where packets were heard.
    #[tactic(auto, unfolding(crate::specs::Rows::mean_or))]
    fn mean(self, t: Text, mean: Option<u8>) -> Text
        ensures { told result ≡ take room (told t ++ mean_or self mean) }
    {
        match mean {
            Some(level) => t.level(level),
            None => self.none(t),
        }
    }

    // What stands before a value: nothing in a table.
    #[tactic(auto, unfolding(crate::specs::Rows::lead_of, model::specs::Quoted::codes))]
    fn lead(self, t: Text, csv: &[u8], json: &[u8]) -> Text
        ensures { told result ≡ take room (told t ++ lead_of self csv.now json.now) }
    {
        match self {
            Style::Table => t.with(b""),
            Style::Csv => t.with(csv),
            Style::Json => t.with(json),
        }
    }

    // How many blanks follow a value of so many characters: as many as its column has left, in a table.
    #[tactic(auto, unfolding(crate::specs::Rows::gap_of))]
    fn gap(self, width: usize, long: usize) -> usize
        ensures { (result ≡ gap_of self width long) × (result ≤ 32) }
    {
        match self {
            Style::Table => width.saturating_sub(long).min(WIDEST),
            _ => 0,
        }
    }

    // A value behind its lead, and the blanks behind it.
    fn put(self, t: Text, csv: &[u8], json: &[u8], value: Text, width: usize) -> Text
        ensures { told result
            ≡ take room (told t ++ put_text self csv.now json.now width (told value)) }
    {
        let a = self.lead(t, csv, json);
        let b = append(a, value);
        let n = self.gap(width, long(value));
        blanks(b, n)
    }

    // The end of a row.
    #[tactic(auto, unfolding(crate::specs::Rows::end_text, model::specs::Quoted::codes))]
    fn end(self, t: Text) -> Text
        ensures { told result ≡ take room (told t ++ end_text self) }
    {
        match self {
            Style::Json => t.with(b"}"),
            _ => t.with(b"\n"),
        }
    }
}

// A visit's row.
pub fn written(style: Style, clock: Option<u32>, row: Row) -> Text
    ensures { told result ≡ take room (row_text style clock row) }
{
    let v = row.visit;
    let o = Text::blank();
    let v1 = o.address(v.key);
    let v2 = o.kind(v.key);
    let v3 = o.said(b"", v.key / visit::DEVICES);
    let v4 = style.frame(o, v.frame);
    let v5 = style.moment(o, clock, v.frame, v.tick);
    let v6 = style.frame(o, row.frame);
    let v7 = style.moment(o, clock, row.frame, row.tick);
    let v8 = ended(o, row.how);
    let v9 = o.said(b"", v.packets);
    let v10 = style.mean(o, v.mean());
    let p1 = style.put(o, b"", b"{\"device\":\"", v1, 19);
    let p2 = style.put(p1, b",", b"\",\"type\":\"", v2, 8);
    let p3 = style.put(p2, b",", b"\",\"monitor\":", v3, 9);
    let p4 = style.put(p3, b",", b",\"start_frame\":", v4, 12);
    let p5 = style.put(p4, b",", b",\"start\":", v5, 15);
    let p6 = style.put(p5, b",", b",\"stop_frame\":", v6, 12);
    let p7 = style.put(p6, b",", b",\"stop\":", v7, 15);
    let p8 = style.put(p7, b",", b",\"ended\":\"", v8, 13);
    let p9 = style.put(p8, b",", b"\",\"packets\":", v9, 12);
    let p10 = style.put(p9, b",", b",\"mean_rssi\":", v10, 0);
    style.end(p10)
}

// Whether a character is a decimal digit.
fn is_digit(c: u8) -> bool
    ensures { result ≡ (leb 48 c && leb c nine) }
{
    (b'0' <= c) & (c <= b'9')
}

// The number of the two decimal digits at an index of a word, below a limit.
fn two_at(word: &[u8], at: usize, limit: u32) -> Option<u32>
    requires { at ≤ 6 }
    ensures value { result ≡ two_at word.now at limit }
    ensures below { IfSome result (λ n. n < limit) }
{
    let a = octets::get8(word, at);
    let b = octets::get8(word, at + 1);
    if is_digit(a) & is_digit(b) {
        let tens = a - 48;
        let ones = b - 48;
        let n = 10 * tens as u32 + ones as u32;
        if n < limit {
            return Some(n);
        }
    }
    None
}

// The clock that a word gives: hh:mm:ss, a time of day, in ticks.
pub fn clock_of(word: &[u8]) -> Option<u32>
    ensures { result ≡ clock_in word.now }
{
    let first = octets::get8(word, 2) == COLON;
    let second = octets::get8(word, 5) == COLON;
    let form = (word.len() == 8) & first & second;
    if !form {
        return None;
    }
    let h = two_at(word, 0, 24)?;
    let m = two_at(word, 3, 60)?;
    let s = two_at(word, 6, 60)?;
    Some((h * 3600 + m * 60 + s) * 10)
}
