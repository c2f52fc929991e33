// A line of a journal, of an image or of answers in words (man/show.1). What a line is is told by its first octet: 01
// to 04 a frame, 0E, 3E and FF an event, A0, A1, A3, A4, A5 and AF a line of an image. A number in decimal is a
// refusal.
#![tactic(auto)]

ghost use Rattle.std.specs.Prelude.{◌+◌, ◌-◌, ◌≤◌, ◌<◌, ◌≡◌, true, false, length, take, ◌&&◌};
ghost use Rattle.words.specs.Says.{Says};
ghost use Rattle.shown.specs.Line.{is_fine, is_kind, why_no_frame, is_event, form_of, why_not, line_text, no_line, octets_why, octets_text, why_no_text, text_words, is_digits, small_of, refusal_in, is_refusal, refused_text, words_of, is_line};
ghost use Rattle.lines.specs.Hex.{octets_in};

use fields::terms::Fault;
use words::ROOM;

mod commands;
mod framed;
mod image;

// A line in words: how many characters it has, and whether it is a line.
// Kept: the flag beside them, for what is no line has words too, and they are written in the same way.
#[derive(Clone, Copy)]
pub struct Shown {
    pub count: usize,
    pub good: bool,
}

// Octets of the shortest and characters of the longest line.
const LEAST_FRAME: usize = 5;

const LONGEST: usize = 527;

// The digit that no number begins with.
const ZERO: u8 = 48;

// Event codes.
const COMPLETE: u8 = 0x0E;

const REPORT: u8 = 0x3E;

const CHANGE: u8 = 0xFF;

// Whether octets that begin so are a frame.
fn is_frame_kind(kind: u8) -> bool
    ensures { result ≡ is_kind kind }
{
    (framed::COMMAND <= kind) & (kind <= framed::SCANNED)
}

// Why the octets of a frame are none.
fn why_no_frame(s: &[u8]) -> Option<Fault>
    ensures { result ≡ why_no_frame s.now }
{
    if s.len() < LEAST_FRAME {
        return Some(Fault::ShortFrame);
    }
    if framed::is_frame(s) {
        return None;
    }
    Some(Fault::NoFrame)
}

// Whether octets are an event.
fn is_event(s: &[u8]) -> bool
    ensures { result ≡ is_event s.now }
{
    let kind = octets::get8(s, 0);
    if kind == COMPLETE {
        return commands::is_complete(s);
    }
    if kind == CHANGE {
        return framed::is_change(s);
    }
    framed::is_report(s)
}

fn form(good: bool) -> Option<Fault>
    ensures { result ≡ form_of good }
{
    if good {
        return None;
    }
    Some(Fault::NoForm)
}

// Why octets are no line: by their first.
fn why_not(s: &[u8]) -> Option<Fault>
    ensures { result ≡ why_not s.now }
{
    let kind = octets::get8(s, 0);
    if is_frame_kind(kind) {
        return why_no_frame(s);
    }
    if image::begins(kind) {
        return form(s.len() == image::size(s));
    }
    if (kind == COMPLETE) | (kind == CHANGE) | (kind == REPORT) {
        return form(is_event(s));
    }
    Some(Fault::NoKind)
}

// The words of octets that are a line.
fn octets_in_words(out: &mut [u8; ROOM], s: &[u8]) -> usize
    ensures { Says out.old 0 (line_text s.now) out.new result }
{
    let kind = octets::get8(s, 0);
    if is_frame_kind(kind) {
        return framed::frame(out, s);
    }
    if image::begins(kind) {
        return image::line(out, s);
    }
    if kind == COMPLETE {
        return commands::complete(out, s);
    }
    if kind == CHANGE {
        return framed::change(out, s);
    }
    framed::report(out, s)
}

// What is said of a text that is no line.
fn no_line(out: &mut [u8; ROOM], why: Fault) -> Shown
    ensures { Says out.old 0 (no_line why) out.new result.count × (result.good ≡ false) }
{
    let a = words::put(out, 0, b"not a line: ");
    let b = fields::terms::why(out, a, why);
    Shown {
        count: b,
        good: false,
    }
}

// Why octets are no line: none where they are one.
fn octets_why(s: &[u8]) -> Option<Fault>
    ensures { result ≡ octets_why s.now }
{
    if s.len() == 0 {
        return Some(Fault::Empty);
    }
    why_not(s)
}

// The words of octets, or why they are no line.
fn of_octets(out: &mut [u8; ROOM], s: &[u8]) -> Shown
    ensures { Says out.old 0 (octets_text s.now) out.new result.count
        × (result.good ≡ is_fine (octets_why s.now)) }
{
    match octets_why(s) {
        Some(why) => no_line(out, why),
        None => Shown {
            count: octets_in_words(out, s),
            good: true,
        },
    }
}

// Why a text that is not hexadecimal with an LF is no line.
fn why_no_text(n: usize) -> Fault
    ensures { result ≡ why_no_text n }
{
    if n <= 1 {
        return Fault::Empty;
    }
    if LONGEST < n {
        return Fault::Long;
    }
    Fault::NoDigits
}

// The words of a text in hexadecimal.
fn of_text(out: &mut [u8; ROOM], text: &[u8]) -> Shown
    ensures { Says out.old 0 (text_words text.now) out.new result.count
        × (result.good ≡ (is_digits text.now && is_fine (octets_why (octets_in text.now)))) }
{
    let mut s = [0u8; lines::MOST_FRAME];
    let read = reader::take_text(text, &mut s);
    match read {
        Ok(k) => of_read(out, s, k),
        Err(_) => no_line(out, why_no_text(text.len())),
    }
}

// The words of the first k octets.
fn of_read(out: &mut [u8; ROOM], read: [u8; lines::MOST_FRAME], k: usize) -> Shown
    requires { k ≤ 263 }
    ensures { Says out.old 0 (octets_text (take k read)) out.new result.count
        × (result.good ≡ is_fine (octets_why (take k read))) }
{
    let s = read;
    of_octets(out, &s[..k])
}

// The number of a refusal that a text is in decimal, before its LF.
fn refusal_in(text: &[u8]) -> Option<u8>
    ensures { result ≡ refusal_in text.now }
{
    let n = text.len();
    if n < 2 {
        return None;
    }
    let read = decimals::read(&text[..n - 1]);
    match read {
        Some(x) => small(x),
        None => None,
    }
}

// A refusal's number as an octet.
fn small(x: u32) -> Option<u8>
    ensures { result ≡ small_of x }
{
    if 255 < x {
        return None;
    }
    let n = (x % 256) as u8;
    let known = names::find(&names::REFUSALS, n);
    if known.len() == 0 {
        return None;
    }
    Some(n)
}

// The words of a refusal's number.
fn of_refusal(out: &mut [u8; ROOM], x: u8) -> Shown
    ensures { Says out.old 0 (refused_text x) out.new result.count × (result.good ≡ true) }
{
    let a = words::said(out, 0, b"refused by ", x as u64);
    let b = words::put(out, a, b": ");
    let c = fields::terms::refusal(out, b, x);
    Shown {
        count: c,
        good: true,
    }
}

// Writes a line's words from the output's start on. The line has its LF, the words have none.
pub fn line(out: &mut [u8; ROOM], text: &[u8]) -> Shown
    ensures { Says out.old 0 (words_of text.now) out.new result.count
        × (result.good ≡ is_line text.now) }
{
    if octets::get8(text, 0) == ZERO {
        return of_text(out, text);
    }
    match refusal_in(text) {
        Some(x) => of_refusal(out, x),
        None => of_text(out, text),
    }
}
