// What the program says on standard error (man/standby.1).
ghost use Rattle.std.specs.Prelude.{◌≡◌, ◌++◌, ◌&&◌, not, ◌-◌, ◌≤◌, length, take, eqb};
ghost use Rattle.texts.specs.Text.{room, told};
ghost use Rattle.reports.specs.Texts.{next as next_of, reason_of, reason_text, gap_text, stop_text, found_in, is_ended, size_text, piece_text, warns as warns_of, counts_text};

use state::State;
use takeover::{Flow, Next};
use texts::Text;

// The numbers of refusals that words say.
const GAP: u8 = 2;

// The octets of a line before its frame's number, and those of the number, in characters and in octets.
const KIND: usize = 2;

const NUMBER: usize = 4;

// A count and one more.
fn next(n: u64) -> u64
    ensures { result ≡ next_of n }
{
    if n < u64::MAX {
        return n + 1;
    }
    n
}

// A refusal's number in words, behind a text.
fn reasoned(t: Text, number: u8) -> Text
    ensures { told result ≡ take room (told t ++ reason_of number) }
{
    let name = names::find(&names::REFUSALS, number);
    if name.len() == 0 {
        return t.with(b"");
    }
    let open = t.with(b" (");
    let named = open.with(name);
    named.with(b")")
}

// A refusal behind a text.
pub(super) fn refused(t: Text, number: u8) -> Text
    ensures { told result ≡ take room (told t ++ reason_text number) }
{
    reasoned(t.said(b": refused by ", number as u64), number)
}

// The numbers of a gap behind a text.
fn gapped(t: Text, number: u8, position: u32, found: u32) -> Text
    ensures { told result ≡ take room (told t ++ gap_text number position found) }
{
    if number == GAP {
        let due = t.said(b": frame ", next(position as u64));
        let came = due.said(b" expected, ", found as u64);
        return came.with(b" found");
    }
    t.with(b"")
}

// The frame's number in the line at a text's start.
pub(super) fn found_in(text: &[u8]) -> u32
    ensures { result ≡ found_in text.now }
{
    let mut octets = [0u8; NUMBER];
    let k = reader::read_pairs(text, KIND, &mut octets);
    octets::get32(&octets[..k], 0)
}

// A line that was refused, by the lines before it.
pub(super) fn stopped(lines: u64, number: u8, position: u32, found: u32) -> Text
    ensures { told result ≡ take room (stop_text lines number position found) }
{
    let line = Text::blank().said(b":", next(lines));
    let gap = gapped(refused(line, number), number, position, found);
    gap.with(b"\n")
}

// Whether a takeover came to the journal's end.
fn ended(next: Next) -> bool
    ensures { result ≡ is_ended next }
{
    match next {
        Next::Read => false,
        Next::Again => false,
        Next::Ended => true,
        Next::Stopped(_) => false,
    }
}

// How long a last piece is, behind a text.
fn sized(t: Text, n: usize) -> Text
    ensures { told result ≡ take room (told t ++ size_text n) }
{
    if n < takeover::LONG {
        return t.said(b"", n as u64);
    }
    t.said(b"more than ", State::LINE as u64)
}

// Whether there is a last piece that was not read.
fn has_piece(next: Next, size: usize) -> bool
    ensures { result ≡ (is_ended next && not (eqb size 0)) }
{
    if ended(next) {
        return size != 0;
    }
    false
}

// A last piece that was not read, behind a text.
pub(super) fn pieced(t: Text, next: Next, size: usize) -> Text
    ensures { told result ≡ take room (told t ++ piece_text next size) }
{
    if has_piece(next, size) {
        let piece = sized(t.with(b"; a last piece of "), size);
        return piece.with(b" octets without LF not read");
    }
    t.with(b"")
}

// Lines that were read and not executed.
fn seen_of(lines: u64, executed: u64) -> u64
    ensures { result ≡ lines - executed }
{
    if lines < executed {
        return 0;
    }
    lines - executed
}

// What was read and done.
pub(super) fn counted(lines: u64, executed: u64, position: u32) -> Text
    ensures { told result ≡ take room (counts_text lines executed position) }
{
    let read = Text::blank().said(b"standby: ", lines);
    let ran = read.said(b" lines read, ", executed);
    let seen = ran.said(b" executed, ", seen_of(lines, executed));
    seen.said(b" seen before; position ", position as u64)
}

// Whether lines were read to the journal's end and none was executed.
pub(super) fn warns(flow: Flow) -> bool
    ensures { result ≡ warns_of flow }
{
    let next = flow.next;
    if flow.executed != 0 {
        return false;
    }
    if flow.lines == 0 {
        return false;
    }
    ended(next)
}
