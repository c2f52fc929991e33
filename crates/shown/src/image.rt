// The lines of an image in words.
ghost use Rattle.std.specs.Prelude.{◌+◌, ◌-◌, ◌≤◌, ◌<◌, ◌≡◌};
ghost use Rattle.octets.specs.Numbers.{number_at};
ghost use Rattle.words.specs.Says.{Says};
ghost use Rattle.shown.specs.Image.{head_text, edition_text, added_text, monitor_text, counts_text, pair_text, end_text, image_text, image_size, begins as begins_of};

use fields::{data, monitors, terms};
use words::ROOM;

// What the lines begin with.
const HEAD: u8 = 0xA0;

const MONITOR: u8 = 0xA1;

const PAIR: u8 = 0xA3;

const EDITION: u8 = 0xA4;

const MONITOR_2: u8 = 0xA5;

const END: u8 = 0xAF;

// Octets before a line's part of a length of its own.
const HEAD_SIZE: usize = 9;

const EDITION_SIZE: usize = 6;

const MONITOR_SIZE: usize = 8;

const PAIR_SIZE: usize = 27;

// Octets of version 2 behind a monitor's condition, and those of its line without the condition.
const PEER_SIZE: usize = 25;

const MONITOR_2_SIZE: usize = 33;

const END_SIZE: usize = 3;

// The head: position, filter, opcode, prefix.
fn head(out: &mut [u8; ROOM], s: &[u8]) -> usize
    ensures { Says out.old 0 (head_text s.now) out.new result }
{
    let a = words::long(out, 0, b"image: position ", s, 1);
    let b = words::put(out, a, b", filter ");
    let c = terms::switch(out, b, octets::get8(s, 5));
    let d = words::number(out, c, b", opcode 0x", words::part(s, 6, 2));
    terms::prefix(out, d, words::behind(s, HEAD_SIZE))
}

// An edition of the prefix.
fn edition(out: &mut [u8; ROOM], s: &[u8]) -> usize
    ensures { Says out.old 0 (edition_text s.now) out.new result }
{
    let a = words::long(out, 0, b"edition from frame ", s, 1);
    terms::prefix(out, a, words::behind(s, EDITION_SIZE))
}

// What version 2 adds behind the condition.
fn added(out: &mut [u8; ROOM], at: usize, s: &[u8]) -> usize
    ensures { Says out.old at (added_text s.now) out.new result }
{
    let n = octets::wide(octets::get8(s, 7));
    if octets::get8(s, 0) == MONITOR_2 {
        return monitors::peer(out, at, words::part(s, MONITOR_SIZE + n, PEER_SIZE));
    }
    at
}

// A monitor of either version.
fn monitor(out: &mut [u8; ROOM], s: &[u8]) -> usize
    ensures { Says out.old 0 (monitor_text s.now) out.new result }
{
    let n = octets::wide(octets::get8(s, 7));
    let a = words::octet(out, 0, b"monitor ", s, 1);
    let b = words::put(out, a, b":");
    let c = monitors::limits(out, b, words::behind(s, 2));
    let d = monitors::condition(out, c, octets::get8(s, 6), words::part(s, MONITOR_SIZE, n));
    added(out, d, s)
}

// What a pair counts.
fn counts(out: &mut [u8; ROOM], at: usize, s: &[u8]) -> usize
    ensures { Says out.old at (counts_text s.now) out.new result }
{
    let a = words::said(out, at, b", ticks since good ", octets::get16(s, 9) as u64);
    let b = words::octet(out, a, b", window ticks ", s, 11);
    let c = words::long(out, b, b", packets ", s, 12);
    words::sum(out, c, b", RSSI sum ", octets::get64(s, 16))
}

// A pair under watch.
fn pair(out: &mut [u8; ROOM], s: &[u8]) -> usize
    ensures { Says out.old 0 (pair_text s.now) out.new result }
{
    let a = words::octet(out, 0, b"pair: monitor ", s, 1);
    let b = words::device(out, a, b", ", words::device_of(words::behind(s, 2)));
    let c = counts(out, b, s);
    let d = words::level(out, c, b", last RSSI ", s, 24);
    let e = words::put(out, d, b", ");
    let f = terms::event_type(out, e, octets::get8(s, 25));
    data::structures(out, f, words::behind(s, PAIR_SIZE))
}

// The end: how many monitors and pairs.
fn end(out: &mut [u8; ROOM], s: &[u8]) -> usize
    ensures { Says out.old 0 (end_text s.now) out.new result }
{
    let a = words::octet(out, 0, b"end: monitors ", s, 1);
    words::octet(out, a, b", pairs ", s, 2)
}

// A line of an image.
pub(super) fn line(out: &mut [u8; ROOM], s: &[u8]) -> usize
    ensures { Says out.old 0 (image_text s.now) out.new result }
{
    let kind = octets::get8(s, 0);
    if kind == HEAD {
        return head(out, s);
    }
    if kind == EDITION {
        return edition(out, s);
    }
    if kind == PAIR {
        return pair(out, s);
    }
    if kind == END {
        return end(out, s);
    }
    monitor(out, s)
}

// The number of an octet.
fn count(s: &[u8], i: usize) -> usize
    ensures { (result ≡ number_at 1 s.now i) × (result < 256) }
{
    octets::wide(octets::get8(s, i))
}

// How many octets a line of an image has, by its octet that says a length.
pub(super) fn size(s: &[u8]) -> usize
    ensures { result ≡ image_size s.now }
{
    let kind = octets::get8(s, 0);
    if kind == HEAD {
        return HEAD_SIZE + count(s, 8);
    }
    if kind == EDITION {
        return EDITION_SIZE + count(s, 5);
    }
    if kind == MONITOR {
        return MONITOR_SIZE + count(s, 7);
    }
    if kind == MONITOR_2 {
        return MONITOR_2_SIZE + count(s, 7);
    }
    if kind == PAIR {
        return PAIR_SIZE + count(s, 26);
    }
    END_SIZE
}

// Whether a line that begins so is one of an image.
pub(super) fn begins(kind: u8) -> bool
    ensures { result ≡ begins_of kind }
{
    (kind == HEAD)
        | (kind == MONITOR)
        | (kind == PAIR)
        | (kind == EDITION)
        | (kind == MONITOR_2)
        | (kind == END)
}
