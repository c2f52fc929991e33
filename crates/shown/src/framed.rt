// Frames and events in words.
ghost use Rattle.std.specs.Prelude.{◌+◌, ◌-◌, ◌≤◌, ◌<◌, ◌≡◌, length};
ghost use Rattle.words.specs.Says.{Says};
ghost use Rattle.shown.specs.Frames.{heard_text, packet_text, scanned_text, frame_text, is_frame as is_frame_of, change_text, is_change as is_change_of, report_text, is_report as is_report_of};

use crate::commands;
use fields::{data, terms};
use words::ROOM;

// The kinds of frames.
pub(super) const COMMAND: u8 = 1;

const PACKET: u8 = 2;

pub(super) const SCANNED: u8 = 4;

// What a frame has before its payload.
const PAYLOAD_AT: usize = 5;

// A packet's octets before its data.
const DATA_AT: usize = 9;

// The least and the most octets of a start or stop event, and those of it behind the prefix.
const LEAST_CHANGE: usize = 12;

const MOST_CHANGE: usize = 44;

const DEVICE_EVENT: usize = 10;

// The least octets of a report.
const LEAST_REPORT: usize = 14;

// The index of the last octet.
fn last(s: &[u8]) -> usize
    ensures { result ≡ length s.now - 1 }
{
    let n = s.len();
    if n == 0 {
        return 0;
    }
    n - 1
}

// Event type, address and level of a packet.
fn heard(out: &mut [u8; ROOM], at: usize, s: &[u8]) -> usize
    ensures { Says out.old at (heard_text s.now) out.new result }
{
    let a = words::put(out, at, b": ");
    let b = terms::event_type(out, a, octets::get8(s, 0));
    let c = words::device(out, b, b", ", words::device_of(words::behind(s, 1)));
    words::level(out, c, b", RSSI ", s, last(s))
}

// A packet: event type, address type, address, n, data, RSSI.
fn packet(out: &mut [u8; ROOM], at: usize, s: &[u8]) -> usize
    ensures { Says out.old at (packet_text s.now) out.new result }
{
    let n = octets::wide(octets::get8(s, 8));
    let a = heard(out, at, s);
    data::structures(out, a, words::part(s, DATA_AT, n))
}

// A packet with its scan response.
fn scanned(out: &mut [u8; ROOM], at: usize, s: &[u8]) -> usize
    ensures { Says out.old at (scanned_text s.now) out.new result }
{
    let n = octets::wide(octets::get8(s, 8));
    let k = octets::wide(octets::get8(s, DATA_AT + n));
    let a = packet(out, at, s);
    let b = words::put(out, a, b"; scan response");
    data::structures(out, b, words::part(s, DATA_AT + n + 1, k))
}

// A frame.
pub(super) fn frame(out: &mut [u8; ROOM], s: &[u8]) -> usize
    ensures { Says out.old 0 (frame_text s.now) out.new result }
{
    let kind = octets::get8(s, 0);
    let payload = words::behind(s, PAYLOAD_AT);
    if kind == COMMAND {
        let a = words::long(out, 0, b"command ", s, 1);
        return commands::command(out, a, payload);
    }
    if kind == PACKET {
        let a = words::long(out, 0, b"packet ", s, 1);
        return packet(out, a, payload);
    }
    if kind == SCANNED {
        let a = words::long(out, 0, b"packet ", s, 1);
        return scanned(out, a, payload);
    }
    words::long(out, 0, b"tick ", s, 1)
}

// Whether a frame's payload has its kind's form.
pub(super) fn is_frame(s: &[u8]) -> bool
    ensures { result ≡ is_frame_of s.now }
{
    let kind = octets::get8(s, 0);
    let payload = words::behind(s, PAYLOAD_AT);
    if kind == COMMAND {
        return frames::command_form(payload);
    }
    if kind == PACKET {
        return frames::packet_form(payload);
    }
    if kind == SCANNED {
        return frames::scanned_form(payload);
    }
    payload.len() == 0
}

// A start or a stop: prefix, 2, address type, address, handle, which.
pub(super) fn change(out: &mut [u8; ROOM], s: &[u8]) -> usize
    ensures { Says out.old 0 (change_text s.now) out.new result }
{
    let n = s.len();
    if n < LEAST_CHANGE {
        return 0;
    }
    let a = terms::change(out, 0, octets::get8(s, n - 1));
    let b = words::device(out, a, b" ", words::device_of(words::behind(s, n - 9)));
    let c = words::octet(out, b, b", monitor ", s, n - 2);
    terms::prefix(out, c, words::part(s, 2, n - LEAST_CHANGE))
}

// Whether an event is a start or a stop.
pub(super) fn is_change(s: &[u8]) -> bool
    ensures { result ≡ is_change_of s.now }
{
    let n = s.len();
    if n < LEAST_CHANGE {
        return false;
    }
    if MOST_CHANGE < n {
        return false;
    }
    let size = octets::wide(octets::get8(s, 1));
    let code = octets::get8(s, n - DEVICE_EVENT);
    let kind = octets::get8(s, n - 9);
    let which = octets::get8(s, n - 1);
    (size == n - 2) & (code == 2) & ((kind <= 1) & (which <= 1))
}

// An advertising report.
pub(super) fn report(out: &mut [u8; ROOM], s: &[u8]) -> usize
    ensures { Says out.old 0 (report_text s.now) out.new result }
{
    let a = words::put(out, 0, b"report");
    packet(out, a, words::behind(s, 4))
}

// Whether an event is one.
pub(super) fn is_report(s: &[u8]) -> bool
    ensures { result ≡ is_report_of s.now }
{
    let n = s.len();
    if n < LEAST_REPORT {
        return false;
    }
    let size = octets::wide(octets::get8(s, 1));
    let k = octets::wide(octets::get8(s, 12));
    let code = octets::get8(s, 2);
    let one = octets::get8(s, 3);
    let event = octets::get8(s, 4);
    let kind = octets::get8(s, 5);
    let ranged = state::in_range(octets::get8(s, n - 1));
    let sized = (size == n - 2) & (n - LEAST_REPORT == k);
    sized & ((code == 2) & (one == 1)) & ((event <= 4) & (kind <= 1) & (k <= 31)) & ranged
}
