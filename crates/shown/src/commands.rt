// Commands and their answers in words.
ghost use Rattle.std.specs.Prelude.{◌+◌, ◌-◌, ◌≤◌, ◌<◌, ◌≡◌, length};
ghost use Rattle.words.specs.Says.{Says};
ghost use Rattle.shown.specs.Commands.{raw_text, add_text, add2_text, cancel_text, enable_text, parameters_text, command_text, returned_text, complete_text, expected_of, is_complete};

use fields::{monitors, terms};
use words::ROOM;

// Sub-opcodes.
const FEATURES: u8 = 0x00;

const ADD: u8 = 0x03;

const CANCEL: u8 = 0x04;

const ENABLE: u8 = 0x05;

const ADD_2: u8 = 0x0F;

// The least parameters behind the sub-opcode: up to the condition type.
const ADD_SIZE: usize = 5;

const ADD_2_SIZE: usize = 30;

// Octets of the longest prefix.
const MOST_PREFIX: usize = 32;

// Parameters that are not of their command's form, where there are any.
fn raw(out: &mut [u8; ROOM], at: usize, s: &[u8]) -> usize
    ensures { Says out.old at (raw_text s.now) out.new result }
{
    if s.len() == 0 {
        return at;
    }
    words::hex(out, at, b", parameters ", s)
}

// Those of version 1.
fn add(out: &mut [u8; ROOM], at: usize, s: &[u8]) -> usize
    ensures { Says out.old at (add_text s.now) out.new result }
{
    if s.len() < ADD_SIZE {
        return raw(out, at, s);
    }
    let a = words::put(out, at, b",");
    let b = monitors::limits(out, a, s);
    monitors::condition(out, b, octets::get8(s, 4), words::behind(s, ADD_SIZE))
}

// Those of version 2.
fn add_2(out: &mut [u8; ROOM], at: usize, s: &[u8]) -> usize
    ensures { Says out.old at (add2_text s.now) out.new result }
{
    if s.len() < ADD_2_SIZE {
        return raw(out, at, s);
    }
    let a = words::put(out, at, b",");
    let b = monitors::limits(out, a, s);
    let c = monitors::peer(out, b, words::behind(s, 4));
    monitors::condition(out, c, octets::get8(s, 29), words::behind(s, ADD_2_SIZE))
}

// Those of a cancel.
fn cancel(out: &mut [u8; ROOM], at: usize, s: &[u8]) -> usize
    ensures { Says out.old at (cancel_text s.now) out.new result }
{
    if s.len() == 1 {
        return words::octet(out, at, b", handle ", s, 0);
    }
    raw(out, at, s)
}

// Those of an enable.
fn enable(out: &mut [u8; ROOM], at: usize, s: &[u8]) -> usize
    ensures { Says out.old at (enable_text s.now) out.new result }
{
    let x = octets::get8(s, 0);
    if (s.len() == 1) & (x <= 1) {
        let a = words::put(out, at, b", ");
        return terms::switch(out, a, x);
    }
    raw(out, at, s)
}

// The parameters behind a sub-opcode.
fn parameters(out: &mut [u8; ROOM], at: usize, sub: u8, s: &[u8]) -> usize
    ensures { Says out.old at (parameters_text sub s.now) out.new result }
{
    if sub == ADD {
        return add(out, at, s);
    }
    if sub == ADD_2 {
        return add_2(out, at, s);
    }
    if sub == CANCEL {
        return cancel(out, at, s);
    }
    if sub == ENABLE {
        return enable(out, at, s);
    }
    raw(out, at, s)
}

// A command: opcode, length, parameters.
pub(super) fn command(out: &mut [u8; ROOM], at: usize, s: &[u8]) -> usize
    ensures { Says out.old at (command_text s.now) out.new result }
{
    let sub = octets::get8(s, 3);
    let a = words::number(out, at, b": opcode 0x", words::part(s, 0, 2));
    let b = words::put(out, a, b", ");
    let c = terms::sub(out, b, sub);
    parameters(out, c, sub, words::behind(s, 4))
}

// What a Command Complete returns behind status and sub-opcode.
fn returned(out: &mut [u8; ROOM], at: usize, status: u8, sub: u8, s: &[u8]) -> usize
    ensures { Says out.old at (returned_text status sub s.now) out.new result }
{
    if status != 0 {
        return at;
    }
    if (sub == ADD) | (sub == ADD_2) {
        return words::octet(out, at, b", handle ", s, 0);
    }
    if sub == FEATURES {
        let a = words::number(out, at, b", features 0x", words::part(s, 0, 8));
        return terms::prefix(out, a, words::behind(s, 9));
    }
    at
}

// A Command Complete: opcode, status, sub-opcode, what is returned.
pub(super) fn complete(out: &mut [u8; ROOM], s: &[u8]) -> usize
    ensures { Says out.old 0 (complete_text s.now) out.new result }
{
    let status = octets::get8(s, 5);
    let sub = octets::get8(s, 6);
    let a = words::number(out, 0, b"command complete: opcode 0x", words::part(s, 3, 2));
    let b = words::put(out, a, b", ");
    let c = terms::sub(out, b, sub);
    let d = words::put(out, c, b", ");
    let e = terms::status(out, d, status);
    returned(out, e, status, sub, words::behind(s, 7))
}

// How many octets a Command Complete has behind status and sub-opcode, by them and by the length of the prefix.
fn expected(status: u8, sub: u8, prefix: usize) -> usize
    ensures { result ≡ expected_of status sub prefix }
{
    if (sub == ADD) | (sub == ADD_2) {
        return 1;
    }
    if (status != 0) | (sub != FEATURES) {
        return 0;
    }
    if MOST_PREFIX < prefix {
        return 0;
    }
    9 + prefix
}

// Whether an event is a Command Complete of an answer.
pub(super) fn is_complete(s: &[u8]) -> bool
    ensures { result ≡ is_complete s.now }
{
    let n = s.len();
    if n < 7 {
        return false;
    }
    let prefix = octets::wide(octets::get8(s, 15));
    let k = expected(octets::get8(s, 5), octets::get8(s, 6), prefix);
    let size = octets::wide(octets::get8(s, 1));
    let one = octets::get8(s, 2);
    (n - 7 == k) & (size == n - 2) & (one == 1)
}
