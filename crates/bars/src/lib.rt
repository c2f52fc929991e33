// The service record as a picture (man/visits.1): the rows that are kept for it, the search among them, and where a
// visit's bar and the axis' marks stand, from their ticks.
#![tactic(auto)]

ghost use Rattle.std.specs.Prelude.{◌+◌, ◌-◌, ◌*◌, ◌/◌, ◌%◌, ◌≤◌, ◌<◌, ◌≡◌, ◌&&◌, leb, position, replicate};
ghost use Rattle.bars.specs.Axis.{across_of, wide_of, fit_of, step_of, first_of};
ghost use Rattle.bars.specs.Kept.{kept_in, is_of, holds};

use stays::Row;
use texts::Text;

// As many visits as a picture has, at most.
pub const MOST: usize = 4096;

// Where the axis begins, how wide it is, and how wide a bar is at least.
pub const LEFT: u64 = 190;

pub const WIDTH: u64 = 1000;

const LEAST: u64 = 2;

// Marks on the axis, at most; ticks of a day.
const MARKS: u64 = 12;

const DAY: u64 = 864000;

// A visit's bar: where it begins, and how wide it is.
#[derive(Clone, Copy)]
pub struct Drawn {
    pub x: u64,
    pub width: u64,
}

// How far along the axis a tick of a span stands.
pub fn across(tick: u32, span: u32) -> u64
    ensures { (result ≡ across_of tick span) × (result ≤ 1000) }
{
    if span <= tick {
        return WIDTH;
    }
    tick as u64 * WIDTH / span as u64
}

// How wide a bar from one place to another is: seen in any case.
#[tactic(auto, unfolding(crate::specs::Axis::wide_of))]
fn wide(from: u64, to: u64) -> u64
    ensures { result ≡ wide_of from to }
{
    to.saturating_sub(from).max(LEAST)
}

// A row's bar on the axis of a span.
pub fn bar(row: Row, span: u32) -> Drawn
    ensures { (result.x ≡ 190 + across_of row.visit.tick span)
        × (result.width ≡ wide_of (across_of row.visit.tick span) (across_of row.tick span)) }
{
    let v = row.visit;
    let from = across(v.tick, span);
    let to = across(row.tick, span);
    Drawn {
        x: LEFT + from,
        width: wide(from, to),
    }
}

// The first of three steps that has few marks in a span; a fourth where none has.
fn fit(span: u32, a: u64, b: u64, c: u64, other: u64) -> u64
    ensures { result ≡ fit_of span a b c other }
{
    let least = span as u64 / MARKS;
    if least <= a {
        return a;
    }
    if least <= b {
        return b;
    }
    if least <= c {
        return c;
    }
    other
}

// The ticks between two marks of a span: seconds, minutes, hours or days.
pub fn step(span: u32) -> u64
    ensures { result ≡ step_of span }
{
    let days = (span as u64 / MARKS / DAY + 1) * DAY;
    let hours = fit(span, 72000, 216000, 432000, days);
    let hour = fit(span, 6000, 18000, 36000, hours);
    let minutes = fit(span, 300, 600, 3000, hour);
    fit(span, 10, 50, 100, minutes)
}

// The first mark's tick, where the first tick's time of day is so many ticks.
pub fn first(from: u32, step: u64) -> u64
    ensures { result ≡ first_of from step }
{
    if step == 0 {
        return 0;
    }
    (step - from as u64 % step) % step
}

// A text without its last characters.
pub fn shorter(t: Text, n: usize) -> Text
    ensures { (result.octets ≡ t.octets) × (result.count ≡ t.count - n) }
{
    Text {
        count: t.count.saturating_sub(n),
        ..t
    }
}

// The rows that are kept, each in its place.
#[derive(Drop)]
pub struct Kept {
    pub rows: [Option<Row>; MOST],
}

impl Kept {
    // No row.
    pub fn new() -> Kept
        ensures { result.rows ≡ replicate 4096 None }
    {
        Kept { rows: [None; MOST] }
    }

    // A row kept in its place, where there is one.
    pub fn keep(&mut self, i: u64, row: Row)
        ensures { self.new.rows ≡ kept_in self.old.rows i row }
    {
        if i < MOST as u64 {
            self.rows[i as usize] = Some(row);
        }
    }
}

// Whether a row is one of a device and a handle, or of a device and any.
#[tactic(auto, unfolding(crate::specs::Kept::is_of))]
pub fn is_of(row: &Row, device: u64, handle: Option<u64>) -> bool
    ensures { result ≡ is_of device handle row.now.visit.key }
{
    let key = row.visit.key;
    let own = key % visit::DEVICES == device;
    match handle {
        Some(h) => own & (key / visit::DEVICES == h),
        None => own,
    }
}

// Whether a place has one.
#[tactic(auto, unfolding(crate::specs::Kept::holds))]
fn holds(place: &Option<Row>, device: u64, handle: Option<u64>) -> bool
    ensures { result ≡ holds device handle place.now }
{
    match place {
        Some(row) => is_of(row, device, handle),
        None => false,
    }
}

// The first place of a row of a device and a handle.
pub fn next(rows: &[Option<Row>], device: u64, handle: Option<u64>) -> Option<usize>
    ensures { result ≡ position (holds device handle) rows.now }
{
    rows.iter().position(|place| holds(place, device, handle))
}
