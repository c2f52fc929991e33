// The visits of devices, by the start and stop events of answers (document 01, Watching, by history): a book of the
// visits that are open, and what an event, a cancelled monitor, a packet and the journal's end do to it. A visit's
// key is a number of 8 octets as they stand in an event: address type, address, handle.
#![tactic(auto)]

pub mod frames;

ghost use Rattle.std.specs.Prelude.{◌≡◌, ℕ, ◌+◌, ◌*◌, ◌/◌, ◌%◌, ◌<◌, ◌≤◌, length, replicate, position};
ghost use Rattle.visit.specs.Book.{is_in, is_free, told_of, begun_at, started_in, rows_without, visit_out, heard_by, heard_row, heard_in, change_rows, change_visit, mean_of};
ghost use Rattle.visit.specs.Frames.{number_from};

use state::State;

// A visit: its key, the frame and the tick of its start (frame 0: before the journal), the packets of the device
// heard since, and the sum of their levels.
// Kept: 0 for no frame, for a frame of the journal that has number 0 is written as none too.
#[derive(Clone, Copy)]
pub struct Visit {
    pub key: u64,
    pub frame: u32,
    pub tick: u32,
    pub packets: u64,
    pub sum: u64,
}

// The open visits, each in a row.
#[derive(Clone, Copy)]
pub struct Book {
    pub rows: [Option<Visit>; State::PAIRS],
}

// What an event of an answer tells of a pair, by its key.
#[derive(Clone, Copy)]
pub enum News {
    Start(u64),
    Stop(u64),
    Other,
}

// The keys from one number to another.
#[derive(Clone, Copy)]
pub struct Range {
    pub low: u64,
    pub high: u64,
}

// How a visit ended: at a tick, at a packet that needed its place, with its monitor; or not at all.
#[derive(Clone, Copy, PartialEq, Eq)]
pub enum End {
    Silence,
    Full,
    Cancelled,
    There,
}

// The octet that opens an event of a pair, the octets of the shortest, and of what it has behind its prefix's end
// from the key on.
const EVENT: u8 = 0xFF;

const SHORTEST: usize = 12;

const KEY_BACK: usize = 9;

// Above every device's number of 7 octets: what a key has above it is the handle.
pub const DEVICES: u64 = 72057594037927936;

// What an event tells.
pub fn told(event: &[u8]) -> News
    ensures { result ≡ told_of event.now }
{
    let n = event.len();
    if n < SHORTEST {
        return News::Other;
    }
    if octets::get8(event, 0) != EVENT {
        return News::Other;
    }
    let key = octets::get64(event, n - KEY_BACK);
    if octets::get8(event, n - 1) == 0 {
        return News::Stop(key);
    }
    News::Start(key)
}

impl End {
    // Its number.
    pub fn number(self) -> u8
        ensures { result ≡ number_from self }
    {
        match self {
            End::Silence => 0,
            End::Full => 1,
            End::Cancelled => 2,
            End::There => 3,
        }
    }
}

impl Visit {
    // A visit begun.
    #[tactic(auto, unfolding(crate::specs::Book::begun_at))]
    pub fn begun(key: u64, frame: u32, tick: u32) -> Visit
        ensures { result ≡ begun_at key frame tick }
    {
        Visit {
            key,
            frame,
            tick,
            packets: 0,
            sum: 0,
        }
    }

    // What a packet of a device adds: its level, where it is a visit of that device.
    fn heard(self, device: u64, level: u8) -> Visit
        ensures { result ≡ heard_by device level self }
    {
        if self.key % DEVICES != device {
            return self;
        }
        Visit {
            packets: self.packets.wrapping_add(1),
            sum: self.sum.wrapping_add(level as u64),
            ..self
        }
    }

    // The mean of its levels, rounded down; none where no packet was heard.
    pub fn mean(&self) -> Option<u8>
        ensures { result ≡ mean_of self.now.packets self.now.sum }
    {
        if self.packets == 0 {
            return None;
        }
        Some((self.sum / self.packets % 256) as u8)
    }
}

// Whether a row is an open visit with a key of a range.
#[tactic(auto, unfolding(crate::specs::Book::is_in))]
fn is_in(row: &Option<Visit>, range: Range) -> bool
    ensures { result ≡ is_in range.low range.high row.now }
{
    match row {
        Some(v) => (range.low <= v.key) & (v.key <= range.high),
        None => false,
    }
}

// A row after a packet of a device with a level.
#[tactic(auto, unfolding(crate::specs::Book::heard_row))]
fn heard(row: Option<Visit>, device: u64, level: u8) -> Option<Visit>
    ensures { result ≡ heard_row device level row }
{
    match row {
        Some(v) => Some(v.heard(device, level)),
        None => None,
    }
}

impl Book {
    // A book without visits.
    pub fn new() -> Book
        ensures { result.rows ≡ replicate 64 None }
    {
        Book {
            rows: [None; State::PAIRS],
        }
    }

    // The place of the first open visit with a key of a range.
    fn place(&self, range: Range) -> Option<usize>
        ensures { result ≡ position (is_in range.low range.high) self.now.rows }
    {
        self.rows.iter().position(|row| is_in(row, range))
    }

    // The place of the first row that is no open visit.
    fn free(&self) -> Option<usize>
        ensures { result ≡ position is_free self.now.rows }
    {
        self.rows.iter().position(|row| row.is_none())
    }

    // A visit begun. A full book stays as it is.
    pub fn start(&mut self, key: u64, frame: u32, tick: u32)
        ensures { self.new.rows ≡ started_in self.old.rows key frame tick }
    {
        if let Some(i) = self.free() {
            self.rows[i] = Some(Visit::begun(key, frame, tick));
        }
    }

    // The first open visit with a key of a range, closed; none where there is none.
    pub fn close(&mut self, range: Range) -> Option<Visit>
        ensures rows { self.new.rows ≡ rows_without range.low range.high self.old.rows }
        ensures closed { result ≡ visit_out range.low range.high self.old.rows }
    {
        let i = self.place(range)?;
        self.rows[i].take()
    }

    // A packet of a device heard with a level.
    pub fn hear(&mut self, device: u64, level: u8)
        ensures { self.new.rows ≡ heard_in device level self.old.rows }
    {
        for row in self.rows.iter_mut() {
            *row = heard(*row, device, level);
        }
    }

    // An event of an answer to a frame at a tick; the visit that it closed.
    #[tactic(auto, unfolding(crate::specs::Book::change_rows, crate::specs::Book::change_visit))]
    pub fn follow(&mut self, event: &[u8], frame: u32, tick: u32) -> Option<Visit>
        ensures rows { self.new.rows ≡ change_rows (told_of event.now) self.old.rows frame tick }
        ensures closed { result ≡ change_visit (told_of event.now) self.old.rows }
    {
        match told(event) {
            News::Start(key) => {
                self.start(key, frame, tick);
                None
            }
            News::Stop(key) => self.close(Range {
                low: key,
                high: key,
            }),
            News::Other => None,
        }
    }
}
