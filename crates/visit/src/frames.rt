// What an executed frame says to the book of open visits, beside the events of its answer: the ticks up to it, how a
// visit ends at it, whose visits a cancel ends, what a packet adds; and the book that an image's pairs make.
ghost use Rattle.std.specs.Prelude.{◌≡◌, ◌+◌, ◌*◌, ◌<◌, ◌≤◌, true, length, drop, ◌==◌};
ghost use Rattle.model.specs.Image.{pair_in};
ghost use Rattle.model.specs.Layout.{most_pairs, pair_size, pairs_at, block_size};
ghost use Rattle.laws.specs.Rows.{row};
ghost use Rattle.octets.specs.Little.{little};
ghost use Rattle.visit.specs.Book.{devices, last_key};
ghost use Rattle.visit.specs.Frames.{kind_of, number_of, octet_of, is_tick, is_packet, ticks_with, tick_of, end_of, handle_of, least_key, most_key, cancelled_in, heard_of, key_of, begun_in};

use super::{Book, DEVICES, End, Range, Visit};
use state::State;

// The kinds of frames.
#[derive(Clone, Copy)]
enum Kind {
    Command,
    Packet,
    Tick,
    Scanned,
}

// Where a frame has its number and its payload, a command's its sub-opcode and a handle; the sub-opcode of a cancel;
// where an answer has its status.
const NUMBER_AT: usize = 1;

const PAYLOAD_AT: usize = NUMBER_AT + 4;

const SUB_AT: usize = PAYLOAD_AT + 3;

const HANDLE_AT: usize = SUB_AT + 1;

const CANCEL: u8 = 4;

const STATUS_AT: usize = 5;

// Where a packet's frame has its device; octets of the shortest one.
const DEVICE_AT: usize = PAYLOAD_AT + 1;

const SHORTEST: usize = PAYLOAD_AT + 10;

// Above every number of 2 octets, and of 4.
const TWO: u64 = 65536;

const FOUR: u64 = 4294967296;

impl Kind {
    // The octet that a frame of it begins with.
    fn octet(self) -> u8
        ensures { result ≡ octet_of self }
    {
        match self {
            Kind::Command => 1,
            Kind::Packet => 2,
            Kind::Tick => 3,
            Kind::Scanned => 4,
        }
    }
}

// Whether a frame is of a kind.
fn is_kind(frame: &[u8], kind: Kind) -> bool
    ensures { result ≡ (kind_of frame.now == octet_of kind) }
{
    octets::get8(frame, 0) == kind.octet()
}

// A frame's number.
pub fn number_of(frame: &[u8]) -> u32
    ensures { result ≡ number_of frame.now }
{
    octets::get32(frame, NUMBER_AT)
}

// The ticks up to a frame, it counted.
pub fn ticks_with(ticks: u32, frame: &[u8]) -> u32
    ensures { result ≡ ticks_with ticks frame.now }
{
    if is_kind(frame, Kind::Tick) {
        if ticks < State::LAST {
            return ticks + 1;
        }
    }
    ticks
}

// The tick of a frame by the ticks up to it: the first tick is tick 0.
pub fn tick_of(ticks: u32) -> u32
    ensures { result ≡ tick_of ticks }
{
    if ticks == 0 {
        return 0;
    }
    ticks - 1
}

// How a visit ended whose stop event is in the answer to a frame: at a tick by silence, at a packet by a full table.
pub fn end_of(frame: &[u8]) -> End
    ensures { result ≡ end_of frame.now }
{
    if is_kind(frame, Kind::Tick) {
        return End::Silence;
    }
    End::Full
}

// The visits of the monitor whose handle a command has, whatever the command.
pub fn keys_of(frame: &[u8]) -> Range
    ensures { (result.low ≡ least_key (handle_of frame.now)) × (result.high ≡ most_key (handle_of frame.now)) }
{
    let low = octets::get8(frame, HANDLE_AT) as u64 * DEVICES;
    Range {
        low,
        high: low + (DEVICES - 1),
    }
}

// The visits that a frame with its answer ends by a cancel: those of the monitor, whatever its handle.
pub fn cancelled(frame: &[u8], answer: &[u8]) -> Option<Range>
    ensures { result ≡ cancelled_in frame.now answer.now }
{
    let command = is_kind(frame, Kind::Command);
    let sub = octets::get8(frame, SUB_AT);
    let status = octets::get8(answer, STATUS_AT);
    if command & ((sub == CANCEL) & (status == 0)) {
        return Some(keys_of(frame));
    }
    None
}

// All visits: those that are open when a journal ends are still there.
pub fn everyone() -> Range
    ensures { (result.low ≡ 0) × (result.high ≡ last_key) }
{
    Range {
        low: 0,
        high: u64::MAX,
    }
}

// Whether a frame is a packet.
fn is_packet(frame: &[u8]) -> bool
    ensures { (result ≡ is_packet frame.now) × (result ≡ true → 15 ≤ length frame.now) }
{
    let plain = is_kind(frame, Kind::Packet);
    let scanned = is_kind(frame, Kind::Scanned);
    (SHORTEST <= frame.len()) & (plain | scanned)
}

// The number of a device, 7 octets at an index.
fn device_at(l: &[u8], at: usize) -> u64
    requires { at + 7 ≤ length l.now }
    ensures { (result ≡ little 7 l.now at) × (result < devices) }
{
    let low = octets::get32(l, at) as u64;
    let middle = octets::get16(l, at + 4) as u64;
    let high = octets::get8(l, at + 6) as u64;
    low + FOUR * (middle + TWO * high)
}

// A frame heard by a book: a packet by the open visits of its device.
pub fn hear(book: &mut Book, frame: &[u8])
    ensures { book.new.rows ≡ heard_of frame.now book.old.rows }
{
    if is_packet(frame) {
        let device = device_at(frame, DEVICE_AT);
        let level = state::level_of(octets::get8(frame, frame.len() - 1));
        book.hear(device, level);
    }
}

// The key of the pair in a place of a block.
fn key_at(block: &[u8], i: usize) -> u64
    requires { (block_size ≤ length block.now) × (i < most_pairs) }
    ensures { result ≡ key_of (pair_in (row pair_size i (drop pairs_at block.now))) }
{
    let at = State::PAIRS_AT + State::PAIR_ROW * i;
    let handle = octets::get8(block, at) as u64;
    device_at(block, at + State::KIND_AT) + handle * DEVICES
}

// The visits that the pairs of a block are, begun before the journal.
pub fn begun(block: &[u8]) -> Book
    ensures { result.rows ≡ begun_in block.now }
{
    let mut book = Book::new();
    if block.len() < State::SIZE {
        return book;
    }
    let n = octets::at_most(octets::get8(block, State::COUNT_AT), State::PAIRS);
    for i in 0..n {
        let key = key_at(block, i);
        book.rows[i] = Some(Visit::begun(key, 0, 0));
    }
    book
}
