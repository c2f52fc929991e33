// The index by device behind the core of a block (document 02, T-02): worked out from the pairs, asked, compared. And
// the whole block of a state, with the editions of the prefix (T-12) behind the index: its size, and how one is
// begun. The core is laid out as `State` says.
#![tactic(auto)]

mod table;
mod walk;

ghost use Rattle.std.specs.Prelude.{◌≤◌, ◌<◌, ◌≡◌, length, replicate};
ghost use Rattle.octets.specs.Little.{value};
ghost use Rattle.state.specs.Start.{settings_of};
ghost use Rattle.model.specs.Types.{device};
ghost use Rattle.model.specs.Block.{model_of};
ghost use Rattle.model.specs.Layout.{address_size, most_pairs};
ghost use Rattle.wholes.specs.Layout.{entries_size, whole_size};
ghost use Rattle.wholes.specs.Index.{mask_for, handles_of};
ghost use Rattle.wholes.specs.Whole.{whole};
ghost use Rattle.wholes.specs.Engine.{begin, blank_on};
ghost use Rattle.index.specs.Begun.{first_in, begun_block, blank_in};
ghost use Rattle.index.specs.Asked.{watch_of};
ghost use Rattle.index.specs.InPlace.{table_in, Stands};
ghost use Rattle.index.specs.Renewed.{indexed_once, is_moved, followed, renewed};

use refusals::Refusal;
use state::State;

// The octet that opens an event of a pair.
const EVENT: u8 = 0xFF;

// The whole block of a state: the core; behind it the index, a row for each device in the order of its first held
// pair, and the number of entries; behind that the editions of the prefix in rising order and their number. What is
// not in use is 0.
#[derive(Clone, Copy)]
pub struct Whole {
    pub block: [u8; Whole::SIZE],
}

// What starting gives: the whole block, and whether the settings were refused.
// Kept: by document 01 refused settings hand back the blank state, so it stands beside the answer.
#[derive(Clone, Copy)]
pub struct Opened {
    pub answer: Result<(), Refusal>,
    pub state: Whole,
}

// The monitors that watch a device: how many there are, and the lowest of their handles.
#[derive(Clone, Copy)]
pub struct Watchers {
    pub count: u32,
    pub lowest: u32,
}

impl Whole {
    // An entry's row: address type, address, mask (2).
    pub const DEVICE: usize = 7;

    pub const MASK_AT: usize = Whole::DEVICE;

    pub const ENTRY: usize = Whole::MASK_AT + 2;
    // The index: the entries' rows, their number.
    pub const ENTRIES: usize = Whole::ENTRY * State::PAIRS;

    pub const INDEX: usize = Whole::ENTRIES + 1;
    // Editions of the prefix, at most. An edition's row: number (4), prefix length, prefix.
    pub const EDITIONS: usize = 32;

    pub const EDITION: usize = 5 + State::PREFIX;
    // The whole block: the core, the index, the editions' rows, their number.
    pub const INDEX_AT: usize = State::SIZE;

    pub const COUNT_AT: usize = Whole::INDEX_AT + Whole::ENTRIES;

    pub const EDITIONS_AT: usize = Whole::INDEX_AT + Whole::INDEX;

    pub const EDITION_COUNT_AT: usize = Whole::EDITIONS_AT + Whole::EDITION * Whole::EDITIONS;

    pub const SIZE: usize = Whole::EDITION_COUNT_AT + 1;
    // The prefix of the first edition, with its length.
    pub const FIRST_AT: usize = Whole::EDITIONS_AT + 4;
    // An edition's line in an image, and the longest image.
    pub const EDITION_LINE: usize = 2 * (1 + Whole::EDITION) + 1;

    pub const IMAGE: usize = State::IMAGE + Whole::EDITION_LINE * Whole::EDITIONS;

    // The fresh state with these settings; the blank one and refusal 9 where they are out of range.
    pub fn fresh(opcode: u16, prefix: &[u8]) -> Opened
        ensures { (result.answer ≡ settings_of opcode prefix.now)
            × (result.state.block ≡ begin opcode prefix.now) }
    {
        let mut block = [0u8; Whole::SIZE];
        let answer = put_fresh(&mut block, opcode, prefix);
        Opened {
            answer: answer,
            state: Whole { block },
        }
    }

    // The blank state: fresh, opcode 0xFC00, empty prefix.
    pub fn blank() -> Whole
        ensures { result.block ≡ whole blank_on }
    {
        let mut block = [0u8; Whole::SIZE];
        put_blank(&mut block);
        Whole { block }
    }
}

// The prefix of a block's head as the edition from 0 on, and one edition.
fn put_first(s: &mut [u8])
    requires { length s.old ≡ whole_size }
    ensures { s.new ≡ first_in s.old }
{
    let mut first = [0u8; State::HEAD - State::PREFIX_LENGTH_AT];
    parts::copy(&mut first, 0, &s[State::PREFIX_LENGTH_AT..State::HEAD]);
    parts::copy(s, Whole::FIRST_AT, &first);
    s[Whole::EDITION_COUNT_AT] = 1;
}

// The fresh state with these settings, in a lent whole block; the blank one and refusal 9 where they are out of
// range. A block of another length is left as it is.
pub fn put_fresh(s: &mut [u8], opcode: u16, prefix: &[u8]) -> Result<(), Refusal>
    ensures { (result ≡ settings_of opcode prefix.now)
        × (s.new ≡ begun_block s.old opcode prefix.now) }
{
    if s.len() != Whole::SIZE {
        let mut none = [0u8; 0];
        return state::put_fresh(&mut none, opcode, prefix);
    }
    parts::fill(s, 0, Whole::SIZE, 0);
    let answer = state::put_fresh(&mut s[..State::SIZE], opcode, prefix);
    put_first(s);
    answer
}

// The blank state, fresh with opcode 0xFC00 and an empty prefix, in a lent whole block; another is left as it is.
pub fn put_blank(s: &mut [u8])
    ensures { s.new ≡ blank_in s.old }
{
    if s.len() != Whole::SIZE {
        return;
    }
    parts::fill(s, 0, Whole::SIZE, 0);
    state::put_blank(&mut s[..State::SIZE]);
    put_first(s);
}

// What a mask says: how many handles it has and the lowest, or that there is none.
fn told(mask: u16) -> Option<Watchers>
    ensures { result ≡ watch_of (handles_of mask) }
{
    if mask == 0 {
        return None;
    }
    Some(Watchers {
        count: mask.count_ones(),
        lowest: mask.trailing_zeros(),
    })
}

// A device as a number of 7 octets.
fn device_number(kind: u8, address: &[u8]) -> u64
    requires { length address.now ≡ address_size }
    ensures { result ≡ value (device kind address.now) }
{
    let low = octets::get32(address, 0) as u64;
    let high = octets::get16(address, 4) as u64;
    kind as u64 + 256 * (low + 4294967296 * high)
}

// What the index of a block says of a device.
fn mask_for(s: &[u8], kind: u8, address: &[u8]) -> u16
    requires { (length s.now ≡ whole_size) × (length address.now ≡ address_size) }
    ensures { result ≡ mask_for (device kind address.now) s.now }
{
    let n = octets::at_most(s[Whole::COUNT_AT], State::PAIRS);
    let dev = device_number(kind, address);
    table::mask_of(&s[Whole::INDEX_AT..Whole::COUNT_AT], n, dev)
}

// Which monitors watch a device (address type and address)? It reads the index alone: the first of at most 64 entries
// for that device answers, whatever the block's octets are.
pub fn ask(s: &[u8; Whole::SIZE], kind: u8, address: &[u8; 6]) -> Option<Watchers>
    ensures { result ≡ watch_of (handles_of (mask_for (device kind address.now) s.now)) }
{
    told(mask_for(s, kind, address))
}

// Whether a block has its size, the index of the pairs that it holds, and holds each of them once, of a handle that
// there is.
pub fn is_indexed(s: &[u8]) -> bool
    ensures { result ≡ indexed_once s.now }
{
    if s.len() != Whole::SIZE {
        return false;
    }
    let n = octets::at_most(s[State::COUNT_AT], State::PAIRS);
    walk::is_table(
        &s[Whole::INDEX_AT..Whole::COUNT_AT],
        s[Whole::COUNT_AT],
        &s[State::PAIRS_AT..State::COUNT_AT],
        n,
    )
}

// The first n pairs of a block noted one by one in its own index, which holds zeros. Answers how many entries there
// are.
fn note_all(s: &mut [u8], n: usize) -> usize
    requires { (length s.old ≡ whole_size) × (n ≤ most_pairs) × (table_in s.old ≡ replicate entries_size 0) }
    ensures { (result ≤ n) × Stands n result s.old s.new }
{
    let mut seen = [0u64; table::MARKS];
    let mut k = 0;
    for i in 0..n {
        let key = table::key_at(&s[State::PAIRS_AT..State::COUNT_AT], i);
        let h = (key % 256) as u8;
        k = table::note_marked(
            &mut s[Whole::INDEX_AT..Whole::COUNT_AT],
            &mut seen,
            k,
            key / 256,
            h,
        );
    }
    k
}

// The index of a block worked out afresh, in its place; a block of another size is left as it is.
pub fn renew(s: &mut [u8])
    ensures { s.new ≡ renewed s.old }
{
    if s.len() != Whole::SIZE {
        return;
    }
    let n = octets::at_most(s[State::COUNT_AT], State::PAIRS);
    parts::fill(s, Whole::INDEX_AT, Whole::INDEX, 0);
    let k = note_all(s, n);
    s[Whole::COUNT_AT] = k as u8;
}

// Whether a frame that wrote n octets at an output's start, with so many pairs held before it, started or ended a
// pair: another number is held now, or the answer opens with an event of a pair.
fn is_moved(s: &[u8], before: u8, out: &[u8], n: usize) -> bool
    requires { length s.now ≡ whole_size }
    ensures { result ≡ is_moved before out.now n s.now }
{
    if s[State::COUNT_AT] != before {
        return true;
    }
    if n == 0 {
        return false;
    }
    octets::get8(out, 0) == EVENT
}

// Keeps the index up after such a frame: it is worked out again only where a pair started or ended. A block of
// another size is left as it is.
pub fn follow(s: &mut [u8], before: u8, out: &[u8], n: usize)
    ensures { s.new ≡ followed before out.now n s.old }
{
    if s.len() != Whole::SIZE {
        return;
    }
    if is_moved(s, before, out, n) {
        renew(s);
    }
}
