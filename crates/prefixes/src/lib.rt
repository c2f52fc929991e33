// The editions of the prefix behind the index of a block (document 02, T-12): whether they are sound, which is in
// force at a frame, one more behind them. The block is laid out as `Whole` says.
#![tactic(auto)]

ghost use Rattle.std.specs.Prelude.{◌+◌, ◌*◌, ◌≤◌, ◌<◌, ◌≡◌, length, drop, replicate, leb};
ghost use Rattle.laws.specs.Put.{put};
ghost use Rattle.laws.specs.Tests.{sames};
ghost use Rattle.octets.specs.Little.{little};
ghost use Rattle.model.specs.Layout.{most_prefix};
ghost use Rattle.editions.specs.Editions.{prefix_for, edition_row, last_from, most_editions};
ghost use Rattle.editions.specs.Block.{edition_size, edition_block};
ghost use Rattle.wholes.specs.Layout.{editions_at, whole_size};
ghost use Rattle.wholes.specs.Heads.{prefix_size, prefix_row};
ghost use Rattle.prefixes.specs.Held.{listed, edition_count, row_in, edition_at};
ghost use Rattle.prefixes.specs.Force.{InForce, enforced, starts_at};
ghost use Rattle.prefixes.specs.Sound.{starts_rising, is_prefixed};
ghost use Rattle.prefixes.specs.Laid.{placed};
ghost use Rattle.prefixes.specs.More.{last_in, can_push, pushed};

use index::Whole;
use state::State;

// How many editions a block holds.
fn count_of(s: &[u8]) -> usize
    requires { length s.now ≡ whole_size }
    ensures { (result ≡ edition_count s.now) × (result ≤ most_editions) }
{
    octets::at_most(s[Whole::EDITION_COUNT_AT], Whole::EDITIONS)
}

// The number from which edition i holds.
fn number_at(s: &[u8], i: usize) -> u32
    requires { (length s.now ≡ whole_size) × (i < most_editions) }
    ensures { result ≡ (edition_at s.now i).from }
{
    octets::get32(s, Whole::EDITIONS_AT + Whole::EDITION * i)
}

// The prefix of edition i with its length, into a lent row of zeros.
fn prefix_at(s: &[u8], i: usize, row: &mut [u8])
    requires { (length s.now ≡ whole_size) × (i < most_editions) × (row.old ≡ replicate prefix_size 0)
        × (length row.old ≡ prefix_size) }
    ensures { row.new ≡ prefix_row (edition_at s.now i).prefix }
{
    let at = Whole::EDITIONS_AT + Whole::EDITION * i + 4;
    let k = octets::at_most(s[at], State::PREFIX);
    let from = at + 1;
    let to = from + k;
    row[0] = k as u8;
    parts::copy(row, 1, &s[from..to]);
}

// The edition in force at frame n: its place among them plus 1, 0 where there is none. The last of those that have
// begun is found from behind.
fn in_force(s: &[u8], n: u64) -> usize
    requires { length s.now ≡ whole_size }
    ensures { InForce s.now n result }
{
    let mut k = count_of(s);
    while 0 < k {
        let i = k - 1;
        if number_at(s, i) as u64 <= n {
            return k;
        }
        k = i;
    }
    0
}

// The prefix in force at frame n with its length, into a lent row of zeros.
fn force_row(s: &[u8], n: u64, row: &mut [u8])
    requires { (length s.now ≡ whole_size) × (row.old ≡ replicate prefix_size 0) × (length row.old ≡ prefix_size) }
    ensures { row.new ≡ prefix_row (prefix_for n (listed s.now)) }
{
    let k = in_force(s, n);
    if 0 < k {
        prefix_at(s, k - 1, row);
    }
}

// The prefix in force at frame n, written into the block's head. A block of another size is left as it is.
pub fn enforce(s: &mut [u8], n: u64)
    ensures { s.new ≡ enforced n s.old }
{
    if s.len() != Whole::SIZE {
        return;
    }
    let mut row = [0u8; State::HEAD - State::PREFIX_LENGTH_AT];
    force_row(s, n, &mut row);
    parts::copy(s, State::PREFIX_LENGTH_AT, &row);
}

// Whether an edition begins at frame n.
pub fn starts(s: &[u8], n: u64) -> bool
    ensures { result ≡ starts_at n s.now }
{
    if s.len() != Whole::SIZE {
        return false;
    }
    let count = count_of(s);
    for i in 0..count {
        if number_at(s, i) as u64 == n {
            return true;
        }
    }
    false
}

// Whether the first edition holds from 0 on and each other from a number above the one before.
fn is_rising(s: &[u8]) -> bool
    requires { length s.now ≡ whole_size }
    ensures { result ≡ starts_rising (listed s.now) }
{
    let count = count_of(s);
    if count == 0 {
        return false;
    }
    let mut last = number_at(s, 0);
    if last != 0 {
        return false;
    }
    for i in 1..count {
        let next = number_at(s, i);
        if next <= last {
            return false;
        }
        last = next;
    }
    true
}

// The row of edition i as an image's line has it, written into a lent row.
fn put_row(row: &mut [u8], s: &[u8], i: usize)
    requires { (length s.now ≡ whole_size) × (i < most_editions) × (length row.old ≡ edition_size) }
    ensures { row.new ≡ put row.old 0 (edition_row (edition_at s.now i)) }
{
    let at = Whole::EDITION * i;
    let behind = Whole::EDITIONS_AT + at + 4;
    let k = octets::at_most(s[behind], State::PREFIX);
    let from = behind + 1;
    let to = from + k;
    octets::put32(row, 0, number_at(s, i));
    octets::put8(row, 4, k as u8);
    parts::copy(row, 5, &s[from..to]);
}

// Whether the row of edition i stands in a block as it ought to, with zeros behind its prefix.
fn is_row(s: &[u8], i: usize) -> bool
    requires { (length s.now ≡ whole_size) × (i < most_editions) }
    ensures { result ≡ sames (placed (edition_at s.now i)) (row_in s.now i) }
{
    let mut row = [0u8; Whole::EDITION];
    put_row(&mut row, s, i);
    let from = Whole::EDITIONS_AT + Whole::EDITION * i;
    let to = from + Whole::EDITION;
    parts::same(&row, &s[from..to])
}

// Whether the editions that a block holds stand in it as they ought to: row by row, zeros behind them, and their
// number.
fn is_laid(s: &[u8]) -> bool
    requires { length s.now ≡ whole_size }
    ensures { result ≡ sames (edition_block (listed s.now)) (drop editions_at s.now) }
{
    let count = count_of(s);
    for i in 0..count {
        if !is_row(s, i) {
            return false;
        }
    }
    if octets::wide(s[Whole::EDITION_COUNT_AT]) != count {
        return false;
    }
    let from = Whole::EDITIONS_AT + Whole::EDITION * count;
    soundness::zeros(&s[from..Whole::EDITION_COUNT_AT])
}

// Whether a block has its size, its editions are sound, and its head has the prefix in force at the position.
pub fn is_prefixed(s: &[u8]) -> bool
    ensures { result ≡ is_prefixed s.now }
{
    if s.len() != Whole::SIZE {
        return false;
    }
    if !is_rising(s) {
        return false;
    }
    if !is_laid(s) {
        return false;
    }
    let mut row = [0u8; State::HEAD - State::PREFIX_LENGTH_AT];
    force_row(s, octets::get32(s, State::POSITION_AT) as u64, &mut row);
    parts::same(&s[State::PREFIX_LENGTH_AT..State::HEAD], &row)
}

// The number of the last edition, 0 where there is none or the block has another size.
pub fn last_number(s: &[u8]) -> u32
    ensures { result ≡ last_in s.now }
{
    if s.len() != Whole::SIZE {
        return 0;
    }
    let count = count_of(s);
    if count == 0 {
        return 0;
    }
    number_at(s, count - 1)
}

// One edition more behind the others. Nothing is written where the block has another size, the prefix is too long or
// there is no room.
pub fn push(s: &mut [u8], number: u32, prefix: &[u8]) -> bool
    ensures { (result ≡ can_push s.old prefix.now)
        × (s.new ≡ pushed result number prefix.now s.old) }
{
    if s.len() != Whole::SIZE {
        return false;
    }
    let n = prefix.len();
    if State::PREFIX < n {
        return false;
    }
    let count = count_of(s);
    if count == Whole::EDITIONS {
        return false;
    }
    let at = Whole::EDITIONS_AT + Whole::EDITION * count;
    octets::put32(s, at, number);
    octets::put8(s, at + 4, n as u8);
    parts::copy(s, at + 5, prefix);
    octets::put8(s, Whole::EDITION_COUNT_AT, (count + 1) as u8);
    true
}
