// Vendor commands executed on the lent block (document 01, Commands): the status, the change in place, the Command
// Complete written into the lent output, the position moved. The block is laid out as the model's `padded` says.
#![tactic(auto)]

mod replies;

ghost use Rattle.std.specs.Prelude.{ℕ, ◌+◌, ◌-◌, ◌*◌, ◌≤◌, ◌<◌, ◌≡◌, true, length, ltb, is_some, unwrap_or};
ghost use Rattle.laws.specs.Put.{put};
ghost use Rattle.model.specs.Monitors.{monitor_of};
ghost use Rattle.model.specs.Types.{Model};
ghost use Rattle.model.specs.Commands.{sub_of, cancelled};
ghost use Rattle.model.specs.Sound.{sound_model};
ghost use Rattle.model.specs.Block.{padded};
ghost use Rattle.blocks.specs.Monitors.{row_of};
ghost use Rattle.statuses.specs.Statuses.{adds_by};
ghost use Rattle.commands.specs.Stored.{Enough, fields_of, added_of};
ghost use Rattle.commands.specs.Handles.{busy_at, live_at, lowest};
ghost use Rattle.commands.specs.Kept.{kept_octets, kept_count};
ghost use Rattle.commands.specs.Cancelled.{Compacted, Forgotten};
ghost use Rattle.commands.specs.Ran.{Runs};
ghost use Rattle.model.specs.Frames.{command as vendor};
ghost use Rattle.steps.specs.Stepped.{Taken};
ghost use Rattle.model.specs.Layout.{extra_size, most_condition, second_type_in, block_size, monitor_size, monitors_at, most_monitors, most_pairs, pair_size, pairs_at};
ghost use Rattle.sessions.specs.Machine.{answer_room};

use state::State;
use statuses::Status;

// Whether the monitor row of a handle is in use.
fn busy(s: &[u8], h: usize) -> bool
    requires { (length s.now ≡ block_size) × (h < most_monitors) }
    ensures { result ≡ busy_at s.now h }
{
    s[State::INTERVALS_AT + State::MONITOR_ROW * h] != 0
}

// Whether a handle is live.
fn live(s: &[u8], h: u8) -> bool
    requires { length s.now ≡ block_size }
    ensures { result ≡ live_at s.now h }
{
    h < State::HANDLES && busy(s, h as usize)
}

// The lowest handle that is not live, where there is one.
fn free_handle(s: &[u8]) -> Option<usize>
    requires { length s.now ≡ block_size }
    ensures handle { unwrap_or result most_monitors ≡ lowest s.now most_monitors 0 }
    ensures room { is_some result ≡ ltb (lowest s.now most_monitors 0) most_monitors }
{
    for h in 0..State::MONITORS {
        if !busy(s, h) {
            return Some(h);
        }
    }
    None
}

// Writes A1's fields in a monitor's row, from the parameters of 03 or 0F, whose condition type stands at an index;
// zeros up to the end of the condition's room.
fn put_fields(s: &mut [u8], row: usize, h: u8, params: &[u8], at: usize)
    requires { (row + monitor_size ≤ length s.old) × (5 ≤ at) × (at < length params.now)
        × (length params.now ≤ at + 1 + most_condition) }
    ensures { s.new ≡ put s.old row (fields_of h at params.now) }
{
    let k = params.len() - at - 1;
    s[row] = h;
    parts::copy(s, row + State::HIGH_AT, &params[1..5]);
    s[row + State::TYPE_AT] = params[at];
    s[row + State::CONDITION_LENGTH_AT] = k as u8;
    parts::copy(s, row + State::CONDITION_AT, &params[at + 1..]);
    parts::fill(s, row + State::CONDITION_AT + k, State::CONDITION - k, 0);
}

// Writes what version 2 adds: the parameters between the sampling period and the condition type, zeros in version 1.
fn put_added(s: &mut [u8], to: usize, params: &[u8], at: usize)
    requires { (to + extra_size ≤ length s.old) × (5 ≤ at) × (at ≤ second_type_in) × (at < length params.now) }
    ensures { s.new ≡ put s.old to (added_of at params.now) }
{
    let k = at - 5;
    parts::copy(s, to, &params[5..at]);
    parts::fill(s, to + k, State::EXTRA - k, 0);
}

// Writes the row of a monitor under a handle, from the parameters of 03 or 0F.
fn put_monitor(s: &mut [u8], h: usize, params: &[u8], at: usize)
    requires { (length s.old ≡ block_size) × (h < most_monitors) × Enough at params.now }
    ensures { s.new
        ≡ put s.old (monitors_at + monitor_size * h) (row_of h (monitor_of params.now)) }
{
    let row = State::MONITORS_AT + State::MONITOR_ROW * h;
    put_fields(s, row, h as u8, params, at);
    put_added(s, row + State::OPTIONS_AT, params, at);
}

// Moves pair row i to place k, but for a pair of the handle; answers the next place.
fn keep_row(s: &mut [u8], i: usize, k: usize, h: u8) -> usize
    requires { (length s.old ≡ block_size) × (k ≤ i) × (i < most_pairs) }
    ensures { (result ≡ k + kept_count h s.old i)
        × (s.new ≡ put s.old (pairs_at + pair_size * k) (kept_octets h s.old i)) }
{
    let from = State::PAIRS_AT + State::PAIR_ROW * i;
    if h == s[from] {
        return k;
    }
    parts::shift(
        s,
        State::PAIRS_AT + State::PAIR_ROW * k,
        from,
        State::PAIR_ROW,
    );
    k + 1
}

// Takes the pairs of a handle out of the first rows, keeping the order of the others; answers their number.
fn compact(s: &mut [u8], count: usize, h: u8) -> usize
    requires { (length s.old ≡ block_size) × (count ≤ most_pairs) }
    ensures { Compacted h count s.old s.new result }
{
    let mut k = 0;
    for i in 0..count {
        k = keep_row(s, i, k, h);
    }
    k
}

// Takes the pairs of a handle out of the pair rows; the freed rows are 0.
fn forget_pairs(s: &mut [u8], h: u8)
    requires { length s.old ≡ block_size }
    ensures { Forgotten h s.old s.new }
{
    let count = octets::at_most(s[State::COUNT_AT], State::PAIRS);
    let k = compact(s, count, h);
    parts::fill(
        s,
        State::PAIRS_AT + State::PAIR_ROW * k,
        State::PAIR_ROW * (State::PAIRS - k),
        0,
    );
    s[State::COUNT_AT] = k as u8;
}

// Forgets the monitor of a handle, and its pairs.
fn cancel(s: &mut [u8], h: u8)
    requires { (length s.old ≡ block_size) × (h < most_monitors) }
    ensures { (m : Model) → sound_model m ≡ true → s.old ≡ padded m
        → s.new ≡ padded (cancelled m h) }
{
    parts::fill(
        s,
        State::MONITORS_AT + State::MONITOR_ROW * (h as usize),
        State::MONITOR_ROW,
        0,
    );
    forget_pairs(s, h);
}

// 00: reads the supported features.
fn read_features(s: &[u8], params: &[u8], out: &mut [u8]) -> usize
    requires { (length s.now ≡ block_size) × (answer_room ≤ length out.old) × (sub_of params.now ≡ 0) }
    ensures { Runs params.now s.now s.now out.old
        out.new result }
{
    let opcode = octets::get16(s, State::OPCODE_AT);
    match statuses::read_status(params) {
        Ok(()) => replies::reply_features(s, out, opcode),
        Err(status) => replies::reply(out, opcode, status, 0x00),
    }
}

// 03 and 0F: adds a monitor under the lowest handle not live.
fn add_monitor(s: &mut [u8], params: &[u8], sub: u8, out: &mut [u8]) -> usize
    requires { (length s.old ≡ block_size) × (answer_room ≤ length out.old) × (sub ≡ sub_of params.now)
        × (adds_by sub ≡ true) }
    ensures { Runs params.now s.old s.new out.old
        out.new result }
{
    let opcode = octets::get16(s, State::OPCODE_AT);
    let free = free_handle(s);
    match statuses::add_status(params, free.is_some()) {
        Ok(()) => {
            let h = free.unwrap();
            let at = statuses::type_at(sub);
            put_monitor(s, h, params, at);
            replies::reply_handle(out, opcode, 0, sub, h as u8)
        }
        Err(status) => replies::reply_handle(out, opcode, status.code(), sub, 0),
    }
}

// 04: cancels a monitor.
fn cancel_monitor(s: &mut [u8], params: &[u8], out: &mut [u8]) -> usize
    requires { (length s.old ≡ block_size) × (answer_room ≤ length out.old) × (sub_of params.now ≡ 4) }
    ensures { Runs params.now s.old s.new out.old
        out.new result }
{
    let opcode = octets::get16(s, State::OPCODE_AT);
    let h = octets::get8(params, 1);
    let found = live(s, h);
    match statuses::cancel_status(params, found) {
        Ok(()) => {
            cancel(s, h);
            replies::reply_done(out, opcode, 0x04)
        }
        Err(status) => replies::reply(out, opcode, status, 0x04),
    }
}

// 05: sets the filter.
fn enable_filter(s: &mut [u8], params: &[u8], out: &mut [u8]) -> usize
    requires { (length s.old ≡ block_size) × (answer_room ≤ length out.old) × (sub_of params.now ≡ 5) }
    ensures { Runs params.now s.old s.new out.old
        out.new result }
{
    let opcode = octets::get16(s, State::OPCODE_AT);
    match statuses::enable_status(params, s[State::FILTER_AT]) {
        Ok(()) => {
            s[State::FILTER_AT] = octets::get8(params, 1);
            replies::reply_done(out, opcode, 0x05)
        }
        Err(status) => replies::reply(out, opcode, status, 0x05),
    }
}

// Executes a command, but for the position.
fn execute(s: &mut [u8], params: &[u8], out: &mut [u8]) -> usize
    requires { (length s.old ≡ block_size) × (answer_room ≤ length out.old) }
    ensures { Runs params.now s.old s.new out.old
        out.new result }
{
    let sub = octets::get8(params, 0);
    if sub == 0x00 {
        return read_features(s, params, out);
    }
    if statuses::is_add(sub) {
        return add_monitor(s, params, sub, out);
    }
    if sub == 0x04 {
        return cancel_monitor(s, params, out);
    }
    if sub == 0x05 {
        return enable_filter(s, params, out);
    }
    let opcode = octets::get16(s, State::OPCODE_AT);
    replies::reply(out, opcode, Status::Unknown, sub)
}

// Executes the vendor command with these parameters, the first of them the sub-opcode: changes the block, writes the
// Command Complete at the front of the output, and answers its length. Where the block is not of 5,225 octets or at
// the last frame number, or the output has under 2,880 octets, nothing is done and the answer is 0. Of a block that
// is of no sound state the contents, what is written and how much are free; the lengths stay, the answer is at most
// the output's length, and the octets past it are as they were.
pub fn command(s: &mut [u8], params: &[u8], out: &mut [u8]) -> usize
    ensures { (o : ℕ) → Taken (vendor o params.now) true s.old s.new out.old
        out.new result }
{
    if !state::ready(s, out) {
        return 0;
    }
    let n = execute(s, params, out);
    state::advance(s);
    n
}
