// The answer to a frame, worked out from the frames before it.
ghost use Rattle.std.specs.Prelude.{◌≡◌, ℕ, ◌+◌, ◌-◌, ◌<◌, ◌≤◌, true, false, ◌&&◌, [], length, slice_index};
ghost use Rattle.laws.specs.Loops.{some as some_of};
ghost use Rattle.sessions.specs.Machine.{answer_room};
ghost use Rattle.model.specs.Level.{mean};
ghost use Rattle.model.specs.Frames.{packet_of};
ghost use Rattle.model.specs.Monitors.{allows, sifts};
ghost use Rattle.model.specs.Layout.{block_size, event_most, most_monitors, report_most, turn_most, turns_most};
ghost use Rattle.commands.specs.Replies.{prefix_in};
ghost use Rattle.packets.specs.Writes.{PutAt};
ghost use Rattle.pasts.specs.Past.{filter_after, monitor_after, watch as watched_in};
ghost use Rattle.pasts.specs.Says.{is_reported, packet_says, reason_by, tick_says, tick_says_of, turn_says, turns_say};
ghost use Rattle.twin.specs.Table.{after, kind_at, past_at, payload_at};
ghost use Rattle.twin.specs.Hears.{Formed, Start, start_of};
ghost use Rattle.twin.specs.Silent.{Looks};
ghost use Rattle.twin.specs.Numbered.{mon_at};
ghost use Rattle.twin.specs.Seen.{Agrees, Comes, Frames, Shows, Took, Turns, Watches, start_at, starts_of};
ghost use Rattle.twin.specs.Answers.{says_at};
ghost use Rattle.twin.specs.Events.{stop_of, window_says};
ghost use Rattle.twin.specs.Told.{tells_to};

use super::watch::{Begun, Deed, Seen, Turn};
use super::{heard, kept, pairs, replies, watch, writes};
use state::State;

// Whether packet i is a reason for a report by the start at packet number k of the monitor of frame number a, under
// watch before it.
fn is_reason(t: &[u8], i: usize, a: usize, k: usize) -> bool
    requires { Looks t.now a k i × Comes t.now i × Formed t.now i }
    ensures { (h : ℕ) → result ≡ reason_by [] (past_at t.now i) (packet_of (payload_at t.now i))
        (start_of t.now h a k) }
{
    if heard::params_of(t, a)[4] != 0 {
        return false;
    }
    if !heard::is_heard(t, a, k, i) {
        return false;
    }
    if !pairs::allows(t, a, i + 1) {
        return false;
    }
    !pairs::duplicates(t, a, pairs::last_reason(t, a, k, i), i + 1)
}

// Whether it is one for some pair under watch.
fn is_told(t: &[u8], i: usize, seen: Seen) -> bool
    requires { Frames t.now (i + 1) × Comes t.now i × Agrees t.now i seen }
    ensures { result
        ≡ some_of (reason_by [] (past_at t.now i) (packet_of (payload_at t.now i)))
        (watched_in (past_at t.now i)) }
{
    for b in seen.list() {
        if is_reason(t, i, usize::from(b.monitor), usize::from(b.packet)) {
            return true;
        }
    }
    false
}

// Whether the turn of handle h, if it gives a start, lets packet i through.
fn turn_tells(t: &[u8], i: usize, h: u8, seen: Seen, started: bool) -> bool
    requires { Comes t.now i × (h < most_monitors) × Shows t.now (i + 1) (past_at t.now i) seen
        × (started ≡ true → 1 ≤ slice_index seen.live h) }
    ensures { result
        ≡ (started && allows (mon_at t.now (slice_index seen.live h))
        (packet_of (payload_at t.now i)).event) }
{
    if !started {
        return false;
    }
    let live = seen.live;
    let a = octets::wide(live[octets::wide(h)]);
    pairs::allows(t, a, i + 1)
}

// Whether packet i gives some start that its monitor lets through.
fn starts_tell(t: &[u8], i: usize, seen: Seen) -> bool
    requires { Frames t.now (i + 1) × Comes t.now i × Agrees t.now i seen }
    ensures { result ≡ tells_to t.now i most_monitors }
{
    let mut next = seen;
    for h in 0u8..State::HANDLES {
        let turned = watch::take_turn(t, i, h, next);
        if turn_tells(t, i, h, next, turned.deed.starts()) {
            return true;
        }
        next = turned.seen;
    }
    false
}

// Whether packet i is reported at once.
fn is_reported(t: &[u8], i: usize, seen: Seen) -> bool
    requires { Frames t.now (i + 1) × Comes t.now i × Agrees t.now i seen }
    ensures { result ≡ is_reported [] (past_at t.now i) (packet_of (payload_at t.now i)) }
{
    if seen.filter == 0 {
        return true;
    }
    if is_told(t, i, seen) {
        return true;
    }
    starts_tell(t, i, seen)
}

// The stop event of a start.
fn put_stop(head: &[u8], t: &[u8], b: Begun, out: &mut [u8], at: usize) -> usize
    requires { (length head.now ≡ block_size) × Start t.now b.monitor b.packet × (at + event_most ≤ length out.old) }
    ensures { (result ≤ event_most)
        × PutAt out.old at (stop_of t.now (prefix_in head.now) b) out.new result }
{
    let p = kept::payload_at(t, usize::from(b.packet) - 1);
    writes::put_event(head, p, b.handle, 0, out, at)
}

// What the turn of handle h at packet i writes.
fn put_turn(
    head: &[u8],
    t: &[u8],
    i: usize,
    h: u8,
    seen: Seen,
    turned: Turn,
    out: &mut [u8],
    at: usize,
) -> usize
    requires { (length head.now ≡ block_size) × Comes t.now i × (h < most_monitors) × Turns t.now i h seen
        × Took t.now i h seen turned × (at + turn_most ≤ length out.old) }
    ensures { (result ≤ turn_most)
        × PutAt out.old at
        (turn_says (prefix_in head.now) (past_at t.now i) (packet_of (payload_at t.now i))
        (monitor_after (past_at t.now i) h) h (starts_of t.now seen)) out.new result }
{
    match turned.deed {
        Deed::Still => 0,
        Deed::Joined => writes::put_event(head, kept::payload_at(t, i), h, 1, out, at),
        Deed::Displaced(gone) => {
            let n = put_stop(head, t, seen.starts[gone], out, at);
            n + writes::put_event(head, kept::payload_at(t, i), h, 1, out, at + n)
        }
    }
}

// What the turns of packet i write.
fn put_turns(head: &[u8], t: &[u8], i: usize, seen: Seen, out: &mut [u8]) -> usize
    requires { (length head.now ≡ block_size) × Frames t.now (i + 1) × Comes t.now i × Agrees t.now i seen
        × (answer_room ≤ length out.old) }
    ensures { (result ≤ turns_most)
        × PutAt out.old 0
        (turns_say (prefix_in head.now) (past_at t.now i) (packet_of (payload_at t.now i))
        most_monitors) out.new result }
{
    let mut next = seen;
    let mut at = 0;
    for h in 0u8..State::HANDLES {
        let turned = watch::take_turn(t, i, h, next);
        at += put_turn(head, t, i, h, next, turned, out, at);
        next = turned.seen;
    }
    at
}

// The answer to packet i.
fn packet(head: &[u8], t: &[u8], i: usize, out: &mut [u8]) -> usize
    requires { (length head.now ≡ block_size) × Frames t.now (i + 1) × Comes t.now i
        × (answer_room ≤ length out.old) }
    ensures { PutAt out.old 0
        (packet_says (prefix_in head.now) (past_at t.now i)
        (packet_of (payload_at t.now i))) out.new result }
{
    let seen = watch::after_all(t, i);
    let at = put_turns(head, t, i, seen, out);
    if !is_reported(t, i, seen) {
        return at;
    }
    at + packets::reports::put_packet(out, at, kept::payload_at(t, i))
}

// The report of a window that tick i closes, where it had packets and report filtering lets the latest of them through.
fn put_window(t: &[u8], i: usize, a: usize, k: usize, out: &mut [u8], at: usize) -> usize
    requires { Looks t.now a k i × (sifts (mon_at t.now a) ≡ false) × (at + report_most ≤ length out.old) }
    ensures { (result ≤ report_most)
        × ((h : ℕ) → PutAt out.old at
        (window_says (start_of t.now h a k) (after t.now k (i - k))) out.new result) }
{
    let w = pairs::window_of(t, a, k, i);
    let Some(last) = w.last else {
        return 0;
    };
    if !pairs::allows(t, a, last) {
        return 0;
    }
    let mean = writes::mean_of(w.sum, w.packets as u64);
    let d = kept::payload_at(t, k - 1);
    events::put_report(
        out,
        at,
        pairs::event_of(t, last),
        &d[1..8],
        pairs::data_of(t, last),
        mean,
    )
}

// What tick i writes for a start: the stop event of a watch that ends, or the report of a window that closes.
fn put_tick(
    head: &[u8],
    t: &[u8],
    i: usize,
    filter: u8,
    b: Begun,
    out: &mut [u8],
    at: usize,
) -> usize
    requires { (length head.now ≡ block_size) × Frames t.now (i + 1) × (kind_at t.now i ≡ 3)
        × Watches t.now i b × (filter ≡ filter_after (past_at t.now i)) × (at + report_most ≤ length out.old) }
    ensures { (result ≤ report_most)
        × PutAt out.old at
        (tick_says_of (prefix_in head.now) (past_at t.now i)
        (start_at t.now b)) out.new result }
{
    if !watch::goes_on(t, i + 1, b) {
        return put_stop(head, t, b, out, at);
    }
    if filter != 1 {
        return 0;
    }
    let a = usize::from(b.monitor);
    let k = usize::from(b.packet);
    if !pairs::windowed(t, a) {
        return 0;
    }
    if pairs::phase(t, a, k, i + 1) != 0 {
        return 0;
    }
    put_window(t, i, a, k, out, at)
}

// The answer to tick i, pairs in the order they started.
fn tick(head: &[u8], t: &[u8], i: usize, out: &mut [u8]) -> usize
    requires { (length head.now ≡ block_size) × Frames t.now (i + 1) × (kind_at t.now i ≡ 3)
        × (answer_room ≤ length out.old) }
    ensures { PutAt out.old 0 (tick_says (prefix_in head.now) (past_at t.now i))
        out.new result }
{
    let seen = watch::after_all(t, i);
    let mut at = 0;
    for b in seen.list() {
        at += put_tick(head, t, i, seen.filter, *b, out, at);
    }
    at
}

// The answer to frame i, behind i others.
pub(super) fn answer(head: &[u8], t: &[u8], i: usize, out: &mut [u8]) -> usize
    requires { (length head.now ≡ block_size) × Frames t.now (i + 1) × (answer_room ≤ length out.old) }
    ensures { PutAt out.old 0 (says_at head.now t.now i) out.new result }
{
    let kind = kept::kind_at(t, i);
    if kind == kept::COMMAND {
        return replies::reply(head, t, i, watch::after_all(t, i), out);
    }
    if kind == kept::TICK {
        return tick(head, t, i, out);
    }
    packet(head, t, i, out)
}
