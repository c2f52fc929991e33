// The parts of an answer: events, the mean of a window.
ghost use Rattle.std.specs.Prelude.{◌≡◌, ◌+◌, ◌-◌, ◌<◌, ◌≤◌, length};
ghost use Rattle.model.specs.Level.{mean};
ghost use Rattle.model.specs.Frames.{packet_of};
ghost use Rattle.model.specs.Layout.{block_size, event_most};
ghost use Rattle.marks.specs.Fields.{Framed};
ghost use Rattle.commands.specs.Replies.{prefix_in};
ghost use Rattle.packets.specs.Writes.{PutAt};
ghost use Rattle.twin.specs.Events.{event_of};

use state::State;

// The octet of the mean: the greatest whole number not above sum / packets.
pub(super) fn mean_of(sum: u64, packets: u64) -> u8
    requires { 1 ≤ packets }
    ensures { result ≡ mean sum packets }
{
    if sum < 9223372036854775808 {
        return (sum / packets % 256) as u8;
    }
    let below = (18446744073709551615 - sum) / packets;
    (255 - below % 256) as u8
}

// An event of a handle and the device of a packet, told by its payload: a start (1) or a stop (0).
pub(super) fn put_event(head: &[u8], p: &[u8], h: u8, state: u8, out: &mut [u8], at: usize) -> usize
    requires { (length head.now ≡ block_size) × Framed p.now × (at + event_most ≤ length out.old) }
    ensures { (result ≤ event_most)
        × PutAt out.old at (event_of (prefix_in head.now) h (packet_of p.now) state)
        out.new result }
{
    let mut row = [0u8; State::KEY];
    row[0] = h;
    parts::copy(&mut row, 1, &p[1..8]);
    let n = octets::at_most(head[State::PREFIX_LENGTH_AT], State::PREFIX);
    let end = State::PREFIX_AT + n;
    events::put_event(out, at, &head[State::PREFIX_AT..end], &row, state)
}
