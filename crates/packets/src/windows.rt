// A window takes a packet (document 01, Watching, by history); the packet kept for duplicates (document 02, T-13).
ghost use Rattle.std.specs.Prelude.{◌≡◌, ◌+◌, ◌<◌, ◌≤◌, [], length};
ghost use Rattle.laws.specs.Put.{put};
ghost use Rattle.model.specs.Levels.{extended};
ghost use Rattle.model.specs.Frames.{packet_of};
ghost use Rattle.marks.specs.Fields.{Framed};
ghost use Rattle.packets.specs.Windows.{taken_by};
ghost use Rattle.blocks.specs.Fields.{latest_of};
ghost use Rattle.model.specs.Layout.{latest_size, window_size};

use state::State;

// The event type of a pair that keeps no packet for duplicates.
const NO_EVENT: u8 = 0xFF;

// An RSSI octet as a number of 8 octets in two's complement.
fn extend(o: u8) -> u64
    ensures { result ≡ extended o }
{
    u64::from(state::level_of(o)).wrapping_sub(128)
}

// The packet's event type and data, kept from an index on: the length stands before the data, zeros behind it.
pub(super) fn put_latest(s: &mut [u8], at: usize, payload: &[u8])
    requires { (at + latest_size ≤ length s.old) × Framed payload.now }
    ensures { s.new
        ≡ put s.old at
        (latest_of (packet_of payload.now).event (packet_of payload.now).adv) }
{
    let n = octets::wide(payload[8]);
    let end = 9 + n;
    s[at] = payload[0];
    s[at + 1] = payload[8];
    parts::copy(s, at + 2, &payload[9..end]);
    parts::fill(s, at + 2 + n, State::DATA - n, 0);
}

// No packet: event type 0xFF and no data.
pub(super) fn put_none(s: &mut [u8], at: usize)
    requires { at + latest_size ≤ length s.old }
    ensures { s.new ≡ put s.old at (latest_of 255 []) }
{
    s[at] = NO_EVENT;
    parts::fill(s, at + 1, State::LATEST - 1, 0);
}

// A window that begins at an index takes the packet: one packet more, its RSSI in the sum and kept, its event
// type and data.
pub(super) fn gather_at(s: &mut [u8], at: usize, payload: &[u8])
    requires { (at + window_size ≤ length s.old) × Framed payload.now }
    ensures { s.new
        ≡ put s.old at (taken_by (packet_of payload.now) s.old at) }
{
    let last = payload.len() - 1;
    let count = octets::get32(s, at);
    let sum = octets::get64(s, at + 4);
    octets::put32(s, at, count.wrapping_add(1));
    octets::put64(s, at + 4, sum.wrapping_add(extend(payload[last])));
    s[at + 12] = payload[last];
    put_latest(s, at + 13, payload);
}
