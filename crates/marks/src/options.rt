// The options of a version 2 monitor: whether the packet's device is the monitor's peer, or its key resolves the
// address (document 02, T-13).
ghost use Rattle.std.specs.Prelude.{◌+◌, ◌<◌, ◌≡◌, length, drop, true};
ghost use Rattle.laws.specs.Rows.{row};
ghost use Rattle.model.specs.Frames.{packet_of};
ghost use Rattle.marks.specs.Fields.{Framed};
ghost use Rattle.model.specs.Monitors.{admits, parameters};
ghost use Rattle.blocks.specs.Added.{added_in};
ghost use Rattle.marks.specs.Options.{peer_meets, key_meets};
ghost use Rattle.marks.specs.Admitted.{admits_at, admitted};
ghost use Rattle.laws.specs.Tests.{pick};
ghost use Rattle.model.specs.Image.{monitor_in};
ghost use Rattle.model.specs.Layout.{block_size, monitor_size, monitors_at, most_monitors};

use state::State;

// Whether the packet's device is the peer that the options at a handle ask for (bit 0).
fn is_peer_at(s: &[u8], h: usize, payload: &[u8]) -> bool
    requires { (length s.now ≡ block_size) × (h < most_monitors) × Framed payload.now }
    ensures { result
        ≡ peer_meets (added_in (row monitor_size h (drop monitors_at s.now))) (packet_of payload.now) }
{
    let at = State::MONITORS_AT + State::MONITOR_ROW * h;
    if s[at + State::OPTIONS_AT] % 2 != 1 {
        return false;
    }
    if s[at + State::PEER_TYPE_AT] != payload[1] {
        return false;
    }
    let from = at + State::PEER_AT;
    let to = at + State::PEER_TYPE_AT;
    parts::same(&s[from..to], &payload[2..8])
}

// Whether the key that the options at a handle ask for (bit 1) resolves the packet's address.
fn is_owner_at(s: &[u8], h: usize, payload: &[u8]) -> bool
    requires { (length s.now ≡ block_size) × (h < most_monitors) × Framed payload.now }
    ensures { result
        ≡ key_meets (added_in (row monitor_size h (drop monitors_at s.now))) (packet_of payload.now) }
{
    let at = State::MONITORS_AT + State::MONITOR_ROW * h;
    if s[at + State::OPTIONS_AT] / 2 % 2 != 1 {
        return false;
    }
    if payload[1] != 1 {
        return false;
    }
    let from = at + State::IRK_AT;
    let to = at + State::MONITOR_ROW;
    resolve::resolves(&s[from..to], &payload[2..8])
}

// Whether the options at a handle admit the packet's device: those of version 1 and bit 5 any.
pub(super) fn admits_at(s: &[u8], h: usize, payload: &[u8]) -> bool
    requires { (length s.now ≡ block_size) × (h < most_monitors) × Framed payload.now }
    ensures { result
        ≡ admits (parameters (monitor_in (row monitor_size h (drop monitors_at s.now))).1)
        (packet_of payload.now) }
{
    let options = s[State::MONITORS_AT + State::MONITOR_ROW * h + State::OPTIONS_AT];
    if options == 0 {
        return true;
    }
    if options / 32 % 2 == 1 {
        return true;
    }
    if is_peer_at(s, h, payload) {
        return true;
    }
    is_owner_at(s, h, payload)
}

// The octet of a handle that the first pass left, where its options admit the packet's device; else 0.
fn admit_at(s: &[u8], h: usize, payload: &[u8], a: u8) -> u8
    requires { (length s.now ≡ block_size) × (h < most_monitors) × Framed payload.now }
    ensures { result ≡ pick (admits_at s.now (packet_of payload.now) h) a 0 }
{
    if a == 0 {
        return 0;
    }
    if admits_at(s, h, payload) {
        return a;
    }
    0
}

// The second pass: so of every handle.
pub(super) fn admit_each(acts: &mut [u8], s: &[u8], payload: &[u8])
    requires { (length acts.old ≡ most_monitors) × (length s.now ≡ block_size) × Framed payload.now }
    ensures { acts.new
        ≡ admitted acts.old s.now (packet_of payload.now) }
{
    for h in 0..State::MONITORS {
        let a = acts[h];
        acts[h] = admit_at(s, h, payload, a);
    }
}
