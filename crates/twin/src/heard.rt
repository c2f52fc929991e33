// Which packets a pair hears. A start is told by three frame numbers: that of the command that added its monitor, its
// own packet's, and the handle.
ghost use Rattle.std.specs.Prelude.{◌≡◌, ◌+◌, ◌-◌, ◌≤◌, length, drop};
ghost use Rattle.model.specs.Frames.{packet_of};
ghost use Rattle.model.specs.Layout.{extra_size};
ghost use Rattle.model.specs.Monitors.{admits, filtering, matches, meets_condition, monitor_of, parameters};
ghost use Rattle.marks.specs.Fields.{Framed};
ghost use Rattle.marks.specs.Options.{key_meets, peer_meets};
ghost use Rattle.twin.specs.Table.{Commands, payload_at};
ghost use Rattle.twin.specs.Heard.{Adds};
ghost use Rattle.twin.specs.Hears.{Formed, Start, hears};

use super::kept;

// Whether the packet's device is the peer that the added parameters of a version 2 monitor ask for (bit 0).
fn is_peer(extra: &[u8], payload: &[u8]) -> bool
    requires { (length extra.now ≡ extra_size) × Framed payload.now }
    ensures { result ≡ peer_meets extra.now (packet_of payload.now) }
{
    if extra[0] % 2 != 1 {
        return false;
    }
    if extra[8] != payload[1] {
        return false;
    }
    parts::same(&extra[2..8], &payload[2..8])
}

// Whether the key that they ask for (bit 1) resolves the packet's address.
fn is_owner(extra: &[u8], payload: &[u8]) -> bool
    requires { (length extra.now ≡ extra_size) × Framed payload.now }
    ensures { result ≡ key_meets extra.now (packet_of payload.now) }
{
    if extra[0] / 2 % 2 != 1 {
        return false;
    }
    if payload[1] != 1 {
        return false;
    }
    resolve::resolves(&extra[9..25], &payload[2..8])
}

// Whether they admit the packet's device.
fn admits_by(extra: &[u8], payload: &[u8]) -> bool
    requires { (length extra.now ≡ extra_size) × Framed payload.now }
    ensures { result ≡ admits extra.now (packet_of payload.now) }
{
    if extra[0] / 32 % 2 == 1 {
        return true;
    }
    if is_peer(extra, payload) {
        return true;
    }
    is_owner(extra, payload)
}

// Whether a packet meets the condition of the monitor that a command's parameters add.
fn meets(params: &[u8], payload: &[u8]) -> bool
    requires { Adds params.now × Framed payload.now }
    ensures { result ≡ meets_condition (monitor_of params.now) (packet_of payload.now) }
{
    let at = statuses::type_at(params[0]);
    let end = 9 + octets::wide(payload[8]);
    let scan = marks::scan_at(payload);
    let last = payload.len() - 1;
    let from = at + 1;
    advert::match_packet(
        params[at],
        &params[from..],
        payload[1],
        &payload[2..8],
        &payload[9..end],
        &payload[scan..last],
    )
}

// Whether a packet matches the monitor that a command's parameters add.
pub(super) fn is_match(params: &[u8], payload: &[u8]) -> bool
    requires { Adds params.now × Framed payload.now }
    ensures { result ≡ matches (monitor_of params.now) (packet_of payload.now) }
{
    if !meets(params, payload) {
        return false;
    }
    let at = statuses::type_at(params[0]);
    if at == 5 {
        return true;
    }
    admits_by(&params[5..at], payload)
}

// The parameters of the command that is frame number a.
pub(super) fn params_of(t: &[u8], a: usize) -> &[u8]
    requires { (1 ≤ a) × Commands t.now (a - 1) }
    ensures { result.now ≡ drop 3 (payload_at t.now (a - 1)) }
{
    let p = kept::payload_at(t, a - 1);
    &p[3..]
}

// Whether frame i is a packet of the device of packet number k that matches the monitor of frame number a.
pub(super) fn is_heard(t: &[u8], a: usize, k: usize, i: usize) -> bool
    requires { Start t.now a k × Formed t.now i }
    ensures { result ≡ hears t.now a k i }
{
    if !kept::is_packet(t, i) {
        return false;
    }
    let p = kept::payload_at(t, i);
    let d = kept::payload_at(t, k - 1);
    if !parts::same(&p[1..8], &d[1..8]) {
        return false;
    }
    is_match(params_of(t, a), p)
}

// The report filtering of a monitor: that of version 1 is bits 1 and 2.
pub(super) fn filtering_of(params: &[u8]) -> u8
    requires { Adds params.now }
    ensures { result ≡ filtering (parameters (monitor_of params.now)) }
{
    if statuses::type_at(params[0]) == 5 {
        return 6;
    }
    params[6]
}
