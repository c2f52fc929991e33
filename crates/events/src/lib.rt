// Events and reports, appended to a lent output at an index (document 01, Watching, by history). Where one does not
// fit, or an argument is not of its length, nothing is written and the answer is 0.
#![tactic(auto)]

ghost use Rattle.std.specs.Prelude.{◌+◌, ◌≤◌, ◌≡◌, length};
ghost use Rattle.laws.specs.Put.{put, put_if};
ghost use Rattle.laws.specs.Tests.{pick};
ghost use Rattle.events.specs.Octets.{event_octets, report_octets, event_fits, report_fits};
ghost use Rattle.model.specs.Layout.{most_data, most_prefix};

use state::State;

fn put_event_in(out: &mut [u8], at: usize, prefix: &[u8], row: &[u8], state: u8)
    requires { (length prefix.now ≤ most_prefix) × (8 ≤ length row.now)
        × (at + (12 + length prefix.now) ≤ length out.old) }
    ensures { out.new
        ≡ put out.old at (event_octets prefix.now row.now state) }
{
    let n = prefix.len();
    out[at] = 0xFF;
    out[at + 1] = (10 + n) as u8;
    parts::copy(out, at + 2, prefix);
    out[at + 2 + n] = 2;
    parts::copy(out, at + 3 + n, &row[State::KIND_AT..State::KEY]);
    out[at + 10 + n] = row[0];
    out[at + 11 + n] = state;
}

// Appends an event: the row opens with handle, address type and address; the state is 1 at a start and 0 at a stop.
pub fn put_event(out: &mut [u8], at: usize, prefix: &[u8], row: &[u8], state: u8) -> usize
    ensures { (result ≡ pick (event_fits (length out.old) at prefix.now row.now state)
        (length (event_octets prefix.now row.now state)) 0)
        × (out.new
        ≡ put_if (event_fits (length out.old) at prefix.now row.now state)
        out.old at (event_octets prefix.now row.now state)) }
{
    let n = prefix.len();
    if n > State::PREFIX {
        return 0;
    }
    if row.len() < State::KEY {
        return 0;
    }
    let all = out.len();
    if all < 12 + n {
        return 0;
    }
    if at > all - (12 + n) {
        return 0;
    }
    put_event_in(out, at, prefix, row, state);
    12 + n
}

fn put_report_in(out: &mut [u8], at: usize, event: u8, device: &[u8], adv: &[u8], rssi: u8)
    requires { (length device.now ≡ 7) × (length adv.now ≤ most_data)
        × (at + (14 + length adv.now) ≤ length out.old) }
    ensures { out.new
        ≡ put out.old at (report_octets event device.now adv.now rssi) }
{
    let n = adv.len();
    out[at] = 0x3E;
    out[at + 1] = (12 + n) as u8;
    out[at + 2] = 2;
    out[at + 3] = 1;
    out[at + 4] = event;
    parts::copy(out, at + 5, device);
    out[at + 12] = n as u8;
    parts::copy(out, at + 13, adv);
    out[at + 13 + n] = rssi;
}

// Appends a report: the device is address type and address.
pub fn put_report(
    out: &mut [u8],
    at: usize,
    event: u8,
    device: &[u8],
    adv: &[u8],
    rssi: u8,
) -> usize
    ensures { (result ≡ pick (report_fits (length out.old) at event device.now adv.now rssi)
        (length (report_octets event device.now adv.now rssi)) 0)
        × (out.new
        ≡ put_if (report_fits (length out.old) at event device.now adv.now rssi)
        out.old at (report_octets event device.now adv.now rssi)) }
{
    let n = adv.len();
    if device.len() != State::DEVICE {
        return 0;
    }
    if n > State::DATA {
        return 0;
    }
    let all = out.len();
    if all < 14 + n {
        return 0;
    }
    if at > all - (14 + n) {
        return 0;
    }
    put_report_in(out, at, event, device, adv, rssi);
    14 + n
}
