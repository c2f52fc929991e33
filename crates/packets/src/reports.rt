// The reports of a packet that is reported at once: that of the advertisement, and with kind 04 that of the scan
// response (document 01, Watching, by history, Report; document 02, T-06).
ghost use Rattle.std.specs.Prelude.{◌≡◌, ◌+◌, ◌*◌, ◌≤◌, length};
ghost use Rattle.laws.specs.Loops.{when};
ghost use Rattle.laws.specs.Put.{put_if};
ghost use Rattle.laws.specs.Tests.{pick};
ghost use Rattle.model.specs.Frames.{packet_of};
ghost use Rattle.model.specs.Events.{packet_report, scan_report, packet_reports};
ghost use Rattle.model.specs.Layout.{report_most};
ghost use Rattle.marks.specs.Fields.{Framed};
ghost use Rattle.packets.specs.Reports.{reports_fit};
ghost use Rattle.packets.specs.Writes.{PutAt};

use state::State;

// The event type of a scan response in a report.
const SCAN_RESPONSE: u8 = 4;

// The octets of two reports with the most data.
const BOTH: usize = 2 * (14 + State::DATA);

// The report of the packet's advertisement.
fn put_adv(out: &mut [u8], at: usize, payload: &[u8]) -> usize
    requires { (at + report_most ≤ length out.old) × Framed payload.now }
    ensures { (result ≤ report_most)
        × PutAt out.old at (packet_report (packet_of payload.now)) out.new result }
{
    let end = 9 + octets::wide(payload[8]);
    let last = payload.len() - 1;
    events::put_report(
        out,
        at,
        payload[0],
        &payload[1..8],
        &payload[9..end],
        payload[last],
    )
}

// The report of its scan response, where it has one.
fn put_scan(out: &mut [u8], at: usize, payload: &[u8]) -> usize
    requires { (at + report_most ≤ length out.old) × Framed payload.now }
    ensures { (result ≤ report_most)
        × PutAt out.old at
        (scan_report (packet_of payload.now) (packet_of payload.now).scan) out.new result }
{
    let from = 10 + octets::wide(payload[8]);
    let n = payload.len();
    if n <= from {
        return 0;
    }
    let last = n - 1;
    events::put_report(
        out,
        at,
        SCAN_RESPONSE,
        &payload[1..8],
        &payload[from..last],
        payload[last],
    )
}

fn put_reports(out: &mut [u8], at: usize, payload: &[u8]) -> usize
    requires { (at + 2 * report_most ≤ length out.old) × Framed payload.now }
    ensures { (result ≤ 2 * report_most)
        × PutAt out.old at (packet_reports (packet_of payload.now)) out.new result }
{
    let r = put_adv(out, at, payload);
    let k = put_scan(out, at + r, payload);
    r + k
}

// The packet's reports, where it is told.
pub(super) fn put_told(out: &mut [u8], at: usize, told: bool, payload: &[u8]) -> usize
    requires { (at + 2 * report_most ≤ length out.old) × Framed payload.now }
    ensures { (result ≤ 2 * report_most)
        × PutAt out.old at (when told (packet_reports (packet_of payload.now))) out.new
        result }
{
    if told {
        return put_reports(out, at, payload);
    }
    0
}

// Appends a packet's reports to any output, from any octets. Where there is no room for two reports with the most data
// or the payload is no packet frame's by its lengths, nothing is written and the answer is 0.
pub fn put_packet(out: &mut [u8], at: usize, payload: &[u8]) -> usize
    ensures { (result ≤ 2 * report_most)
        × (result ≡ pick (reports_fit (length out.old) at payload.now)
        (length (packet_reports (packet_of payload.now))) 0)
        × (out.new
        ≡ put_if (reports_fit (length out.old) at payload.now) out.old at
        (packet_reports (packet_of payload.now))) }
{
    let n = out.len();
    if n < BOTH {
        return 0;
    }
    if n - BOTH < at {
        return 0;
    }
    if !marks::is_framed(payload) {
        return 0;
    }
    put_reports(out, at, payload)
}
