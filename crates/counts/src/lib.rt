// What a frame counts for each handle (document 02, T-09), from the block before it: sixteen gains to be added to the
// rows of a table. Nothing is changed. A packet's starts are told without its turns: each takes one of the room, the
// free places and the pairs that keep a smaller RSSI.
#![tactic(auto)]

mod packet;
mod reasons;
mod tick;

ghost use Rattle.std.specs.Prelude.{◌≤◌, ◌≡◌, true, map, length, get_or, ◌<◌, ◌-◌};
ghost use Rattle.sessions.specs.Machine.{last_number};
ghost use Rattle.model.specs.Types.{Model};
ghost use Rattle.model.specs.Block.{padded};
ghost use Rattle.model.specs.Sound.{sound_model};
ghost use Rattle.totals.specs.Gains.{wide_row};
ghost use Rattle.months.specs.Counts.{rows_added};
ghost use Rattle.counts.specs.Frames.{Adds};
ghost use Rattle.model.specs.Layout.{block_size};
ghost use Rattle.model.specs.Frames.{frame_of, packet as packet_frame, packet_of, is_packet, is_scanned, tick as a_tick};

use state::State;
use totals::{Gain, Row};

// The gains of a payload of kind 02.
fn of_packet(s: &[u8], payload: &[u8]) -> [Gain; Row::TABLE]
    requires { length s.now ≡ block_size }
    ensures { Adds s.now 2 payload.now (map wide_row result) }
{
    if frames::packet_form(payload) {
        return packet::gains_of(s, payload);
    }
    totals::no_gains()
}

// The gains of a payload of kind 04.
fn of_scanned(s: &[u8], payload: &[u8]) -> [Gain; Row::TABLE]
    requires { length s.now ≡ block_size }
    ensures { Adds s.now 4 payload.now (map wide_row result) }
{
    if frames::scanned_form(payload) {
        return packet::gains_of(s, payload);
    }
    totals::no_gains()
}

// The gains of a payload of kind 03.
fn of_tick(s: &[u8], payload: &[u8]) -> [Gain; Row::TABLE]
    requires { length s.now ≡ block_size }
    ensures { Adds s.now 3 payload.now (map wide_row result) }
{
    if payload.len() == 0 {
        return tick::gains_of(s);
    }
    totals::no_gains()
}

// The gains of a payload, by its kind: a command, and what has no form, adds nothing.
fn of_kind(s: &[u8], kind: u8, payload: &[u8]) -> [Gain; Row::TABLE]
    requires { length s.now ≡ block_size }
    ensures { Adds s.now kind payload.now (map wide_row result) }
{
    if kind == 2 {
        return of_packet(s, payload);
    }
    if kind == 3 {
        return of_tick(s, payload);
    }
    if kind == 4 {
        return of_scanned(s, payload);
    }
    totals::no_gains()
}

// The sixteen gains that a frame as octets adds, from the core of a block before it. None where the core is not of
// 5,225 octets or the frame has under 5; of a block that is of no sound state, or at the last frame number, they are
// free.
pub fn added_by(s: &[u8], frame: &[u8]) -> [Gain; Row::TABLE]
    ensures { (m : Model) → sound_model m ≡ true → s.now ≡ padded m → m.position < last_number
        → 5 ≤ length frame.now → map wide_row result ≡ rows_added m (frame_of frame.now).body }
{
    if s.len() != State::SIZE {
        return totals::no_gains();
    }
    if frame.len() < 5 {
        return totals::no_gains();
    }
    of_kind(s, frame[0], &frame[5..])
}
