// The answer to a command: Command Complete.
ghost use Rattle.std.specs.Prelude.{◌≡◌, ℕ, ◌+◌, ◌≤◌, List, [], ◌∷◌, length, ◌==◌};
ghost use Rattle.laws.specs.Put.{put};
ghost use Rattle.laws.specs.Tests.{pick};
ghost use Rattle.sessions.specs.Machine.{answer_room};
ghost use Rattle.model.specs.Commands.{status};
ghost use Rattle.model.specs.Events.{complete};
ghost use Rattle.model.specs.Layout.{block_size, return_most};
ghost use Rattle.commands.specs.Replies.{Replied, features_of, head_of, prefix_in};
ghost use Rattle.pasts.specs.Past;
ghost use Rattle.twin.specs.Table.{Commands, kind_at, past_at};
ghost use Rattle.twin.specs.Hears.{Formed};
ghost use Rattle.twin.specs.Seen.{Agrees, free_in};
ghost use Rattle.twin.specs.Answers.{says_at};

use super::watch::Seen;
use super::{heard, watch};
use state::State;

// Writes what comes before n return parameters.
fn put_complete(out: &mut [u8], opcode: u16, n: u8)
    requires { (answer_room ≤ length out.old) × (n ≤ return_most) }
    ensures { out.new ≡ put out.old 0 (head_of opcode n) }
{
    out[0] = 0x0E;
    out[1] = 3 + n;
    out[2] = 0x01;
    octets::put16(out, 3, opcode);
}

// A status and a sub-opcode.
fn short(out: &mut [u8], opcode: u16, status: u8, sub: u8) -> usize
    requires { answer_room ≤ length out.old }
    ensures { Replied out.old out.new result (complete opcode (status ∷ sub ∷ [])) }
{
    put_complete(out, opcode, 2);
    out[5] = status;
    out[6] = sub;
    7
}

// And a handle.
fn long(out: &mut [u8], opcode: u16, status: u8, sub: u8, handle: u8) -> usize
    requires { answer_room ≤ length out.old }
    ensures { Replied out.old out.new result (complete opcode (status ∷ sub ∷ handle ∷ [])) }
{
    put_complete(out, opcode, 3);
    out[5] = status;
    out[6] = sub;
    out[7] = handle;
    8
}

// Status and sub-opcode of 00, and the features.
const FEATURES: [u8; 10] = [0x00, 0x00, 0x0C, 0x04, 0, 0, 0, 0, 0, 0];

// The features, and the prefix with its length.
fn features(head: &[u8], out: &mut [u8], opcode: u16) -> usize
    requires { (length head.now ≡ block_size) × (answer_room ≤ length out.old) }
    ensures { Replied out.old out.new result
        (complete opcode (features_of (prefix_in head.now))) }
{
    let k = octets::at_most(head[State::PREFIX_LENGTH_AT], State::PREFIX);
    let n = k as u8;
    let f = FEATURES;
    put_complete(out, opcode, 11 + n);
    parts::copy(out, 5, &f);
    out[15] = n;
    parts::copy(out, 16, &head[State::PREFIX_AT..State::PREFIX_AT + k]);
    16 + k
}

// The status of a command with these parameters, behind what was seen before it.
fn status_of(t: &[u8], i: usize, params: &[u8], seen: Seen) -> u8
    requires { Agrees t.now i seen × (1 ≤ length params.now) }
    ensures { (o : ℕ) (p : List ℕ) → result ≡ status (Past.history_state o p (past_at t.now i)) params.now }
{
    let sub = params[0];
    let live = seen.live;
    if sub == 0 {
        return statuses::code_of(statuses::read_status(params));
    }
    if statuses::is_add(sub) {
        let free = watch::lowest_free(&live);
        return statuses::code_of(statuses::add_status(params, free.is_some()));
    }
    if sub == 4 {
        let known = watch::is_live(&live, octets::get8(params, 1));
        return statuses::code_of(statuses::cancel_status(params, known));
    }
    if sub == 5 {
        return statuses::code_of(statuses::enable_status(params, seen.filter));
    }
    1
}

// The handle that an added monitor gets; 0 where none is added.
fn handle_of(seen: Seen, status: u8) -> u8
    ensures { result ≡ pick (status == 0) (free_in seen.live) 0 }
{
    if status != 0 {
        return 0;
    }
    let live = seen.live;
    watch::lowest_free(&live).unwrap_or(State::MONITORS) as u8
}

// The answer to the command that is frame i, behind what was seen before it.
pub(super) fn reply(head: &[u8], t: &[u8], i: usize, seen: Seen, out: &mut [u8]) -> usize
    requires { (length head.now ≡ block_size) × Formed t.now i × (kind_at t.now i ≡ 1) × Agrees t.now i seen
        × (answer_room ≤ length out.old) }
    ensures { Replied out.old out.new result (says_at head.now t.now i) }
{
    let params = heard::params_of(t, i + 1);
    let opcode = octets::get16(head, State::OPCODE_AT);
    let status = status_of(t, i, params, seen);
    let sub = params[0];
    if statuses::is_add(sub) {
        return long(out, opcode, status, sub, handle_of(seen, status));
    }
    if (sub == 0) & (status == 0) {
        return features(head, out, opcode);
    }
    short(out, opcode, status, sub)
}
