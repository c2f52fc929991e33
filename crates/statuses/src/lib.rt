// The status of each vendor command, in document 01's order (Commands): lengths from a table of rows, thresholds,
// interval, what version 2 adds (document 02, T-13), condition type, the condition's form and length, room for one
// more monitor. Nothing here looks at the state: what a status takes from it (room for a monitor,
// whether a handle is live, the present setting of the filter) is a parameter.
#![tactic(auto)]

ghost use Rattle.std.specs.Prelude.{◌+◌, ◌≤◌, ◌<◌, ◌≡◌, true, ◌&&◌, eqb, length, get_or, Result};
ghost use Rattle.model.specs.Layout.{extra_size};
ghost use Rattle.model.specs.Level.{level, in_range};
ghost use Rattle.model.specs.Monitors.{settings_good, condition_fault, fault_of, monitor_of, allowed, type_in};
ghost use Rattle.model.specs.Commands.{table, params_in, answer_in, read_status};
ghost use Rattle.statuses.specs.Codes.{code, status_of};
ghost use Rattle.statuses.specs.Lookup.{Lengths};
ghost use Rattle.statuses.specs.Statuses.{add_of, adds_by, permits, type_by, cancel_of, enable_of};

use state::State;

// Why a command is refused.
#[derive(Clone, Copy)]
pub enum Status {
    Unknown,
    Full,
    Disallowed,
    Invalid,
}

impl Status {
    // The status octet of an answer.
    pub fn code(self) -> u8
        ensures { result ≡ code self }
    {
        match self {
            Status::Unknown => 0x01,
            Status::Full => 0x07,
            Status::Disallowed => 0x0C,
            Status::Invalid => 0x12,
        }
    }
}

// The status octet of a command that succeeds, 0, or is refused.
pub fn code_of(status: Result<(), Status>) -> u8
    ensures { result ≡ status_of status }
{
    match status {
        Ok(()) => 0,
        Err(e) => e.code(),
    }
}

// A row of the table: a sub-opcode, its parameter length counting the sub-opcode (03 and 0F: the least), and the number
// of return parameters on success (00: less the prefix).
#[derive(Clone, Copy)]
struct Row {
    sub: u8,
    params: usize,
    answer: u8,
}

const TABLE: [Row; 5] = [
    Row {
        sub: 0x00,
        params: 1,
        answer: 11,
    },
    Row {
        sub: 0x03,
        params: 6,
        answer: 3,
    },
    Row {
        sub: 0x04,
        params: 2,
        answer: 2,
    },
    Row {
        sub: 0x05,
        params: 2,
        answer: 2,
    },
    Row {
        sub: 0x0F,
        params: 31,
        answer: 3,
    },
];

// The row of a sub-opcode, where the table has one.
fn row_of(sub: u8) -> Option<Row>
    ensures { Lengths sub result }
{
    for r in TABLE {
        if r.sub == sub {
            return Some(r);
        }
    }
    None
}

// The parameter length of a sub-opcode, counting it; 0 where the table has none.
fn params_of(sub: u8) -> usize
    ensures { result ≡ params_in table sub }
{
    match row_of(sub) {
        Some(r) => r.params,
        None => 0,
    }
}

// The number of return parameters of a sub-opcode on success; 0 where the table has none.
pub fn answer_of(sub: u8) -> u8
    ensures { result ≡ answer_in table sub }
{
    match row_of(sub) {
        Some(r) => r.answer,
        None => 0,
    }
}

// Whether thresholds and interval are in range, and low is not above high.
pub fn settings_good(high: u8, low: u8, interval: u8) -> bool
    ensures { result ≡ settings_good high low interval }
{
    let a = state::in_range(high);
    let b = state::in_range(low);
    let h = state::level_of(high);
    let l = state::level_of(low);
    a & b & (l <= h) & (1 <= interval) & (interval <= 0x3C)
}

// The status that a condition gives: its type, its form, its length.
fn condition_status(kind: u8, condition: &[u8]) -> Result<(), Status>
    ensures { status_of result ≡ condition_fault kind condition.now }
{
    let form = advert::condition_form(kind, condition);
    if advert::status_of(form) != 0 {
        return Err(Status::Invalid);
    }
    if State::CONDITION < condition.len() {
        return Err(Status::Full);
    }
    Ok(())
}

// Whether these are the parameters that version 2 adds, and its tables allow them beside a sampling period and a
// condition's type: an option is set; a key where one is asked for; one device named, not two; duplicates filtered
// without sampling alone; the peer's address type 0 or 1.
pub fn is_allowed(added: &[u8], sampling: u8, kind: u8) -> bool
    ensures { result ≡ (eqb (length added.now) extra_size && allowed added.now sampling kind) }
{
    if added.len() != State::EXTRA {
        return false;
    }
    let options = added[0];
    let keyless = parts::zeros(&added[State::EXTRA - State::IRK..]);
    let keyed = (options / 2 % 2 == 1) | (options / 8 % 2 == 1);
    let named = (kind == 3) | (kind == 4);
    let sifts = added[1] % 2 == 1;
    let two = (options % 16 != 0) & named;
    let sampled = sifts & (sampling != 0);
    (options % 64 != 0) & !(keyed & keyless) & !two & !sampled & (added[8] <= 1)
}

// Whether a sub-opcode is that of a monitor's command: 03, or 0F, version 2.
pub fn is_add(sub: u8) -> bool
    ensures { result ≡ adds_by sub }
{
    (sub == 0x03) | (sub == 0x0F)
}

// The place of the condition's type in the parameters of a monitor's command.
pub fn type_at(sub: u8) -> usize
    ensures { result ≡ type_by sub }
{
    if sub == 0x0F {
        return 30;
    }
    5
}

// Whether what version 2 adds is allowed; version 1 adds nothing.
fn permitted(params: &[u8], at: usize) -> bool
    requires { (at ≡ type_in params.now) × (5 ≤ at) × (at < length params.now) }
    ensures { result ≡ permits params.now }
{
    if params[0] == 0x0F {
        return is_allowed(&params[5..at], params[4], params[at]);
    }
    true
}

// The status that the settings of a monitor give.
fn fault(params: &[u8], at: usize) -> Result<(), Status>
    requires { (at ≡ type_in params.now) × (5 ≤ at) × (at < length params.now) }
    ensures { status_of result ≡ fault_of (monitor_of params.now) }
{
    let good = settings_good(params[1], params[2], params[3]);
    let may = permitted(params, at);
    if good & may {
        return condition_status(params[at], &params[at + 1..]);
    }
    Err(Status::Invalid)
}

// The status of 00: its length.
pub fn read_status(params: &[u8]) -> Result<(), Status>
    ensures { status_of result ≡ read_status params.now }
{
    if params.len() == params_of(0x00) {
        return Ok(());
    }
    Err(Status::Invalid)
}

// The status of 03 and 0F, where there is room for one more monitor or not; unknown for another sub-opcode.
pub fn add_status(params: &[u8], room: bool) -> Result<(), Status>
    ensures { status_of result ≡ add_of room params.now }
{
    let sub = octets::get8(params, 0);
    if !is_add(sub) {
        return Err(Status::Unknown);
    }
    if params.len() < params_of(sub) {
        return Err(Status::Invalid);
    }
    fault(params, type_at(sub))?;
    if room {
        return Ok(());
    }
    Err(Status::Full)
}

// The status of 04, where its handle is live or not.
pub fn cancel_status(params: &[u8], live: bool) -> Result<(), Status>
    ensures { status_of result ≡ cancel_of live params.now }
{
    if params.len() == params_of(0x04) {
        if live {
            return Ok(());
        }
    }
    Err(Status::Invalid)
}

// The status of 05 at the present setting of the filter.
pub fn enable_status(params: &[u8], filter: u8) -> Result<(), Status>
    ensures { status_of result ≡ enable_of filter params.now }
{
    if params.len() != params_of(0x05) {
        return Err(Status::Invalid);
    }
    let on = octets::get8(params, 1);
    if 1 < on {
        return Err(Status::Invalid);
    }
    if on == filter {
        return Err(Status::Disallowed);
    }
    Ok(())
}
