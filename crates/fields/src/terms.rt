// Names of numbers: AD types, event types, statuses, sub-opcodes, reasons, refusals; the prefix of events.
ghost use Rattle.std.specs.Prelude.{◌≡◌};
ghost use Rattle.names.specs.Refusals.{refusal_name};
ghost use Rattle.words.specs.Says.{Says};
ghost use Rattle.fields.specs.Names.{ad_text, event_text, status_text, sub_text, why_text, switch_text, change_word, prefix_text};

use words::ROOM;

// AD types (Assigned Numbers of the Bluetooth SIG).
const AD: [u8; 506] = *b"\x01\x05flags\
\x02\x17incomplete 16-bit UUIDs\
\x03\x15complete 16-bit UUIDs\
\x04\x17incomplete 32-bit UUIDs\
\x05\x15complete 32-bit UUIDs\
\x06\x18incomplete 128-bit UUIDs\
\x07\x16complete 128-bit UUIDs\
\x08\x0Eshortened name\
\x09\x0Dcomplete name\
\x0A\x08Tx power\
\x0D\x0Fclass of device\
\x10\x09device id\
\x12\x19connection interval range\
\x14\x16solicited 16-bit UUIDs\
\x15\x17solicited 128-bit UUIDs\
\x16\x0Cservice data\
\x17\x15public target address\
\x18\x15random target address\
\x19\x0Aappearance\
\x1A\x14advertising interval\
\x1B\x0Edevice address\
\x1C\x07LE role\
\x1F\x16solicited 32-bit UUIDs\
\x20\x0Cservice data\
\x21\x0Cservice data\
\x24\x03URI\
\x27\x0BLE features\
\xFF\x11manufacturer data";

// Event types, as the Core Specification names them.
const EVENT_TYPES: [u8; 66] = *b"\x00\x07ADV_IND\
\x01\x0EADV_DIRECT_IND\
\x02\x0CADV_SCAN_IND\
\x03\x0FADV_NONCONN_IND\
\x04\x08SCAN_RSP";

// Statuses.
const STATUSES: [u8; 67] = *b"\x00\x07success\
\x01\x0Funknown command\
\x07\x07no room\
\x0C\x0Adisallowed\
\x12\x12invalid parameters";

// Sub-opcodes as their commands.
const COMMANDS: [u8; 89] = *b"\x00\x0Dread features\
\x03\x0Dadd a monitor\
\x04\x10cancel a monitor\
\x05\x0Denable filter\
\x0F\x18add a monitor, version 2";

// Why a line is none.
#[derive(Clone, Copy)]
pub enum Fault {
    Empty,
    Long,
    NoDigits,
    NoKind,
    ShortFrame,
    NoFrame,
    NoForm,
}

impl Fault {
    // In words.
    fn text(self) -> &'static [u8]
        ensures { result.now ≡ why_text self }
    {
        match self {
            Fault::Empty => b"empty",
            Fault::Long => b"too long",
            Fault::NoDigits => b"not upper-case hexadecimal",
            Fault::NoKind => b"no known kind",
            Fault::ShortFrame => b"under 5 octets",
            Fault::NoFrame => b"payload not of its kind's form",
            Fault::NoForm => b"not of its kind's form",
        }
    }
}

// An AD type.
pub fn ad(out: &mut [u8; ROOM], at: usize, x: u8) -> usize
    ensures { Says out.old at (ad_text x) out.new result }
{
    words::name(out, at, &AD, b"AD type 0x", x)
}

// An event type.
pub fn event_type(out: &mut [u8; ROOM], at: usize, x: u8) -> usize
    ensures { Says out.old at (event_text x) out.new result }
{
    words::name(out, at, &EVENT_TYPES, b"event type 0x", x)
}

// A status.
pub fn status(out: &mut [u8; ROOM], at: usize, x: u8) -> usize
    ensures { Says out.old at (status_text x) out.new result }
{
    words::name(out, at, &STATUSES, b"status 0x", x)
}

// A sub-opcode as its command.
pub fn sub(out: &mut [u8; ROOM], at: usize, x: u8) -> usize
    ensures { Says out.old at (sub_text x) out.new result }
{
    words::name(out, at, &COMMANDS, b"sub-opcode 0x", x)
}

// Why a line is none.
pub fn why(out: &mut [u8; ROOM], at: usize, x: Fault) -> usize
    ensures { Says out.old at (why_text x) out.new result }
{
    words::put(out, at, x.text())
}

// A refusal in words.
pub fn refusal(out: &mut [u8; ROOM], at: usize, x: u8) -> usize
    ensures { Says out.old at (refusal_name x) out.new result }
{
    words::put(out, at, names::find(&names::REFUSALS, x))
}

// Whether the filter is on.
pub fn switch(out: &mut [u8; ROOM], at: usize, x: u8) -> usize
    ensures { Says out.old at (switch_text x) out.new result }
{
    if x == 0 {
        return words::put(out, at, b"off");
    }
    words::put(out, at, b"on")
}

// A start or a stop.
pub fn change(out: &mut [u8; ROOM], at: usize, x: u8) -> usize
    ensures { Says out.old at (change_word x) out.new result }
{
    if x == 0 {
        return words::put(out, at, b"stop:");
    }
    words::put(out, at, b"start:")
}

// The prefix of events.
pub fn prefix(out: &mut [u8; ROOM], at: usize, s: &[u8]) -> usize
    ensures { Says out.old at (prefix_text s.now) out.new result }
{
    if s.len() == 0 {
        return words::put(out, at, b", no prefix");
    }
    words::hex(out, at, b", prefix ", s)
}
