// Names of numbers: a table has a row for each, its number, how many characters its name has, and they. The words of
// refusals stand here once.
#![tactic(auto)]

ghost use Rattle.std.specs.Prelude.{◌+◌, ◌-◌, ◌≤◌, ◌<◌, ◌≡◌, length};
ghost use Rattle.names.specs.Names.{name_in};
ghost use Rattle.names.specs.Refusals.{refusal_name};

// The refusals.
pub const REFUSALS: [u8; 259] = *b"\x01\x0Bseen before\
\x02\x03gap\
\x03\x10output too short\
\x04\x0Anot a line\
\x05\x1Epayload not of its kind's form\
\x06\x0Eanother opcode\
\x07\x16the state is not sound\
\x09\x15settings out of range\
\x0A\x1Dnot an image of a sound state\
\x0D\x15list of editions full\
\x0E\x2Bnumber not rising or not above the position\
\x0F\x0Fprefix too long";

// The name of a number in a table: none where it has no row.
pub fn find<'a>(table: &'a [u8], x: u8) -> &'a [u8]
    ensures { result.now ≡ name_in table.now x }
{
    let n = table.len();
    let mut i = 0;
    // Kept: a walk, for a row says itself how long its name is.
    while i < n {
        if n - i < 2 {
            return &table[..0];
        }
        let from = i + 2;
        let k = octets::wide(table[i + 1]);
        if n - from < k {
            return &table[..0];
        }
        if table[i] == x {
            return &table[from..from + k];
        }
        i = from + k;
    }
    &table[..0]
}
