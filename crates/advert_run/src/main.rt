// Runs vectors for the form and the match of conditions. Standard input holds a vector a line, its fields in
// hexadecimal with a blank between them: condition type, condition, address type, address, advertisement, scan
// response. Other lines are passed over. For each vector a line is written: 0 well formed, 1 malformed, 2 unknown;
// then, for a well-formed condition, 1 if the packet matches and 0 if not, and a dash for any other. The vectors and
// their answers are made by vectors.py, an independent program written from documents 01 and 02; there each answer is
// worked out by hand too, and the two are compared.
#![tactic(auto)]

ghost use Rattle.std.specs.Prelude.{◌≤◌, length};

use advert::FormError;

// The octets of a field, as many as there are pairs of digits and places for them, and what stands behind its blank.
fn field<'a, 'b>(text: &'a [u8], out: &'b mut [u8]) -> (&'b [u8], &'a [u8])
    ensures { length result.0.now ≤ length out.old }
{
    let n = reader::read_pairs(text, 0, out);
    let octets = out.get(..n).unwrap_or(&[]);
    let rest = text.get(2 * octets.len() + 1..).unwrap_or(&[]);
    (octets, rest)
}

fn answer<'a, 'b, 'c>(
    kind: u8,
    condition: &'b [u8],
    address_type: u8,
    address: &'c [u8],
    adv: &'a [u8],
    scan: &'a [u8],
) {
    let f = advert::condition_form(kind, condition);
    let m = advert::match_packet(kind, condition, address_type, address, adv, scan);
    let (number, sign) = match f {
        Ok(()) => (b'0', b'0' + u8::from(m)),
        Err(FormError::Malformed) => (b'1', b'-'),
        Err(FormError::Unknown) => (b'2', b'-'),
    };
    io::write_all(1, &[number, sign, b'\n']);
}

// One vector, read from the line that a text begins with.
fn vector(text: &[u8]) {
    let mut kind = [0u8; 1];
    let mut condition = [0u8; 280];
    let mut address_type = [0u8; 1];
    let mut address = [0u8; 16];
    let mut adv = [0u8; 280];
    let mut scan = [0u8; 280];
    let (_, behind_kind) = field(text, &mut kind);
    let (c, behind_condition) = field(behind_kind, &mut condition);
    let (_, behind_type) = field(behind_condition, &mut address_type);
    let (a, behind_address) = field(behind_type, &mut address);
    let (v, behind_adv) = field(behind_address, &mut adv);
    let (s, _) = field(behind_adv, &mut scan);
    answer(kind[0], c, address_type[0], a, v, s);
}

// The line that a text begins with; a vector begins with a digit.
fn line(text: &[u8]) {
    if let [b'0'..=b'9' | b'A'..=b'F', ..] = text {
        vector(text);
    }
}

fn main() {
    let mut buffer = io::large_buffer();
    let n = io::read_full(0, &mut buffer);
    let mut rest = &buffer[..n];
    while let Some(end) = rest.iter().position(|c| *c == lines::LF) {
        line(rest);
        rest = &rest[end + 1..];
    }
}
