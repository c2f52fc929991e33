// Runs vectors for the cost of a match (document 02, T-08). Standard input holds a vector a line, 129 octets in
// hexadecimal: the length of a pattern condition and 64 octets, the length of an advertisement and 31 octets, the
// length of a scan response and 31 octets, each padded with zeros. For each vector a line is written: 1 if the packet
// matches and 0 if not, and how many comparisons it took. Ends at a line of another length. vectors.py makes the
// vectors and the answers from the independent implementation.
#![tactic(auto)]

// Octets of a vector, and the characters of its line.
const VECTOR: usize = 129;

const LINE: usize = 259;

// Where the condition, the advertisement and the scan response begin, behind their lengths, and their most octets.
const CONDITION_AT: usize = 1;

const CONDITION: usize = 64;

const ADV_AT: usize = 66;

const SCAN_AT: usize = 98;

const TEXT: usize = 31;

// So many vectors are read at most.
const MOST: usize = 1000000;

fn answer(v: &[u8; VECTOR]) {
    let c = CONDITION_AT + octets::at_most(v[0], CONDITION);
    let a = ADV_AT + octets::at_most(v[65], TEXT);
    let s = SCAN_AT + octets::at_most(v[97], TEXT);
    let m = advert::match_cost(&v[CONDITION_AT..c], &v[ADV_AT..a], &v[SCAN_AT..s]);
    io::write_all(1, &[b'0' + u8::from(m.found), b' ']);
    io::print_decimal(1, m.comparisons as u64);
    io::write_all(1, b"\n");
}

// One line; nothing where it holds no vector.
fn vector(text: &[u8]) -> Option<()> {
    let mut octets = [0u8; VECTOR];
    if reader::take_text(text, &mut octets).ok()? != VECTOR {
        return None;
    }
    answer(&octets);
    Some(())
}

fn main() {
    let mut buffer = [0u8; LINE];
    for _ in 0..MOST {
        if io::read_full(0, &mut buffer) < LINE || vector(&buffer).is_none() {
            return;
        }
    }
}
