// What is seen of the calls of a script: of each the octets that it wrote, how many these are, the number of its
// refusal, and whether the rest of the output that it was lent stayed as it was.
use refusals::Refusal;

// What every octet of a lent output holds before a call.
const BEFORE: u8 = 0xA5;

// What was seen of a script so far: the digest, how many calls, how many octets they wrote.
#[derive(Clone, Copy)]
pub struct Tally {
    pub digest: u64,
    pub calls: u64,
    pub count: u64,
}

// What was seen of one call so far: the digest carried on, how many octets it wrote, whether the rest stayed.
#[derive(Clone, Copy)]
pub struct Written {
    pub digest: u64,
    pub count: u64,
    pub kept: bool,
}

// A digest carried on over the four octets of a number.
fn number(from: u64, n: u64) -> u64 {
    let two = vectors::mix(vectors::mix(from, n), n / 256);
    vectors::mix(vectors::mix(two, n / 65536), n / 16777216)
}

// Nothing seen yet of a script.
pub(super) fn begin() -> Tally {
    Tally {
        digest: 0,
        calls: 0,
        count: 0,
    }
}

// Nothing seen yet of a call.
pub(super) fn opened(t: Tally) -> Written {
    Written {
        digest: t.digest,
        count: 0,
        kept: true,
    }
}

// Makes an output ready for a call.
pub(super) fn mark(out: &mut [u8]) {
    out.fill(BEFORE);
}

// The first n octets of an output were written. More than the output has are seen as a rest that did not stay.
pub(super) fn took(w: Written, out: &[u8], n: usize) -> Written {
    match out.split_at_checked(n) {
        Some((written, rest)) => Written {
            digest: vectors::digest(w.digest, written),
            count: vectors::add(w.count, n as u64),
            kept: rest.iter().all(|x| *x == BEFORE) && w.kept,
        },
        None => Written {
            digest: w.digest,
            count: w.count,
            kept: false,
        },
    }
}

// A call is over, with the number of its refusal, 0 for none.
pub(super) fn closed(t: Tally, w: Written, refusal: u8) -> Tally {
    let d = vectors::mix(number(w.digest, w.count), u64::from(refusal));
    Tally {
        digest: vectors::mix(d, u64::from(w.kept)),
        calls: vectors::add(t.calls, 1),
        count: vectors::add(t.count, w.count),
    }
}

// A call that is lent nothing, and what it answered.
pub(super) fn bare(t: Tally, answer: Result<(), Refusal>) -> Tally {
    closed(t, opened(t), vectors::number_of(answer))
}

// A call that is lent an output, and what it answered.
pub(super) fn answered(t: Tally, out: &[u8], r: Result<usize, Refusal>) -> Tally {
    match r {
        Ok(n) => closed(t, took(opened(t), out, n), 0),
        Err(x) => closed(t, took(opened(t), out, 0), u8::from(x)),
    }
}
