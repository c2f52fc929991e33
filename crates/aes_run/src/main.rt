// Runs vectors of AES-128 and of resolvable private addresses. Standard input holds lines of upper-case hexadecimal;
// the first octet says what a line is: 00 a key and a block, as FIPS 197 has them, for which the encrypted block is
// written; 01 a number of octets, a key of so many and an address, both the least octet first, for which 01 is written
// if the key resolves the address and 00 if not. Other lines are passed over. The answers are from FIPS 197, from the
// Core Specification and by OpenSSL (vectors.py).
#![tactic(auto)]

ghost use Rattle.std.specs.Prelude.{◌≤◌};

use aes::Block;

// The octets of a block, and where the key and the block stand in a line of them.
const BLOCK: usize = 16;

const KEY_AT: usize = 1;

const BLOCK_AT: usize = KEY_AT + BLOCK;

// Where the key's length and the key stand in a line of an address.
const LENGTH_AT: usize = 1;

const IRK_AT: usize = 2;

// The block that stands at an index; past the end octets count as 0.
fn block(o: &[u8], at: usize) -> Block
    requires { at ≤ 300 }
{
    Block {
        a: octets::get32(o, at),
        b: octets::get32(o, at + 4),
        c: octets::get32(o, at + 8),
        d: octets::get32(o, at + 12),
    }
}

fn encrypted(o: &[u8]) {
    let r = aes::encrypt(block(o, KEY_AT), block(o, BLOCK_AT));
    let mut out = [0u8; BLOCK];
    octets::put32(&mut out, 0, r.a);
    octets::put32(&mut out, 4, r.b);
    octets::put32(&mut out, 8, r.c);
    octets::put32(&mut out, 12, r.d);
    vectors::show(&out);
}

fn resolved(o: &[u8]) {
    let end = IRK_AT + octets::get8(o, LENGTH_AT) as usize;
    if end <= o.len() {
        let found = resolve::resolves(&o[IRK_AT..end], &o[end..]);
        vectors::show(&[u8::from(found)]);
    }
}

fn vector(o: &[u8]) {
    match o {
        [0, ..] => encrypted(o),
        [1, ..] => resolved(o),
        _ => {}
    }
}

fn line(text: &[u8]) {
    let mut octets = [0u8; 300];
    if let Ok(n) = reader::take_text(text, &mut octets) {
        if let Some(o) = octets.get(..n) {
            vector(o);
        }
    }
}

fn main() {
    let mut buffer = io::large_buffer();
    let n = io::read_full(0, &mut buffer);
    for text in buffer[..n].split_inclusive(|c| *c == lines::LF) {
        line(text);
    }
}
