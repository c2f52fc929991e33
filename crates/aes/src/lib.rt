// AES-128 encryption after FIPS 197. A column of the state is a number: its octet in row r is at place 256^r. Look-ups
// go by the octets of key and block, so the time of a call may depend on them.
#![tactic(auto)]

ghost use Rattle.std.specs.Prelude.{◌≡◌, [], ◌∷◌, map, ◌<◌};
ghost use Rattle.fips197.specs.Field.{xtimes, substitute};
ghost use Rattle.fips197.specs.Words.{octet, octets, sums, rotated};
ghost use Rattle.fips197.specs.Tables.{IsTable};
ghost use Rattle.fips197.specs.Cipher.{mix_column, mix_columns, shift_rows, sub_bytes, add_round_key, cipher};
ghost use Rattle.fips197.specs.Laws.{next_key};
ghost use Rattle.aes.specs.TablesLaws.{IsTable-prop};
ghost use Rattle.aes.specs.Blocks.{block_octets, sub_column};

mod sbox_table;

// The rounds that mix columns: all but the last.
const ROUNDS: u8 = 9;

// A block of 16 octets, by columns.
#[derive(Clone, Copy)]
pub struct Block {
    pub a: u32,
    pub b: u32,
    pub c: u32,
    pub d: u32,
}

// The substitution table, with the rule of its entries.
#[derive(Clone, Copy)]
struct Sbox {
    entries: [u8; 256],
    ghost is_table: { IsTable entries } by { IsTable-prop entries },
}

// The rule is proved for the whole table at once.
fn substitutes() -> Sbox {
    Sbox {
        entries: sbox_table::SBOX,
    }
}

// A column from its octets, row 0 first.
pub fn column(p: u8, q: u8, u: u8, v: u8) -> u32
    ensures { octets result ≡ p ∷ q ∷ u ∷ v ∷ [] }
{
    u32::from(p) + 256 * u32::from(q) + 65536 * u32::from(u) + 16777216 * u32::from(v)
}

// The octets of a column, by row.
fn octet0(w: u32) -> usize
    ensures { (result ≡ octet 0 w) × (result < 256) }
{
    (w % 256) as usize
}

pub fn octet1(w: u32) -> usize
    ensures { (result ≡ octet 1 w) × (result < 256) }
{
    (w / 256 % 256) as usize
}

pub fn octet2(w: u32) -> usize
    ensures { (result ≡ octet 2 w) × (result < 256) }
{
    (w / 65536 % 256) as usize
}

pub fn octet3(w: u32) -> usize
    ensures { (result ≡ octet 3 w) × (result < 256) }
{
    (w / 16777216 % 256) as usize
}

// A column whose row r is row r + 1, r + 2 and r + 3 of w, counted round.
fn turn1(w: u32) -> u32
    ensures { octets result ≡ rotated 1 (octets w) }
{
    w % 256 * 16777216 + w / 256
}

fn turn2(w: u32) -> u32
    ensures { octets result ≡ rotated 2 (octets w) }
{
    turn1(turn1(w))
}

fn turn3(w: u32) -> u32
    ensures { octets result ≡ rotated 3 (octets w) }
{
    turn1(turn2(w))
}

// FIPS 197, 4.1: two columns added.
fn sum(x: u32, y: u32) -> u32
    ensures { octets result ≡ sums (octets x) (octets y) }
{
    x ^ y
}

// FIPS 197, 4.2: the product with {02}.
fn double(x: u8) -> u8
    ensures { result ≡ xtimes x }
{
    (x % 128 * 2) ^ (x / 128 * 27)
}

// FIPS 197, 5.1.1: an octet's substitute, from the table.
fn sub(t: &Sbox, i: usize) -> u8
    requires { i < 256 }
    ensures { result ≡ substitute i }
{
    t.entries[i]
}

// A column of SubBytes and ShiftRows: row 0 of a, row 1 of b, row 2 of c, row 3 of d.
fn sub_word(t: &Sbox, a: u32, b: u32, c: u32, d: u32) -> u32
    ensures { octets result ≡ sub_column a b c d }
{
    let p = sub(t, octet0(a));
    let q = sub(t, octet1(b));
    let u = sub(t, octet2(c));
    let v = sub(t, octet3(d));
    column(p, q, u, v)
}

// The products of a column's octets with {02}, all four at once: what is above bit 7 of an octet is taken away before
// the bits move up.
fn double_word(w: u32) -> u32
    ensures { octets result ≡ map xtimes (octets w) }
{
    let high = w & 0x80808080;
    ((w - high) * 2) ^ (high / 128 * 27)
}

// FIPS 197, 5.1.3: a column of MixColumns.
fn mix_column(w: u32) -> u32
    ensures { octets result ≡ mix_column (octet 0 w) (octet 1 w) (octet 2 w) (octet 3 w) }
{
    let v = double_word(w);
    let u = turn1(sum(w, v));
    sum(sum(sum(v, u), turn2(w)), turn3(w))
}

// A column of SubBytes, ShiftRows and MixColumns.
fn mix_word(t: &Sbox, a: u32, b: u32, c: u32, d: u32) -> u32
    ensures { octets result ≡ mix_column (substitute (octet 0 a)) (substitute (octet 1 b)) (substitute (octet 2 c))
        (substitute (octet 3 d)) }
{
    mix_column(sub_word(t, a, b, c, d))
}

// FIPS 197, 5.1.4: AddRoundKey.
fn add_round_key(s: Block, k: Block) -> Block
    ensures { block_octets result ≡ add_round_key (block_octets s) (block_octets k) }
{
    let a = sum(s.a, k.a);
    let b = sum(s.b, k.b);
    let c = sum(s.c, k.c);
    let d = sum(s.d, k.d);
    Block { a, b, c, d }
}

// SubBytes, then ShiftRows.
fn sub_shift(t: &Sbox, s: Block) -> Block
    ensures { block_octets result ≡ shift_rows (sub_bytes (block_octets s)) }
{
    let a = sub_word(t, s.a, s.b, s.c, s.d);
    let b = sub_word(t, s.b, s.c, s.d, s.a);
    let c = sub_word(t, s.c, s.d, s.a, s.b);
    let d = sub_word(t, s.d, s.a, s.b, s.c);
    Block { a, b, c, d }
}

// SubBytes, then ShiftRows, then MixColumns.
fn mix_shift(t: &Sbox, s: Block) -> Block
    ensures { block_octets result ≡ mix_columns (shift_rows (sub_bytes (block_octets s))) }
{
    let a = mix_word(t, s.a, s.b, s.c, s.d);
    let b = mix_word(t, s.b, s.c, s.d, s.a);
    let c = mix_word(t, s.c, s.d, s.a, s.b);
    let d = mix_word(t, s.d, s.a, s.b, s.c);
    Block { a, b, c, d }
}

// FIPS 197, 5.2: the round key after k, with the first octet of the round constant.
fn next_key(t: &Sbox, k: Block, rc: u8) -> Block
    ensures { block_octets result ≡ next_key rc (block_octets k) }
{
    let w = turn1(k.d);
    let u = sum(sub_word(t, w, w, w, w), u32::from(rc));
    let a = sum(k.a, u);
    let b = sum(k.b, a);
    let c = sum(k.c, b);
    let d = sum(k.d, c);
    Block { a, b, c, d }
}

// FIPS 197, 5.1: the last round, which mixes no columns.
fn last_round(t: &Sbox, s: Block, k: Block) -> Block
    ensures { block_octets result ≡ add_round_key (shift_rows (sub_bytes (block_octets s))) (block_octets k) }
{
    add_round_key(sub_shift(t, s), k)
}

// The cipher, with the table lent.
fn encrypt_with(t: &Sbox, key: Block, block: Block) -> Block
    ensures { block_octets result ≡ cipher (block_octets key) (block_octets block) }
{
    let mut k = key;
    let mut s = add_round_key(block, key);
    let mut rc = 1u8;
    for n in 0u8..ROUNDS {
        k = next_key(t, k, rc);
        s = add_round_key(mix_shift(t, s), k);
        rc = double(rc);
    }
    last_round(t, s, next_key(t, k, rc))
}

// FIPS 197, 5.1: the cipher with a key of 128 bits.
pub fn encrypt(key: Block, block: Block) -> Block
    ensures { block_octets result ≡ cipher (block_octets key) (block_octets block) }
{
    let t = substitutes();
    encrypt_with(&t, key, block)
}
