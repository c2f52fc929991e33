// Resolvable private addresses (Bluetooth Core Specification, Vol 3, Part H, 2.2.2; Vol 6, Part B, 1.3.2.3). Key and
// address are as a condition and a packet have them, the least octet first.
#![tactic(auto)]

ghost use Rattle.std.specs.Prelude.{◌+◌, ◌<◌, ◌≤◌, ◌≡◌, [], ◌∷◌, length, get_or};
ghost use Rattle.octets.specs.Little.{little};
ghost use Rattle.fips197.specs.Words.{octets};
ghost use Rattle.aes.specs.Blocks.{block_octets};
ghost use Rattle.resolve.specs.Resolve.{key_size, address_size, big_octets, key_of, prand_of, hash_of, ah, resolvable, resolves_by};

use aes::Block;

// Octets of an identity resolving key and of an address.
pub const KEY: usize = 16;

const ADDRESS: usize = 6;

// Four octets as a column, the last of them in row 0.
fn column(s: &[u8], at: usize) -> u32
    requires { at + 4 ≤ length s.now }
    ensures { octets result ≡ get_or s.now (at + 3) 0 ∷ get_or s.now (at + 2) 0
        ∷ get_or s.now (at + 1) 0 ∷ get_or s.now at 0 ∷ [] }
{
    let p = s[at];
    let q = s[at + 1];
    let u = s[at + 2];
    let v = s[at + 3];
    aes::column(v, u, q, p)
}

// A key as a block, the most significant octet first.
fn key_block(key: &[u8]) -> Block
    requires { length key.now ≡ key_size }
    ensures { block_octets result ≡ big_octets (key_of key.now) }
{
    let a = column(key, 12);
    let b = column(key, 8);
    let c = column(key, 4);
    let d = column(key, 0);
    Block { a, b, c, d }
}

// An address's prand under 104 zero bits, as a block.
fn prand_block(address: &[u8]) -> Block
    requires { length address.now ≡ address_size }
    ensures { block_octets result ≡ big_octets (prand_of address.now) }
{
    let d = aes::column(0, address[5], address[4], address[3]);
    Block {
        a: 0,
        b: 0,
        c: 0,
        d,
    }
}

// An address's hash.
fn hash(address: &[u8]) -> usize
    requires { length address.now ≡ address_size }
    ensures { result ≡ hash_of address.now }
{
    usize::from(address[0]) + 256 * usize::from(address[1]) + 65536 * usize::from(address[2])
}

// The function ah of a key and an address's prand.
fn hash_by(key: &[u8], address: &[u8]) -> usize
    requires { (length key.now ≡ key_size) × (length address.now ≡ address_size) }
    ensures { result ≡ ah (key_of key.now) (prand_of address.now) }
{
    let s = aes::encrypt(key_block(key), prand_block(address));
    let w = s.d;
    aes::octet3(w) + 256 * aes::octet2(w) + 65536 * aes::octet1(w)
}

// Whether an address is of six octets with the top two bits 01: of the random ones, the resolvable private ones.
pub fn is_resolvable(address: &[u8]) -> bool
    ensures { result ≡ resolvable address.now }
{
    if address.len() != ADDRESS {
        return false;
    }
    address[5] / 64 == 1
}

// Whether an address is a resolvable private one that this key resolves. The cipher runs only where the top two bits
// are 01.
pub fn resolves(key: &[u8], address: &[u8]) -> bool
    ensures { result ≡ resolves_by key.now address.now }
{
    if key.len() != KEY {
        return false;
    }
    if !is_resolvable(address) {
        return false;
    }
    hash(address) == hash_by(key, address)
}
