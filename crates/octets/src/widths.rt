// `Little` for numbers of 1, 2, 4 and 8 octets. Where the octets end too early, 0 is read and nothing is written.
ghost use Rattle.std.specs.Prelude.{◌+◌, ◌≤◌, ◌≡◌, length, leb};
ghost use Rattle.laws.specs.Put.{put, put_if};
ghost use Rattle.octets.specs.Little.{little, octets_of};
ghost use Rattle.octets.specs.Numbers.{number_at};

use super::{Little, get8, get16, get32, get64, put8, put16, put32, put64};

impl Little for u8 {
    ghost number = { λ x. x };

    ghost WIDTH = { 1 };

    const WIDTH: usize = 1;

    fn zero() -> u8 {
        0
    }

    fn read(s: &[u8], at: usize) -> u8
        ensures { (at + 1 ≤ length s.now → result ≡ little 1 s.now at) × (result ≡ number_at 1 s.now at) }
    {
        get8(s, at)
    }

    fn write(self, out: &mut [u8], at: usize)
        ensures { (at + 1 ≤ length out.old → out.new ≡ put out.old at (octets_of 1 self))
            × (out.new ≡ put_if (leb (at + 1) (length out.old)) out.old at (octets_of 1 self)) }
    {
        put8(out, at, self);
    }
}

impl Little for u16 {
    ghost number = { λ x. x };

    ghost WIDTH = { 2 };

    const WIDTH: usize = 2;

    fn zero() -> u16 {
        0
    }

    fn read(s: &[u8], at: usize) -> u16
        ensures { (at + 2 ≤ length s.now → result ≡ little 2 s.now at) × (result ≡ number_at 2 s.now at) }
    {
        get16(s, at)
    }

    fn write(self, out: &mut [u8], at: usize)
        ensures { (at + 2 ≤ length out.old → out.new ≡ put out.old at (octets_of 2 self))
            × (out.new ≡ put_if (leb (at + 2) (length out.old)) out.old at (octets_of 2 self)) }
    {
        put16(out, at, self);
    }
}

impl Little for u32 {
    ghost number = { λ x. x };

    ghost WIDTH = { 4 };

    const WIDTH: usize = 4;

    fn zero() -> u32 {
        0
    }

    fn read(s: &[u8], at: usize) -> u32
        ensures { (at + 4 ≤ length s.now → result ≡ little 4 s.now at) × (result ≡ number_at 4 s.now at) }
    {
        get32(s, at)
    }

    fn write(self, out: &mut [u8], at: usize)
        ensures { (at + 4 ≤ length out.old → out.new ≡ put out.old at (octets_of 4 self))
            × (out.new ≡ put_if (leb (at + 4) (length out.old)) out.old at (octets_of 4 self)) }
    {
        put32(out, at, self);
    }
}

impl Little for u64 {
    ghost number = { λ x. x };

    ghost WIDTH = { 8 };

    const WIDTH: usize = 8;

    fn zero() -> u64 {
        0
    }

    fn read(s: &[u8], at: usize) -> u64
        ensures { (at + 8 ≤ length s.now → result ≡ little 8 s.now at) × (result ≡ number_at 8 s.now at) }
    {
        get64(s, at)
    }

    fn write(self, out: &mut [u8], at: usize)
        ensures { (at + 8 ≤ length out.old → out.new ≡ put out.old at (octets_of 8 self))
            × (out.new ≡ put_if (leb (at + 8) (length out.old)) out.old at (octets_of 8 self)) }
    {
        put64(out, at, self);
    }
}
