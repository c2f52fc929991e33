// What `get`, `put` and `Little` give a caller who names a type: numbers worked out by hand, and a type of its own.
ghost use Rattle.std.specs.Prelude.{◌+◌, ◌≡◌};

use super::{Little, get, put};

// The number of a company, which is no number to count with.
#[derive(Clone, Copy, Drop)]
struct Company(u16);

impl Little for Company {
    ghost number = { λ x. x.0 };

    ghost WIDTH = { 2 };

    const WIDTH: usize = 2;

    fn zero() -> Company {
        Company(0)
    }

    fn read(s: &[u8], at: usize) -> Company {
        Company(u16::read(s, at))
    }

    fn write(self, out: &mut [u8], at: usize) {
        self.0.write(out, at);
    }
}

// A number that stands at an index, at the last place and a place too far.
#[test]
fn reads(rt: HostRuntime) {
    let s = [1, 2, 3, 4, 5, 6, 7, 8, 9];
    assert_eq!(rt; get::<u8>(&s, 8), 9);
    assert_eq!(rt; get::<u8>(&s, 9), 0);
    assert_eq!(rt; get::<u16>(&s, 0), 0x0201);
    assert_eq!(rt; get::<u16>(&s, 8), 0);
    assert_eq!(rt; get::<u32>(&s, 5), 0x09080706);
    assert_eq!(rt; get::<u32>(&s, 6), 0);
    assert_eq!(rt; get::<u64>(&s, 1), 0x0908070605040302);
    assert_eq!(rt; get::<Company>(&s, 3).0, 0x0504);
    assert_eq!(rt; get::<Company>(&s, 8).0, 0);
    assert_eq!(rt; u16::read(&s, 7), 0x0908);
    let none: fn() -> u64 = u64::zero;
    assert_eq!(rt; none(), 0);
}

// A number written at an index; where it would reach past the end, nothing is.
#[test]
fn writes(rt: HostRuntime) {
    let mut t = [0; <u32 as Little>::WIDTH + 1];
    assert!(rt; put(&mut t, 0, 0x04030201u32));
    assert!(rt; !put(&mut t, 2, 0x0807060504030201u64));
    assert!(rt; !put(&mut t, 4, Company(0xFFFF)));
    assert!(rt; put(&mut t, 4, 5u8));
    assert_eq!(rt; t, [1, 2, 3, 4, 5]);
    assert!(rt; put(&mut t, 1, Company(0x004C)));
    0x0908u16.write(&mut t, 3);
    assert_eq!(rt; t, [1, 0x4C, 0, 8, 9]);
    let mut wide = [0; 9];
    assert!(rt; put(&mut wide, 1, 0x0807060504030201u64));
    assert_eq!(rt; wide, [0, 1, 2, 3, 4, 5, 6, 7, 8]);
}
