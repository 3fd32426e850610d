//! A fixed generator of numbers, and places for objects.

/// The state of a generator, and the address behind the objects that have one.
#[derive(Clone, Copy, Debug)]
pub(crate) struct Drawer {
    pub state: u64,
    pub free: u64,
}

// The bytes between objects.
const GAP: u64 = 64;

impl Drawer {
    /// A generator that begins with a number; the first object is to lie behind the first page.
    pub(crate) fn new(seed: u64) -> Drawer {
        Drawer {
            state: seed,
            free: 4096,
        }
    }

    /// The next number: that of a linear congruential generator modulo 2^64, by its higher bits.
    pub(crate) fn next(&mut self) -> u64 {
        self.state = self
            .state
            .wrapping_mul(6364136223846793005)
            .wrapping_add(1442695040888963407);
        self.state >> 11
    }

    /// A number that is likely to matter: a small one, one near a power of 2, or any.
    pub(crate) fn number(&mut self) -> i128 {
        let drawn = self.next();
        let kept = i128::from(drawn >> 3);
        match drawn % 8 {
            0 | 1 => kept % 8,
            2 => kept % 128,
            3 => 0 - kept % 128,
            4 => 1 << (kept % 64) as u32,
            5 => (1 << (kept % 64) as u32) - 1,
            _ => kept,
        }
    }

    /// An address behind the objects that have one, at a multiple of 64.
    pub(crate) fn place(&mut self, size: u64) -> u64 {
        let address = self.free;
        self.free = address.wrapping_add(size / GAP * GAP).wrapping_add(GAP);
        address
    }
}
