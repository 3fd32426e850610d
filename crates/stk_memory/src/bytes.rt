//! A memory that is read and written.

ghost use Rattle.std.specs.Prelude.{◌≡◌, ◌≤◌, ◌<◌, ◌^◌, IfOk, OnOk};
ghost use Rattle.stk_meaning.specs.Memory.{put, read_bytes, write_bytes, put_all};
ghost use Rattle.stk_memory.specs.Image.{memory_of, image_memory, writes_of, AreApart};

use crate::image::{Cell, MemoryImage};
use indexmap::IndexMap;
use std::alloc::Global;
use stk_base::NoMemory;

/// The bytes that are known, and the byte that stands at each other address. A read takes constant time.
#[derive(Drop)]
pub struct Bytes {
    pub fill: u8,
    pub cells: IndexMap<u64, u8>,
}

impl Bytes {
    /// The byte at an address.
    fn byte(&self, at: u64) -> u8
        ensures { result ≡ memory_of self.now at }
    {
        match self.cells.get(&at) {
            Some(byte) => *byte,
            None => self.fill,
        }
    }

    /// Puts a byte at an address.
    fn put(&mut self, at: u64, byte: u8) -> Result<(), NoMemory>
        ensures { OnOk result (memory_of self.new ≡ put at byte (memory_of self.old)) }
    {
        self.cells.insert(at, byte)?;
        Ok(())
    }

    /// The number of so many bytes from an address on, the lowest one first; address 0 follows the last
    /// one.
    pub(crate) fn read(&self, size: u8, at: u64) -> u64
        requires { size ≤ 8 }
        ensures value { result ≡ read_bytes size at (memory_of self.now) }
        ensures below { result < 256 ^ size }
    {
        if size == 0 {
            return 0;
        }
        let low = u64::from(self.byte(at));
        let high = self.read(size - 1, at.wrapping_add(1));
        low + 256 * high
    }

    /// Writes a number as so many bytes from an address on, the lowest one first.
    pub(crate) fn write(&mut self, size: u8, at: u64, number: u64) -> Result<(), NoMemory>
        ensures { OnOk result (memory_of self.new ≡ write_bytes size at number (memory_of self.old)) }
    {
        if size == 0 {
            return Ok(());
        }
        self.write(size - 1, at.wrapping_add(1), number / 256)?;
        self.put(at, (number % 256) as u8)
    }

    /// Puts bytes that the outside writes, in order.
    pub fn put_all(&mut self, cells: &[Cell]) -> Result<(), NoMemory>
        ensures { OnOk result (memory_of self.new ≡ put_all (writes_of cells.now) (memory_of self.old)) }
    {
        for cell in cells {
            self.put(cell.at, cell.byte)?;
        }
        Ok(())
    }

    /// The memory of an image.
    pub fn of(alloc: Global, image: &MemoryImage) -> Result<Bytes, NoMemory>
        requires { AreApart image.now.cells }
        ensures { IfOk result (λ m. memory_of m ≡ image_memory image.now) }
    {
        let mut bytes = Bytes {
            fill: image.fill,
            cells: IndexMap::new(alloc),
        };
        bytes.put_all(image.cells.as_slice())?;
        Ok(bytes)
    }
}
