//! Numbers that are stored and read back; cells at addresses that differ.

use std::test::Fail;
use stk_base::List;
use stk_ctype::IntKind;
use stk_memory::{Bytes, Cell, MemoryImage, are_apart};

/// What is stored where, and what is read there in a kind.
struct Case {
    stored: IntKind,
    number: i128,
    read: IntKind,
    found: i128,
}

/// In a memory of bytes 255.
static CASES: [Case; 7] = [
    Case {
        stored: IntKind::Int,
        number: -2,
        read: IntKind::UInt,
        found: 4_294_967_294,
    },
    Case {
        stored: IntKind::Int,
        number: 258,
        read: IntKind::UChar,
        found: 2,
    },
    Case {
        stored: IntKind::UChar,
        number: 258,
        read: IntKind::Short,
        found: -254,
    },
    Case {
        stored: IntKind::Bool,
        number: 258,
        read: IntKind::SChar,
        found: 1,
    },
    Case {
        stored: IntKind::Char,
        number: 0,
        read: IntKind::Bool,
        found: 0,
    },
    Case {
        stored: IntKind::Char,
        number: 6,
        read: IntKind::Bool,
        found: 1,
    },
    Case {
        stored: IntKind::ULLong,
        number: -1,
        read: IntKind::Long,
        found: -1,
    },
];

#[test]
fn numbers_are_stored_and_read(rt: HostRuntime) -> Result<(), Fail> {
    for case in &CASES {
        let image = MemoryImage {
            fill: 255,
            cells: List::from_vec(Vec::new(rt.alloc())),
        };
        let mut memory = Bytes::of(rt.alloc(), &image)?;
        memory.store(case.stored, 40, case.number)?;
        assert!(rt; memory.number_at(case.read, 40) == case.found);
    }
    Ok(())
}

// A number may lie over the last address and the first.
#[test]
fn cells_are_the_memory(rt: HostRuntime) -> Result<(), Fail> {
    let mut cells = Vec::new(rt.alloc());
    cells.push(Cell {
        at: u64::MAX,
        byte: 1,
    })?;
    cells.push(Cell { at: 0, byte: 2 })?;
    let image = MemoryImage {
        fill: 0,
        cells: List::from_vec(cells),
    };
    let mut memory = Bytes::of(rt.alloc(), &image)?;
    assert!(rt; memory.number_at(IntKind::Int, u64::MAX) == 513);
    memory.put_all(&[Cell { at: 1, byte: 3 }, Cell { at: 1, byte: 4 }])?;
    assert!(rt; memory.number_at(IntKind::Int, u64::MAX) == 262_657);
    Ok(())
}

/// Addresses of cells, and whether they all differ.
struct Addresses {
    all: &'static [u64],
    are_apart: bool,
}

static ADDRESSES: [Addresses; 4] = [
    Addresses {
        all: &[],
        are_apart: true,
    },
    Addresses {
        all: &[0, u64::MAX, 7],
        are_apart: true,
    },
    Addresses {
        all: &[7, 8, 7],
        are_apart: false,
    },
    Addresses {
        all: &[u64::MAX, 3, 4, 4],
        are_apart: false,
    },
];

#[test]
fn addresses_that_differ_are_apart(rt: HostRuntime) -> Result<(), Fail> {
    for addresses in &ADDRESSES {
        let mut cells = Vec::new(rt.alloc());
        for at in addresses.all {
            cells.push(Cell { at: *at, byte: 5 })?;
        }
        assert!(rt; are_apart(rt.alloc(), cells.as_slice())? == addresses.are_apart);
    }
    Ok(())
}
