//! A script as data.

use stk_base::List;
use stk_memory::{MemoryImage, Reply};

/// Which execution is replayed: the name of the function, the text of its start as records print starts, the memory,
/// the answers of the outside, and how many turns each loop takes at most.
///
/// As text it is the lines `function NAME`, `start START` and `fill B`, a line `byte A B` for each cell of the memory,
/// a line `reply N A B ..` for each answer, with the bytes that it writes, and the lines `turns N` and `end`. One space
/// stands between two fields, and a number is decimal digits without a leading zero; that of an answer is from -2^63 to
/// 2^64 - 1.
#[derive(Debug, Drop)]
pub struct Script {
    pub function: List<u8>,
    pub start: List<u8>,
    pub memory: MemoryImage,
    pub replies: List<Reply>,
    pub turns: u32,
}
