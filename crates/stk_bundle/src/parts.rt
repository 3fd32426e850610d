// Bundles that are read: their lines with their blocks.
ghost use Rattle.std.specs.Prelude.{◌≡◌, ◌+◌, map, IfOk, IfErr};
ghost use Rattle.stk_bundle.specs.Blocks.{line_count};
ghost use Rattle.stk_bundle.specs.declared.parts.PartFault.TheVariants as faults;
ghost use Rattle.stk_bundle.specs.Bundles.{block_lines, line_block, NoLineStands, IsBlockShort, IsNextPart, AreParts, EndsSo};

use crate::block::{block_of, line_count};
use crate::{BundleLine, Stage, read_line};
use std::alloc::Global;
use stk_base::NoMemory;
use stk_line_reading::first_line;
use stk_proofs::Text;

/// A line of a bundle, and the block behind it: so many lines as it says, each with its newline. Where it says none,
/// the block is empty.
#[derive(Drop)]
pub struct Part<'a> {
    pub line: BundleLine,
    pub block: &'a [u8],
}

/// A part that a text begins with, the stage behind it, and what comes behind it.
#[derive(Drop)]
pub struct NextPart<'a> {
    pub part: Part<'a>,
    pub stage: Stage,
    pub rest: &'a [u8],
}

/// Why a part isn't read.
#[derive(Clone, Copy, Debug, PartialEq, Eq)]
pub enum PartFault {
    /// No line comes that may stand there.
    Line,
    /// The block of the line isn't all there.
    Block,
    /// An allocation was refused.
    NoMemory,
}

/// How many lines the block behind a line has.
fn block_lines(line: &BundleLine) -> u64
    ensures { result ≡ block_lines line.now }
{
    match line {
        BundleLine::Clauses { lines } | BundleLine::Steps { lines } => *lines,
        _ => 0,
    }
}

/// The part that a text begins with at a stage: a line that may stand there, and its block.
pub fn next_part(alloc: Global, stage: Stage, text: &[u8]) -> Result<NextPart<'_>, PartFault>
    ensures ok { IfOk result (λ x. IsNextPart stage text.now (line_block x.part) x.stage x.rest.now) }
    ensures line { IfErr result (λ fault. fault ≡ faults.Line → NoLineStands stage text.now) }
    ensures block { IfErr result (λ fault. fault ≡ faults.Block → IsBlockShort stage text.now) }
{
    let Some((first, behind)) = first_line(text) else {
        return Err(PartFault::Line);
    };
    let line = match read_line(alloc, first) {
        Ok(line) => line,
        Err(Text::Bad) => return Err(PartFault::Line),
        Err(Text::NoMemory) => return Err(PartFault::NoMemory),
    };
    let Some(next) = stage.next(&line) else {
        return Err(PartFault::Line);
    };
    let Some((block, rest)) = block_of(behind, block_lines(&line)) else {
        return Err(PartFault::Block);
    };
    Ok(NextPart {
        part: Part { line, block },
        stage: next,
        rest,
    })
}

/// A bundle that was read as far as it goes.
#[derive(Drop)]
pub struct Reading<'a> {
    /// Its parts in order, each where it may stand.
    pub parts: Vec<Part<'a>>,
    /// How far they come.
    pub stage: Stage,
    /// What comes behind them.
    pub rest: &'a [u8],
    /// The first line that fails, counted from 1; `None` exactly where the line `end` came.
    pub failing: Option<u64>,
}

/// The number of the line behind those that were passed.
fn number_behind(passed: &[u8]) -> u64
    ensures { result ≡ line_count passed.now + 1 }
{
    line_count(passed) as u64 + 1
}

/// Reads a bundle up to its line `end`, or to the first line that fails: that isn't a line that may stand where it
/// stands, or is the one behind all that are there of a block.
pub fn read_bundle(alloc: Global, text: &[u8]) -> Result<Reading<'_>, NoMemory>
    ensures parts { IfOk result (λ r. AreParts text.now (map line_block r.parts.items) r.stage r.rest.now) }
    ensures end { IfOk result (λ r. EndsSo text.now (map line_block r.parts.items) r.stage r.rest.now r.failing) }
{
    let mut parts = Vec::new(alloc);
    let mut stage = Stage::Start;
    let mut rest = text;
    'lines: while !stage.is_ended() {
        match next_part(alloc, stage, rest) {
            Ok(next) => {
                parts.push(next.part)?;
                stage = next.stage;
                rest = next.rest;
            }
            Err(PartFault::Line) => {
                let (passed, _) = text.split_at(text.len() - rest.len());
                let failing = Some(number_behind(passed));
                return Ok(Reading {
                    parts,
                    stage,
                    rest,
                    failing,
                });
            }
            Err(PartFault::Block) => {
                let failing = Some(number_behind(text));
                return Ok(Reading {
                    parts,
                    stage,
                    rest,
                    failing,
                });
            }
            Err(PartFault::NoMemory) => return Err(NoMemory),
        }
    }
    Ok(Reading {
        parts,
        stage,
        rest,
        failing: None,
    })
}
