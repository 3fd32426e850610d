//! Terms over two inputs of four bits, one for each operator.

ghost use Rattle.std.specs.Prelude.{◌≡◌, ◌<◌, length, IfOk, IfSome};
ghost use Rattle.stk_arith.specs.Rows.{AreEdges};

use std::alloc::Global;
use std::process::Abort;
use std::test::Fail;
use stk_base::{Bits, List, NoMemory};
use stk_blast::{blast, has_inputs, has_room};
use stk_gates::{Edge, Gates};
use stk_terms::{Residues, TermId, TermOp, Terms};

// Terms in the order in which they are made; each one's place is its row.
static TERMS: [(TermOp, &[TermId]); 27] = [
    (TermOp::Input(0), &[]),
    (TermOp::Input(1), &[]),
    (TermOp::Constant(4, 9), &[]),
    (TermOp::Not, &[TermId(0)]),
    (TermOp::Neg, &[TermId(0)]),
    (TermOp::And, &[TermId(0), TermId(1)]),
    (TermOp::Or, &[TermId(0), TermId(1)]),
    (TermOp::Xor, &[TermId(0), TermId(1)]),
    (TermOp::Add, &[TermId(0), TermId(1)]),
    (TermOp::Sub, &[TermId(0), TermId(1)]),
    (TermOp::Mul, &[TermId(0), TermId(1)]),
    (TermOp::UDiv, &[TermId(0), TermId(1)]),
    (TermOp::URem, &[TermId(0), TermId(1)]),
    (TermOp::Shl, &[TermId(0), TermId(1)]),
    (TermOp::LShr, &[TermId(0), TermId(1)]),
    (TermOp::AShr, &[TermId(0), TermId(1)]),
    (TermOp::Eq, &[TermId(0), TermId(1)]),
    (TermOp::ULt, &[TermId(0), TermId(1)]),
    (TermOp::SLt, &[TermId(0), TermId(1)]),
    (TermOp::Extract(1, 2), &[TermId(0)]),
    (TermOp::ZeroExt(7), &[TermId(0)]),
    (TermOp::SignExt(7), &[TermId(0)]),
    (TermOp::Concat, &[TermId(0), TermId(1)]),
    (TermOp::Ite, &[TermId(18), TermId(0), TermId(1)]),
    (TermOp::Sub, &[TermId(20), TermId(21)]),
    (TermOp::Mul, &[TermId(23), TermId(2)]),
    (TermOp::UDiv, &[TermId(2), TermId(25)]),
];

// The term; the test fails if it can't be made.
fn made(
    rt: &impl Abort,
    terms: &mut Terms,
    op: TermOp,
    args: &[TermId],
) -> Result<TermId, NoMemory> {
    assert!(rt; terms.can_make(op, args));
    terms.make(op, args)
}

// The bits of two numbers of four bits, the least bit first.
fn bits_of(alloc: Global, x: u64, y: u64) -> Result<Bits, NoMemory> {
    let mut bits = Vec::new(alloc);
    for k in 0..4u32 {
        bits.push(x >> k & 1 == 1)?;
    }
    for k in 0..4u32 {
        bits.push(y >> k & 1 == 1)?;
    }
    Ok(Bits {
        bits: List::from_vec(bits),
    })
}

// The number of a row where the inputs have these bits.
#[tactic(auto, using(stk_arith::proofs::Numbers::parts_of_rows))]
fn number(gates: &Gates, row: &[Edge], bits: &Bits) -> Result<u128, NoMemory>
    requires row { AreEdges gates.now row.now }
    requires bits { length bits.now.bits ≡ gates.now.inputs }
{
    let mut number = 0u128;
    for i in 0..row.len() {
        let bit = gates.eval(row[row.len() - 1 - i], bits)?;
        number = number.wrapping_mul(2) | u128::from(bit);
    }
    Ok(number)
}

// Whether the row and the term have the same number for two numbers as inputs.
fn is_alike(
    alloc: Global,
    terms: &Terms,
    id: TermId,
    gates: &Gates,
    row: &[Edge],
    inputs: (u64, u64),
) -> Result<bool, NoMemory>
    requires exists { id.0 < length terms.now.terms }
    requires row { AreEdges gates.now row.now }
{
    let (x, y) = inputs;
    let bits = bits_of(alloc, x, y)?;
    let numbers = vec![in alloc; x, y]?;
    let residues = Residues {
        numbers: List::from_vec(numbers),
    };
    if bits.bits.len() != gates.inputs() as usize || !terms.has_residues(&residues) {
        return Ok(false);
    }
    let value = terms.value(id, &residues)?;
    let number = number(gates, row, &bits)?;
    Ok(number == value)
}

// Whether the row and the term have the same number for all inputs.
fn are_alike(
    alloc: Global,
    terms: &Terms,
    id: TermId,
    gates: &Gates,
    row: &[Edge],
) -> Result<bool, NoMemory>
    requires exists { id.0 < length terms.now.terms }
    requires row { AreEdges gates.now row.now }
{
    for x in 0..16u64 {
        for y in 0..16u64 {
            if !is_alike(alloc, terms, id, gates, row, (x, y))? {
                return Ok(false);
            }
        }
    }
    Ok(row.len() == terms.width(id) as usize)
}

// The row of a term; none where the table hasn't the inputs or the room.
fn blasted(
    alloc: Global,
    terms: &Terms,
    id: TermId,
    gates: &mut Gates,
) -> Result<Option<List<Edge>>, NoMemory>
    requires { id.0 < length terms.now.terms }
    ensures { IfOk result (λ found. IfSome found (AreEdges gates.new)) }
{
    if !has_inputs(terms, gates) || !has_room(terms, id, gates)? {
        return Ok(None);
    }
    let row = blast(alloc, terms, id, gates)?;
    Ok(Some(row))
}

// Whether the circuit of a term is its value for all inputs.
fn is_blasted_in(
    alloc: Global,
    terms: &Terms,
    id: TermId,
    gates: &mut Gates,
) -> Result<bool, NoMemory>
    requires { id.0 < length terms.now.terms }
{
    match blasted(alloc, terms, id, gates)? {
        None => Ok(false),
        Some(row) => are_alike(alloc, terms, id, gates, row.as_slice()),
    }
}

// As `is_blasted_in`, in a table of its own.
fn is_blasted(alloc: Global, terms: &Terms, id: TermId) -> Result<bool, NoMemory>
    requires { id.0 < length terms.now.terms }
{
    let mut gates = Gates::new(alloc, 8);
    is_blasted_in(alloc, terms, id, &mut gates)
}

// The circuits of the terms of the table are their values.
fn all_are_blasted(rt: &impl Abort, alloc: Global, terms: &mut Terms) -> Result<(), Fail> {
    for (op, args) in &TERMS {
        let id = made(rt, terms, *op, args)?;
        assert!(rt; id.0 < terms.count());
        assert!(rt; is_blasted(alloc, terms, id)?, "{op:?}");
    }
    Ok(())
}

#[test]
fn each_operator(rt: HostRuntime) -> Result<(), Fail> {
    let widths = vec![in rt.alloc(); 4, 4]?;
    let mut terms = Terms::new(rt.alloc(), List::from_vec(widths));
    all_are_blasted(&rt, rt.alloc(), &mut terms)
}

// The row of a term without inputs.
fn constant(alloc: Global, terms: &Terms, id: TermId) -> Result<Option<List<Edge>>, NoMemory>
    requires { id.0 < length terms.now.terms }
{
    let mut gates = Gates::new(alloc, 0);
    blasted(alloc, terms, id, &mut gates)
}

const F: Edge = Edge::FALSE;

const T: Edge = Edge::TRUE;

static SUM: [Edge; 8] = [F, F, T, T, F, T, F, F];

// 200 and 100 are 44 in eight bits.
fn sum_is_blasted(rt: &impl Abort, alloc: Global, terms: &mut Terms) -> Result<(), Fail> {
    let x = made(rt, terms, TermOp::Constant(8, 200), &[])?;
    let y = made(rt, terms, TermOp::Constant(8, 100), &[])?;
    let id = made(rt, terms, TermOp::Add, &[x, y])?;
    assert!(rt; id.0 < terms.count());
    let row = constant(alloc, terms, id)?;
    assert!(rt; row.is_some_and(|r| r.as_slice() == SUM.as_slice()));
    Ok(())
}

#[test]
fn a_sum_of_constants(rt: HostRuntime) -> Result<(), Fail> {
    let mut terms = Terms::new(rt.alloc(), List::empty(rt.alloc()));
    sum_is_blasted(&rt, rt.alloc(), &mut terms)
}
