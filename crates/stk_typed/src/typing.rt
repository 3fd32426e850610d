//! The types of a function definition.

ghost use Rattle.std.specs.Prelude.{◌≡◌, ◌<◌, ◌^◌, IfOk, map};
ghost use Rattle.stk_ctype.specs.Structs.{structs_of};
ghost use Rattle.stk_tree.specs.Nodes.{unit_nodes};
ghost use Rattle.stk_tree.specs.View.{view_function, view_unit};
ghost use Rattle.stk_type_rules.specs.Facts.{AreSoundFacts, fact_of};
ghost use Rattle.stk_address_taken.specs.Statements.{function_taken};
ghost use Rattle.stk_function_types.specs.Functions.{function_typed};
ghost use Rattle.stk_function_types.specs.Units.{unit_typed};
ghost use Rattle.stk_typed.specs.Answering.{Answers, AreFacts, has_many};

use crate::Untyped;
use std::alloc::Global;
use stk_address_taken::{NodeSet, taken_in};
use stk_base::NoMemory;
use stk_ctype::Names;
use stk_declarators::File;
use stk_function_types::FunctionTypes;
use stk_nodes::unit_nodes;
use stk_statements::function;
use stk_tree::{Function, Unit};
use stk_type_rules::{NodeFact, Untyped as Refused};

// So many nodes a function has at most.
const MOST_NODES: u32 = 20000;

// How many nodes a unit has.
fn node_count(alloc: Global, unit: &Unit) -> Result<u32, NoMemory>
    requires { unit_nodes (view_unit unit.now) < 2 ^ 32 }
    ensures { IfOk result (λ count. count ≡ unit_nodes (view_unit unit.now)) }
{
    let row = unit_nodes(alloc, unit)?;
    Ok(row.len() as u32)
}

// The facts of a function definition's nodes.
fn function_facts(
    file: &File,
    taken: &NodeSet,
    node: u32,
    f: &Function,
) -> Result<Vec<NodeFact>, Untyped>
    ensures is { AreFacts (function_typed file.now.bytes.now file.now.names.now taken.now node (view_function f.now)) result }
    ensures sound { IfOk result (λ facts. AreSoundFacts (structs_of file.now.names.now) (map fact_of facts.items)) }
{
    let mut facts = Vec::new(file.alloc);
    match function(file, taken, &mut facts, node, f) {
        Ok(()) => Ok(facts),
        Err(Refused::Rule { node, rule }) => Err(Untyped::Rule { node, rule }),
        Err(Refused::NoMemory) => Err(Untyped::NoMemory),
    }
}

// The declarators of a function whose names are operands of `&`.
fn taken_of(file: &File, f: &Function) -> Result<NodeSet, NoMemory>
    ensures { IfOk result (λ set. set ≡ function_taken file.now.bytes.now (view_function f.now)) }
{
    let list = taken_in(file.alloc, file.bytes, f)?;
    NodeSet::of(file.alloc, list)
}

// The facts of a unit's nodes; none of a unit that is no function definition.
fn unit_facts(file: &File, unit: &Unit) -> Result<Vec<NodeFact>, Untyped>
    ensures is { AreFacts (unit_typed file.now.bytes.now file.now.names.now (view_unit unit.now)) result }
    ensures sound { IfOk result (λ facts. AreSoundFacts (structs_of file.now.names.now) (map fact_of facts.items)) }
{
    match unit {
        Unit::Empty(_) | Unit::Declares(_, _) => Ok(Vec::new(file.alloc)),
        Unit::Defines(node, f) => {
            let taken = taken_of(file, f)?;
            function_facts(file, &taken, node.number, f)
        }
    }
}

/// Types a function definition of the input, with its head and its body, under the names of file scope that its head
/// has come into (C11 6.9.1). `Nodes` exactly where the unit has over 20,000 nodes, and nothing is typed then; `Rule`
/// exactly where it hasn't, and this node is the first in the order of the numbers that a rule of C refuses in this
/// profile, by this lowest rule; else what is known of each node. Of a unit that is no function definition nothing is
/// known. The names hold the function's name as a function, and each struct tag of its head; the tree fits the names
/// and is laid out.
pub fn typed_of<'a>(
    alloc: Global,
    bytes: &'a [u8],
    unit: &'a Unit,
    names: &'a Names,
) -> Result<FunctionTypes<'a>, Untyped>
    requires { unit_nodes (view_unit unit.now) < 2 ^ 32 }
    ensures is { IfOk result (λ t. t ≡ record { bytes = bytes.now; unit = unit.now; entries = names.now }) }
    ensures answer { Answers (has_many (view_unit unit.now)) (unit_nodes (view_unit unit.now)) (unit_typed bytes.now names.now (view_unit unit.now)) result }
{
    let count = node_count(alloc, unit)?;
    if count > MOST_NODES {
        return Err(Untyped::Nodes { count });
    }
    let file = File {
        alloc,
        bytes,
        names,
    };
    let facts = unit_facts(&file, unit)?;
    match FunctionTypes::new(alloc, bytes, unit, names, facts) {
        Ok(types) => Ok(types),
        Err(_) => Err(Untyped::NoMemory),
    }
}
