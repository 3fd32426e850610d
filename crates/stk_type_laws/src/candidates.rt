//! A law of how many candidates there are.
ghost use Rattle.std.specs.Prelude.{◌≤◌, ◌*◌, length};
ghost use Rattle.stk_tree.specs.declared.node.Node.{Node};
ghost use Rattle.stk_tree.specs.Syntax.{FunctionTree, defines};
ghost use Rattle.stk_tree.specs.Nodes.{unit_nodes};
ghost use Rattle.stk_meaning.specs.Typings.{Typing};
ghost use Rattle.stk_meaning.specs.Lists.{candidates};

/// A function has at most four candidates for each node of its unit: an expression may be a branch, and be seen true,
/// seen false, and replaced.
pub fn candidates_are_few()
    ensures { (ty : Typing) → (f : FunctionTree) → (n : Node) → length (candidates ty f) ≤ 4 * unit_nodes (defines n f) }
{}
