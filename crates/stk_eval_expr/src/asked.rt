//! What a run asks of the function that it runs.

ghost use Rattle.std.specs.Prelude.{◌≡◌, IfOk, ℕ, map, option_map};
ghost use Rattle.stk_ctype.specs.Types.{type_of, row_of};
ghost use Rattle.stk_type_rules.specs.Types.{is_scalar, is_void};
ghost use Rattle.stk_tree.specs.Syntax.{StmtFormTree};
ghost use Rattle.stk_tree.specs.View.{view_expression};
ghost use Rattle.stk_meaning.specs.Typings.{number_kind, converted, is_array, stride_in, pointed};
ghost use Rattle.stk_meaning.specs.Operations.{operation_of, step_operation};
ghost use Rattle.stk_meaning.specs.Libraries.{called_library, called_signature, parameters_in, result_in, never_returns};
ghost use Rattle.stk_meaning.specs.Conditions.{index_tests};
ghost use Rattle.stk_meaning.specs.Replacements.{replacement};
ghost use Rattle.stk_meaning.specs.Places.{Setting, target_at, object_named};
ghost use Rattle.stk_meaning.specs.Statements.{is_number};
ghost use Rattle.stk_operators.specs.Shown.{operator_shown, operation_shown, library_shown};
ghost use Rattle.stk_operators.specs.Checked.{tests_of};
ghost use Rattle.stk_eval_expr.specs.Shown.{replacement_shown};
ghost use Rattle.stk_operators.specs.Targets.{target_shown};

use stk_base::{NoMemory, Span};
use stk_ctype::CType;
use stk_numbers::{IntKind, Kinds};
use stk_operators::{Library, NodeTests, Operation, Operator, Stride, Target, Word};
use stk_tree::{Expr, StepOp};

/// What a comparison is replaced by: the kind of the operand that is kept, whether that is the right operand of the
/// sum, whether the sum is the left side of the comparison, and whether 0 is the left side of what replaces it.
#[derive(Clone, Copy, Debug)]
pub struct Replacement {
    pub kind: IntKind,
    pub is_right: bool,
    pub sum_first: bool,
    pub zero_first: bool,
}

/// What a run asks of the function that it runs, by the numbers of nodes.
pub trait RunSetting {
    ghost setting: { Self → Setting };

    /// Whether it is known what the loop of this form at this node changes: so it is for each loop of the function that
    /// is run.
    ghost knows: { Self → ℕ → StmtFormTree → Type 0 };

    /// The kinds of conditions that are taken out.
    fn without(&self) -> Kinds
        ensures { result ≡ (setting self.now).without };

    /// The kind of the numbers of a node's type.
    fn kind_at(&self, node: u32) -> IntKind
        ensures { result ≡ number_kind ((setting self.now).typing.type_at node) };

    /// Whether the type of a node is an array.
    fn is_array_at(&self, node: u32) -> bool
        ensures { result ≡ is_array ((setting self.now).typing.type_at node) };

    /// Whether the type of a node is an integer or a pointer.
    fn is_scalar_at(&self, node: u32) -> bool
        ensures { result ≡ is_scalar ((setting self.now).typing.type_at node) };

    /// The number that a node has by itself, in its type.
    fn own_number(&self, node: u32) -> Option<Word>
        ensures { result ≡ option_map (λ z. converted ((setting self.now).typing.type_at node) z) ((setting self.now).typing.number_at node) };

    /// The object or register that a name means.
    fn object_named(&self, node: u32, name: Span) -> u32
        ensures { result ≡ object_named (setting self.now) node name };

    /// What a declarator or a first mention stands for.
    fn target_at(&self, node: u32) -> Target
        ensures { target_shown result ≡ target_at (setting self.now) node };

    /// What an operator does to operands of the types of two nodes.
    fn operation(&self, op: Operator, left: u32, right: u32) -> Operation
        ensures { operation_shown result ≡ operation_of (setting self.now).typing (operator_shown op) ((setting self.now).typing.type_at left) ((setting self.now).typing.type_at right) };

    /// What `++` or `--` does to an operand of a node's type.
    fn step_operation(&self, op: StepOp, node: u32) -> Operation
        ensures { operation_shown result ≡ step_operation (setting self.now).typing op ((setting self.now).typing.type_at node) };

    /// The size of what a node's type points to.
    fn stride_at(&self, node: u32) -> Stride
        ensures { result ≡ stride_in (setting self.now).typing ((setting self.now).typing.type_at node) };

    /// What is asked at `e[e]`, for the node of what is indexed.
    fn index_node_tests(&self, accessed: bool, node: u32) -> NodeTests
        ensures { tests_of result ≡ index_tests accessed ((setting self.now).typing.type_at node) (stride_in (setting self.now).typing ((setting self.now).typing.type_at node)) };

    /// The offset of a member of a node's type.
    fn offset(&self, node: u32, name: Span) -> u64
        ensures { result ≡ (setting self.now).typing.offset_of ((setting self.now).typing.type_at node) name };

    /// The offset of a member of what a node's type points to.
    fn pointed_offset(&self, node: u32, name: Span) -> u64
        ensures { result ≡ (setting self.now).typing.offset_of (pointed ((setting self.now).typing.type_at node)) name };

    /// What a call of an expression calls in the library.
    fn library(&self, callee: &Expr) -> Option<Library>
        ensures { option_map library_shown result ≡ called_library (setting self.now).typing (view_expression callee.now) };

    /// Whether what a call calls is marked as not returning.
    fn never_returns(&self, callee: &Expr) -> bool
        ensures { result ≡ never_returns (called_signature (setting self.now).typing (view_expression callee.now)) };

    /// Whether what a call calls has no result.
    fn gives_nothing(&self, callee: &Expr) -> bool
        ensures { result ≡ is_void (result_in (called_signature (setting self.now).typing (view_expression callee.now))) };

    /// The types of the parameters of what a call calls.
    fn parameters(&self, callee: &Expr) -> &[CType]
        ensures { row_of (map type_of result.now) ≡ parameters_in (called_signature (setting self.now).typing (view_expression callee.now)) };

    /// What a comparison of two sides is replaced by.
    fn replacement(&self, left: &Expr, right: &Expr) -> Result<Option<Replacement>, NoMemory>
        ensures { IfOk result (λ found. found ≡ option_map (λ f. replacement_shown (setting self.now).typing f) (replacement (setting self.now).typing (view_expression left.now) (view_expression right.now))) };

    /// Whether the number of a node, in a kind, is this one.
    fn is_number(&self, kind: IntKind, number: Word, node: u32) -> bool
        ensures { result ≡ is_number kind number ((setting self.now).typing.number_at node) };
}
