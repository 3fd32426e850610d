//! Where a `switch` goes, as a test for each of its sections (C11 6.8.4.2).

ghost use Rattle.std.specs.Prelude.{◌≡◌, ◌<◌, ℕ, ℤ, List, Bool, ◌&&◌, ◌||◌, not, false, IfOk, OnOk, length, map, Option, Some, ◌+◌, ◌*◌, ◌≤◌};
ghost use Rattle.stk_ctype.specs.declared.kind.IntKind.TheVariants.{Int};
ghost use Rattle.stk_tree.specs.View.{view_label, labels, view_section, sections};
ghost use Rattle.stk_meaning.specs.Operations.{bit};
ghost use Rattle.stk_meaning.specs.Statements.{is_number, is_case, has_case, sections_before, or_default, chosen};
ghost use Rattle.stk_values.specs.Keeping.{Keeps};
ghost use Rattle.stk_walk_statements.specs.Selected.{TestsMade, TestsShow, goes_if, is_none};
ghost use Rattle.stk_numbers.specs.Kinds.{width_of};
ghost use Rattle.stk_spending.specs.Statements.{label_spent, labels_spent, cases_spent};

use std::alloc::Global;
use stk_base::NoMemory;
use stk_eval_expr::node_of;
use stk_exec_stmt::default_at;
use stk_numbers::{CompareOp, IntKind};
use stk_tree::{Label, Section};
use stk_values::Values;
use stk_walking::{WalkSetting, either, zero};

// A test, or whether a value is the number of a node in a kind.
fn or_number<O: WalkSetting, V: Values>(
    out: &O,
    kind: IntKind,
    number: V::Value,
    node: u32,
    values: &mut V,
    found: V::Value,
) -> Result<V::Value, NoMemory>
    requires number { V.made values.old kind number }
    requires found { V.made values.old Int found }
    ensures makes { IfOk result (λ v. V.made values.new Int v) }
    ensures value { IfOk result (λ v. (m : List ℤ) (x : ℤ) (b : Bool) → V.serves values.old m → V.shows values.old m kind number x → V.shows values.old m Int found (bit b) → V.shows values.new m Int v (bit (b || is_number kind x ((O.setting out.now).typing.number_at node)))) }
    ensures keeps { OnOk result (Keeps V.serves V.has_key V.made V.shows values.old values.new) }
    ensures charge { OnOk result (V.cost values.new ≤ V.cost values.old + (10 * width_of kind + 3)) }
{
    match out.number_in(kind, node) {
        None => Ok(found),
        Some(own) => {
            let constant = values.constant(kind, own.number())?;
            let same = values.compare(CompareOp::Eq, kind, constant, number)?;
            let either = either(values, found, same)?;
            Ok(either)
        }
    }
}

// A test, or whether a label is a case of a value in a kind.
fn or_case<O: WalkSetting, V: Values>(
    out: &O,
    kind: IntKind,
    number: V::Value,
    label: &Label,
    values: &mut V,
    found: V::Value,
) -> Result<V::Value, NoMemory>
    requires number { V.made values.old kind number }
    requires found { V.made values.old Int found }
    ensures makes { IfOk result (λ v. V.made values.new Int v) }
    ensures value { IfOk result (λ v. (m : List ℤ) (x : ℤ) (b : Bool) → V.serves values.old m → V.shows values.old m kind number x → V.shows values.old m Int found (bit b) → V.shows values.new m Int v (bit (b || is_case (O.setting out.now).typing kind x (view_label label.now)))) }
    ensures keeps { OnOk result (Keeps V.serves V.has_key V.made V.shows values.old values.new) }
    ensures charge { OnOk result (V.cost values.new ≤ V.cost values.old + label_spent (view_label label.now) (width_of kind)) }
{
    match label {
        Label::Default => Ok(found),
        Label::Case(e) => or_number(out, kind, number, node_of(e), values, found),
    }
}

// Whether labels have a case of a value in a kind.
fn has_case<O: WalkSetting, V: Values>(
    out: &O,
    kind: IntKind,
    number: V::Value,
    list: &[Label],
    values: &mut V,
) -> Result<V::Value, NoMemory>
    requires { V.made values.old kind number }
    ensures makes { IfOk result (λ v. V.made values.new Int v) }
    ensures value { IfOk result (λ v. (m : List ℤ) (x : ℤ) → V.serves values.old m → V.shows values.old m kind number x → V.shows values.new m Int v (bit (has_case (O.setting out.now).typing kind x (labels (map view_label list.now))))) }
    ensures keeps { OnOk result (Keeps V.serves V.has_key V.made V.shows values.old values.new) }
    ensures charge { OnOk result (V.cost values.new ≤ V.cost values.old + labels_spent (labels (map view_label list.now)) (width_of kind)) }
{
    let mut found = zero(values, IntKind::Int)?;
    for label in list {
        let more = or_case(out, kind, number, label, values, found)?;
        found = more;
    }
    Ok(found)
}

// Both tests, and the first one without the second.
fn parted<V: Values>(
    values: &mut V,
    left: V::Value,
    test: V::Value,
) -> Result<(V::Value, V::Value), NoMemory>
    requires left { V.made values.old Int left }
    requires test { V.made values.old Int test }
    ensures here { IfOk result (λ v. V.made values.new Int v.0) }
    ensures rest { IfOk result (λ v. V.made values.new Int v.1) }
    ensures value { IfOk result (λ v. (m : List ℤ) (a b : Bool) → V.serves values.old m → V.shows values.old m Int left (bit a) → V.shows values.old m Int test (bit b) → V.shows values.new m Int v.0 (bit (a && b)) × V.shows values.new m Int v.1 (bit (a && not b))) }
    ensures keeps { OnOk result (Keeps V.serves V.has_key V.made V.shows values.old values.new) }
    ensures charge { OnOk result (V.cost values.new ≤ V.cost values.old + 6) }
{
    let opposite = values.opposite(test)?;
    let here = values.both(left, test)?;
    let rest = values.both(left, opposite)?;
    Ok((here, rest))
}

// For each section whether control, where it has come here, goes to the section as to the first one with a case of the
// value; and whether it goes to none.
fn case_tests<O: WalkSetting, V: Values>(
    out: &O,
    alloc: Global,
    kind: IntKind,
    number: V::Value,
    list: &[Section],
    values: &mut V,
    guard: V::Value,
) -> Result<(Vec<V::Value>, V::Value), NoMemory>
    requires number { V.made values.old kind number }
    requires guard { V.made values.old Int guard }
    ensures length { IfOk result (λ v. length v.0.items ≡ length list.now) }
    ensures tests { IfOk result (λ v. TestsMade (V.made values.new) v.0.items) }
    ensures past { IfOk result (λ v. V.made values.new Int v.1) }
    ensures value { IfOk result (λ v. (m : List ℤ) (x : ℤ) (a : Bool) → V.serves values.old m → V.shows values.old m kind number x → V.shows values.old m Int guard (bit a) → TestsShow (V.shows values.new m) v.0.items (goes_if a (sections_before (has_case (O.setting out.now).typing kind x) (sections (map view_section list.now)))) × V.shows values.new m Int v.1 (bit (a && is_none (sections_before (has_case (O.setting out.now).typing kind x) (sections (map view_section list.now)))))) }
    ensures keeps { OnOk result (Keeps V.serves V.has_key V.made V.shows values.old values.new) }
    ensures charge { OnOk result (V.cost values.new ≤ V.cost values.old + cases_spent (sections (map view_section list.now)) (width_of kind)) }
{
    let mut tests = Vec::new(alloc);
    let mut left = guard;
    for x in list {
        let case = has_case(out, kind, number, x.labels.as_slice(), values)?;
        let (here, rest) = parted(values, left, case)?;
        tests.push(here)?;
        left = rest;
    }
    Ok((tests, left))
}

// The same with the section that has a `default`, to which control goes that goes to none by a case.
fn with_default<V: Values>(
    values: &mut V,
    mut tests: Vec<V::Value>,
    left: V::Value,
    at: usize,
) -> Result<(Vec<V::Value>, V::Value), NoMemory>
    requires within { at < length tests.items }
    requires tests { TestsMade (V.made values.old) tests.items }
    requires left { V.made values.old Int left }
    ensures length { IfOk result (λ v. length v.0.items ≡ length tests.items) }
    ensures tests { IfOk result (λ v. TestsMade (V.made values.new) v.0.items) }
    ensures past { IfOk result (λ v. V.made values.new Int v.1) }
    ensures value { IfOk result (λ v. (m : List ℤ) (a : Bool) (o : Option ℕ) → V.serves values.old m → TestsShow (V.shows values.old m) tests.items (goes_if a o) → V.shows values.old m Int left (bit (a && is_none o)) → TestsShow (V.shows values.new m) v.0.items (goes_if a (or_default o (Some at))) × V.shows values.new m Int v.1 (bit false)) }
    ensures keeps { OnOk result (Keeps V.serves V.has_key V.made V.shows values.old values.new) }
    ensures charge { OnOk result (V.cost values.new ≤ V.cost values.old + 3) }
{
    let here = either(values, tests[at], left)?;
    let none = zero(values, IntKind::Int)?;
    tests[at] = here;
    Ok((tests, none))
}

/// For each section of a `switch` on a value whether control, where it has come here, goes to the section: to the one
/// with the case of the value, else to the one with `default`; and whether it goes to none.
pub(crate) fn section_tests<O: WalkSetting, V: Values>(
    out: &O,
    alloc: Global,
    kind: IntKind,
    number: V::Value,
    list: &[Section],
    values: &mut V,
    guard: V::Value,
) -> Result<(Vec<V::Value>, V::Value), NoMemory>
    requires number { V.made values.old kind number }
    requires guard { V.made values.old Int guard }
    ensures length { IfOk result (λ v. length v.0.items ≡ length list.now) }
    ensures tests { IfOk result (λ v. TestsMade (V.made values.new) v.0.items) }
    ensures past { IfOk result (λ v. V.made values.new Int v.1) }
    ensures value { IfOk result (λ v. (m : List ℤ) (x : ℤ) (a : Bool) → V.serves values.old m → V.shows values.old m kind number x → V.shows values.old m Int guard (bit a) → TestsShow (V.shows values.new m) v.0.items (goes_if a (chosen (O.setting out.now).typing kind x (sections (map view_section list.now)))) × V.shows values.new m Int v.1 (bit (a && is_none (chosen (O.setting out.now).typing kind x (sections (map view_section list.now)))))) }
    ensures keeps { OnOk result (Keeps V.serves V.has_key V.made V.shows values.old values.new) }
    ensures charge { OnOk result (V.cost values.new ≤ V.cost values.old + (cases_spent (sections (map view_section list.now)) (width_of kind) + 3)) }
{
    let (tests, left) = case_tests(out, alloc, kind, number, list, values, guard)?;
    match default_at(list) {
        None => Ok((tests, left)),
        Some(at) => {
            let all = with_default(values, tests, left, at)?;
            Ok(all)
        }
    }
}
