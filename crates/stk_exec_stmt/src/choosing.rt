//! Where a `switch` goes (C11 6.8.4.2).

ghost use Rattle.std.specs.Prelude.{◌≡◌, map};
ghost use Rattle.stk_tree.specs.View.{view_label, labels, view_section, sections};
ghost use Rattle.stk_meaning.specs.Statements.{is_case, has_case, is_default, has_default, sections_before, chosen};

use stk_eval_expr::{RunSetting, node_of};
use stk_numbers::IntKind;
use stk_operators::Word;
use stk_tree::{Label, Section};

// Whether a label is a case of this number in a kind.
fn is_case<O: RunSetting>(out: &O, kind: IntKind, number: Word, label: &Label) -> bool
    ensures { result ≡ is_case (O.setting out.now).typing kind number (view_label label.now) }
{
    match label {
        Label::Default => false,
        Label::Case(e) => out.is_number(kind, number, node_of(e)),
    }
}

// Whether labels have a case of this number in a kind.
fn has_case<O: RunSetting>(out: &O, kind: IntKind, number: Word, list: &[Label]) -> bool
    ensures { result ≡ has_case (O.setting out.now).typing kind number (labels (map view_label list.now)) }
{
    for label in list {
        if is_case(out, kind, number, label) {
            return true;
        }
    }
    false
}

// Whether a label is `default`.
fn is_default(label: &Label) -> bool
    ensures { result ≡ is_default (view_label label.now) }
{
    match label {
        Label::Default => true,
        Label::Case(_) => false,
    }
}

// Whether labels have a `default`.
fn has_default(list: &[Label]) -> bool
    ensures { result ≡ has_default (labels (map view_label list.now)) }
{
    for label in list {
        if is_default(label) {
            return true;
        }
    }
    false
}

// The position of the first section that has a case of this number.
fn case_at<O: RunSetting>(out: &O, kind: IntKind, number: Word, list: &[Section]) -> Option<usize>
    ensures { result ≡ sections_before (has_case (O.setting out.now).typing kind number) (sections (map view_section list.now)) }
{
    for (at, x) in list.iter().enumerate() {
        if has_case(out, kind, number, x.labels.as_slice()) {
            return Some(at);
        }
    }
    None
}

/// The position of the first section that has a `default`; none where there is none (C11 6.8.4.2).
pub fn default_at(list: &[Section]) -> Option<usize>
    ensures { result ≡ sections_before has_default (sections (map view_section list.now)) }
{
    for (at, x) in list.iter().enumerate() {
        if has_default(x.labels.as_slice()) {
            return Some(at);
        }
    }
    None
}

/// The position of the section that control goes to: the one with the case of the number, else the one with `default`,
/// where there is one.
pub(crate) fn chosen<O: RunSetting>(
    out: &O,
    kind: IntKind,
    number: Word,
    list: &[Section],
) -> Option<usize>
    ensures { result ≡ chosen (O.setting out.now).typing kind number (sections (map view_section list.now)) }
{
    match case_at(out, kind, number, list) {
        Some(at) => Some(at),
        None => default_at(list),
    }
}
