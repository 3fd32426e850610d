//! What a walk asks of a function, besides what a run asks.

ghost use Rattle.std.specs.Prelude.{◌≡◌, ℕ, ℤ, IfSome, List, length, ◌<◌, slice_get, Some, option_map};
ghost use Rattle.stk_ctype.specs.declared.kind.IntKind as kinds;
ghost use Rattle.stk_tree.specs.View.{view_statement_form};
ghost use Rattle.stk_numbers.specs.Kinds.{wrap};
ghost use Rattle.stk_meaning.specs.Changes.{assigned_in, forgotten_in};
ghost use Rattle.stk_meaning.specs.Paths.{InputMap};
ghost use Rattle.stk_kinded.specs.Kinds.{key_kind};
ghost use Rattle.stk_walking.specs.Keyed.{key_shown, placed};

use crate::keys::InputKey;
use stk_eval_expr::RunSetting;
use stk_numbers::IntKind;
use stk_operators::Word;
use stk_tree::StmtForm;

/// What a walk asks of a function: the setting of its runs, and the places of its input keys.
pub trait WalkSetting: RunSetting {
    /// The kinds of the keys, in order.
    ghost kinds: { Self → List kinds.IntKind };

    /// The input map that numbers of the keys, in order, are.
    ghost under: { Self → List ℤ → InputMap };

    /// The place of a key, where there is one; the number of one that there isn't is 0.
    fn place_of(&self, key: InputKey) -> Option<u32>
        ensures number { (m : List ℤ) → under self.now m (key_shown key) ≡ placed result m }
        ensures kind { IfSome result (λ p. slice_get (kinds self.now) p ≡ Some (key_kind (Self.setting self.now) (key_shown key))) };

    /// The number of a node in a kind, where it has one by itself: as the constant of a `case` in the kind of its
    /// `switch`.
    fn number_in(&self, kind: IntKind, node: u32) -> Option<Word>
        ensures { result ≡ option_map (λ z. wrap kind z) ((Self.setting self.now).typing.number_at node) };

    /// How many registers the loop of a form at a node sets first.
    fn count_slots(&self, node: u32, form: &StmtForm) -> usize
        requires { Self.knows self.now node (view_statement_form form.now) }
        ensures { result ≡ length (assigned_in (Self.setting self.now) (view_statement_form form.now)) };

    /// The declarator of one of those registers.
    fn slot(&self, node: u32, form: &StmtForm, at: usize) -> u32
        requires known { Self.knows self.now node (view_statement_form form.now) }
        requires within { at < length (assigned_in (Self.setting self.now) (view_statement_form form.now)) }
        ensures { slice_get (assigned_in (Self.setting self.now) (view_statement_form form.now)) at ≡ Some result };

    /// Whether the loop of a form at a node may change a kept object, by its position.
    fn forgets(&self, node: u32, form: &StmtForm, position: usize) -> bool
        requires { Self.knows self.now node (view_statement_form form.now) }
        ensures { result ≡ forgotten_in (Self.setting self.now) (view_statement_form form.now) position };
}
