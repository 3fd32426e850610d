//! What a walk over statements asks of the one over expressions.

ghost use Rattle.std.specs.Prelude.{◌≡◌, ℤ, ◌++◌, IfOk, OnOk, ◌+◌, length};
ghost use Rattle.stk_ctype.specs.declared.kind.IntKind.TheVariants.{Int};
ghost use Rattle.stk_tree.specs.View.{view_expression};
ghost use Rattle.stk_meaning.specs.Typings.{type_in, number_kind, converted};
ghost use Rattle.stk_meaning.specs.Operations.{truth, bit};
ghost use Rattle.stk_meaning.specs.Paths.{path_world};
ghost use Rattle.stk_meaning.specs.Expressions.{value_of, test_of};
ghost use Rattle.stk_kinded.specs.Kinded.{Kinded};
ghost use Rattle.stk_values.specs.Keeping.{Keeps};
ghost use Rattle.stk_walking.specs.Events.{events_in};
ghost use Rattle.stk_walking.specs.ExpressionEvents.{value_events, tested_events};
ghost use Rattle.stk_walking.specs.Stands.{IsMade};
ghost use Rattle.stk_walking.specs.Keyed.{AreThere};
ghost use Rattle.stk_walking.specs.Leads.{Evaluates};
ghost use Rattle.stk_values.specs.Charges.{convert_charge};
ghost use Rattle.stk_spending.specs.Expressions.{spent_value, spent_test, kind_in, kind_at};
ghost use Rattle.stk_walking.specs.Costs.{Costs};

use crate::asked::WalkSetting;
use crate::state::WalkState;
use stk_base::NoMemory;
use stk_tree::Expr;
use stk_values::Values;

/// The setting of a walk that walks expressions too. Each call says, under each input map that the store serves, from
/// wherever the walk stands, what a path run of the map does; where the run hasn't come here, nothing changes.
pub trait ExpressionWalk: WalkSetting {
    /// The value of an expression, in the kind of its type: under each input map that the store serves, its number, the
    /// registers, the kept numbers and the entries are those of a path run of the map from where the walk stands; where
    /// the run hasn't come here, nothing changes (C11 6.5).
    fn value<V: Values>(
        &self,
        e: &Expr,
        values: &mut V,
        state: &mut WalkState<V::Value>,
    ) -> Result<V::Value, NoMemory>
        requires kinded { Kinded (Self.setting self.now) (view_expression e.now) }
        requires keys { AreThere (V.has_key values.old) (Self.kinds self.now) }
        requires made { IsMade (V.made values.old) (Self.setting self.now) state.old }
        ensures makes { IfOk result (λ v. V.made values.new (number_kind (type_in (Self.setting self.now).typing (view_expression e.now))) v) }
        ensures made { OnOk result (IsMade (V.made values.new) (Self.setting self.now) state.new) }
        ensures events { OnOk result (events_in state.new.steps.items ≡ events_in state.old.steps.items ++ value_events (Self.setting self.now) (view_expression e.now)) }
        ensures follows { IfOk result (λ v. Evaluates (V.serves values.old) (V.shows values.old) (V.shows values.new) (Self.setting self.now) (λ m x. V.shows values.new m (number_kind (type_in (Self.setting self.now).typing (view_expression e.now))) v x) (λ m. value_of (Self.setting self.now) (path_world (Self.under self.now m)) (view_expression e.now)) state.old state.new) }
        ensures keeps { OnOk result (Keeps V.serves V.has_key V.made V.shows values.old values.new) }
        ensures cost { OnOk result (Costs V.cost (length (Self.setting self.now).kept) (spent_value (Self.setting self.now) (view_expression e.now)) values.old values.new (length state.old.cells.items) (length state.new.cells.items)) };

    /// Whether a controlling expression is true, as a test (C11 6.8.4.1): it is seen without its parentheses, unless it
    /// is a comparison, which has been seen already.
    fn tested<V: Values>(
        &self,
        e: &Expr,
        values: &mut V,
        state: &mut WalkState<V::Value>,
    ) -> Result<V::Value, NoMemory>
        requires kinded { Kinded (Self.setting self.now) (view_expression e.now) }
        requires keys { AreThere (V.has_key values.old) (Self.kinds self.now) }
        requires made { IsMade (V.made values.old) (Self.setting self.now) state.old }
        ensures makes { IfOk result (λ v. V.made values.new Int v) }
        ensures made { OnOk result (IsMade (V.made values.new) (Self.setting self.now) state.new) }
        ensures events { OnOk result (events_in state.new.steps.items ≡ events_in state.old.steps.items ++ tested_events (Self.setting self.now) (view_expression e.now)) }
        ensures follows { IfOk result (λ v. Evaluates (V.serves values.old) (V.shows values.old) (V.shows values.new) (Self.setting self.now) (λ m x. V.shows values.new m Int v (bit (truth x))) (λ m. test_of (Self.setting self.now) (path_world (Self.under self.now m)) (view_expression e.now)) state.old state.new) }
        ensures keeps { OnOk result (Keeps V.serves V.has_key V.made V.shows values.old values.new) }
        ensures cost { OnOk result (Costs V.cost (length (Self.setting self.now).kept) (spent_test (Self.setting self.now) (view_expression e.now)) values.old values.new (length state.old.cells.items) (length state.new.cells.items)) };

    /// The value of an expression, converted to the type of a node, as the initialiser of a declarator at this node is
    /// (C11 6.7.9p11). The run's number is the one from before the conversion.
    fn converted_value<V: Values>(
        &self,
        node: u32,
        e: &Expr,
        values: &mut V,
        state: &mut WalkState<V::Value>,
    ) -> Result<V::Value, NoMemory>
        requires kinded { Kinded (Self.setting self.now) (view_expression e.now) }
        requires keys { AreThere (V.has_key values.old) (Self.kinds self.now) }
        requires made { IsMade (V.made values.old) (Self.setting self.now) state.old }
        ensures makes { IfOk result (λ v. V.made values.new (number_kind ((Self.setting self.now).typing.type_at node)) v) }
        ensures made { OnOk result (IsMade (V.made values.new) (Self.setting self.now) state.new) }
        ensures events { OnOk result (events_in state.new.steps.items ≡ events_in state.old.steps.items ++ value_events (Self.setting self.now) (view_expression e.now)) }
        ensures follows { IfOk result (λ v. Evaluates (V.serves values.old) (V.shows values.old) (V.shows values.new) (Self.setting self.now) (λ m x. V.shows values.new m (number_kind ((Self.setting self.now).typing.type_at node)) v (converted ((Self.setting self.now).typing.type_at node) x)) (λ m. value_of (Self.setting self.now) (path_world (Self.under self.now m)) (view_expression e.now)) state.old state.new) }
        ensures keeps { OnOk result (Keeps V.serves V.has_key V.made V.shows values.old values.new) }
        ensures cost { OnOk result (Costs V.cost (length (Self.setting self.now).kept) (spent_value (Self.setting self.now) (view_expression e.now) + convert_charge (kind_in (Self.setting self.now).typing (view_expression e.now)) (kind_at (Self.setting self.now).typing node)) values.old values.new (length state.old.cells.items) (length state.new.cells.items)) };
}
