//! What an expression does in a walk of a function.

use crate::tables::TableSetting;
use crate::walked::WalkedFunction;
use stk_base::NoMemory;
use stk_tree::Expr;
use stk_values::Values;
use stk_walking::{ExpressionWalk, WalkState};

impl<'a, T: TableSetting> ExpressionWalk for WalkedFunction<'a, T> {
    fn value<V: Values>(
        &self,
        e: &Expr,
        values: &mut V,
        state: &mut WalkState<V::Value>,
    ) -> Result<V::Value, NoMemory> {
        stk_walk_values::value(self, e, values, state)
    }

    fn tested<V: Values>(
        &self,
        e: &Expr,
        values: &mut V,
        state: &mut WalkState<V::Value>,
    ) -> Result<V::Value, NoMemory> {
        stk_walk_values::tested(self, e, values, state)
    }

    fn converted_value<V: Values>(
        &self,
        node: u32,
        e: &Expr,
        values: &mut V,
        state: &mut WalkState<V::Value>,
    ) -> Result<V::Value, NoMemory> {
        stk_walk_values::converted_value(self, node, e, values, state)
    }
}
