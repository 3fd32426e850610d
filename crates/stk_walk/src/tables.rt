//! What is looked up of a function, besides what a run asks.

ghost use Rattle.std.specs.Prelude.{◌≡◌, List};
ghost use Rattle.stk_tree.specs.View.{view_statement_form};
ghost use Rattle.stk_meaning.specs.Keys.{KeyInfo};
ghost use Rattle.stk_walking.specs.Keyed.{key_shown};
ghost use Rattle.stk_path_runs.specs.Places.{key_place};
ghost use Rattle.stk_path_runs.specs.Rows.{IsRowOf};

use stk_eval_expr::RunSetting;
use stk_path_runs::LoopRow;
use stk_tree::StmtForm;
use stk_walking::InputKey;

/// A setting of runs with tables: the keys of the function, the numbers of its nodes, and what its loops change.
pub(crate) trait TableSetting: RunSetting {
    /// The keys of the function, in order.
    ghost keys: { Self → List KeyInfo };

    /// The place of a key among them; none where it isn't one of them.
    fn place(&self, key: InputKey) -> Option<usize>
        ensures { result ≡ key_place (key_shown key) (keys self.now) };

    /// The number that a node has by itself.
    fn constant(&self, node: u32) -> Option<i128>
        ensures { result ≡ (Self.setting self.now).typing.number_at node };

    /// What the loop of a form at a node changes.
    fn row(&self, node: u32, form: &StmtForm) -> &LoopRow
        requires { Self.knows self.now node (view_statement_form form.now) }
        ensures { IsRowOf (Self.setting self.now) (keys self.now) node (view_statement_form form.now) result.now };
}
