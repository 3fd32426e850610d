//! The setting of a path run, with its tables.

use crate::tables::TableSetting;
use stk_path_runs::{LoopRow, MappedFunction};
use stk_tree::StmtForm;
use stk_walking::InputKey;

impl<'a> TableSetting for MappedFunction<'a> {
    ghost keys = { λ s. s.tables.now.places.keys };

    fn place(&self, key: InputKey) -> Option<usize> {
        let index = self.tables.index();
        match key {
            InputKey::Parameter(node) => index.parameter(node),
            InputKey::Address(node) => index.address(node),
            InputKey::Unset(node) => index.unset(node),
            InputKey::Load(node) => index.load(node),
            InputKey::Call(node) => index.call(node),
            InputKey::Loop(node, register) => index.in_loop(node, register),
        }
    }

    fn constant(&self, node: u32) -> Option<i128> {
        self.tables.setting().types().constant(node)
    }

    fn row(&self, node: u32, form: &StmtForm) -> &LoopRow {
        // The row of the node stands for the form.
        let _ = form;
        match self.tables.row(node) {
            Some(row) => row,
            None => unreachable!(),
        }
    }
}
