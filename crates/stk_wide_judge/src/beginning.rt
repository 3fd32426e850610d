//! What is known before anything is asked.

ghost use Rattle.std.specs.Prelude.{IfOk, OnOk};
ghost use Rattle.stk_tree.specs.View.{view_function};
ghost use Rattle.stk_path_runs.specs.FunctionTables.{AreTablesOf};
ghost use Rattle.stk_wide_judge.specs.Wide.{asked_in};
ghost use Rattle.stk_wide_judge.specs.Starts.{AreKnown};

use crate::{JudgedFunction, Known};
use stk_base::NoMemory;
use stk_first_maps::{CHOICES, Choice, is_valid, map_of_choice, number_choices, words_of};

impl Known {
    // The input map of a choice joins, where it is valid.
    fn try_choice(&mut self, function: &JudgedFunction, choice: Choice) -> Result<(), NoMemory>
        requires { AreTablesOf (view_function function.now.f.now) function.now.tables.now }
        ensures { let a = asked_in function.now.tables.now (view_function function.now.f.now) in AreKnown a self.old.starts.items self.old.table → OnOk result (AreKnown a self.new.starts.items self.new.table) }
    {
        let keys = function.tables.setting().keys();
        let start = map_of_choice(function.alloc, keys, choice)?;
        let words = words_of(function.alloc, keys, start.numbers.as_slice())?;
        let valid = is_valid(function.alloc, function.tables, words.as_slice())?;
        if valid {
            return self.add(function, &start);
        }
        Ok(())
    }

    // The input maps of choices join, the valid ones.
    fn try_choices(&mut self, function: &JudgedFunction, choices: &[Choice]) -> Result<(), NoMemory>
        requires tables { AreTablesOf (view_function function.now.f.now) function.now.tables.now }
        requires known { AreKnown (asked_in function.now.tables.now (view_function function.now.f.now)) self.old.starts.items self.old.table }
        ensures { OnOk result (AreKnown (asked_in function.now.tables.now (view_function function.now.f.now)) self.new.starts.items self.new.table) }
    {
        for choice in choices {
            self.try_choice(function, *choice)?;
        }
        Ok(())
    }

    /// The first starts of a function: of some dozens of fixed input maps the valid ones.
    pub fn begin(function: &JudgedFunction) -> Result<Known, NoMemory>
        requires { AreTablesOf (view_function function.now.f.now) function.now.tables.now }
        ensures { let a = asked_in function.now.tables.now (view_function function.now.f.now) in IfOk result (λ known. AreKnown a known.starts.items known.table) }
    {
        let mut known = Known::new(function.alloc);
        known.try_choices(function, &CHOICES)?;
        Ok(known)
    }

    /// Those of the numbers that stand in the function join, the valid ones. They are run before the first question
    /// alone, since there may be as many as the function has constants.
    pub(crate) fn add_numbers(&mut self, function: &JudgedFunction) -> Result<(), NoMemory>
        requires tables { AreTablesOf (view_function function.now.f.now) function.now.tables.now }
        requires known { AreKnown (asked_in function.now.tables.now (view_function function.now.f.now)) self.old.starts.items self.old.table }
        ensures { OnOk result (AreKnown (asked_in function.now.tables.now (view_function function.now.f.now)) self.new.starts.items self.new.table) }
    {
        let types = function.tables.setting().types();
        let choices = number_choices(function.alloc, types, function.f)?;
        self.lacks_numbers = false;
        self.try_choices(function, choices.as_slice())
    }
}
