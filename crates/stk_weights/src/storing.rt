//! What kept objects add to the weight of the nodes that read or change them.

ghost use Rattle.std.specs.Prelude.{◌≡◌, ◌≤◌, length};
ghost use Rattle.stk_tree.specs.View.{view_expression};
ghost use Rattle.stk_function_types.specs.Nodes.{typing_in};
ghost use Rattle.stk_meaning.specs.Typings.{type_in};
ghost use Rattle.stk_meaning.specs.Places.{target_of};
ghost use Rattle.stk_meaning.specs.Weights.{bits_in, read_weight, store_weight};
ghost use Rattle.stk_function_types.specs.Visits.{use_in};
ghost use Rattle.stk_function_env.specs.Settings.{setting_in};
ghost use Rattle.stk_operators.specs.Targets.{target_shown};

use crate::forms::bits_of;
use crate::operations::bits_in;
use stk_function_env::Setting;
use stk_function_types::{FunctionTypes, Use};
use stk_operators::Target;
use stk_tree::Expr;

/// How many kept objects there are.
pub(crate) fn kept_count(setting: &Setting) -> u64
    ensures is { result ≡ length (setting_in setting.now).kept }
    ensures few { result ≤ 32 }
{
    setting.kept().len() as u64
}

/// What a read of a place that is used so adds at a node.
pub(crate) fn read_weight(types: &FunctionTypes, node: u32, used: Use, place: Target) -> u64
    ensures is { result ≡ read_weight (typing_in types.now) node (use_in used) (target_shown place) }
    ensures few { result ≤ 2048 }
{
    match used {
        Use::Read => match place {
            Target::Kept(_) => 32 * bits_in(types.type_at(node)),
            Target::Register(_) | Target::Object(_) | Target::Unnamed => 0,
        },
        Use::Accessed | Use::Taken => 0,
    }
}

/// What a store of so many bits to a place adds, where so many objects are kept: by name to a kept object 16 a bit; one
/// that isn't by name 16 for each kept object.
pub(crate) fn store_weight(kept: u64, w: u64, place: Target) -> u64
    requires kept { kept ≤ 32 }
    requires bits { w ≤ 64 }
    ensures is { result ≡ store_weight kept w (target_shown place) }
    ensures few { result ≤ 1024 }
{
    match place {
        Target::Kept(_) => 16 * w,
        Target::Unnamed => 16 * kept,
        Target::Register(_) | Target::Object(_) => 0,
    }
}

/// What a store to an expression adds.
pub(crate) fn stored_weight(setting: &Setting, e: &Expr) -> u64
    ensures is { result ≡ store_weight (length (setting_in setting.now).kept) (bits_in (type_in (setting_in setting.now).typing (view_expression e.now))) (target_of (setting_in setting.now) (view_expression e.now)) }
    ensures few { result ≤ 1024 }
{
    store_weight(
        kept_count(setting),
        bits_of(setting.types(), e),
        setting.target_of(e),
    )
}
