//! Names with their declarators, as far as they are in force.

ghost use Rattle.std.specs.Prelude.{◌≡◌, ◌++◌, OnOk, map};
ghost use Rattle.stk_tree.specs.View.{view_declarator};
ghost use Rattle.stk_address_taken.specs.Bindings.{find_binding, declarator_bindings};

use stk_base::{NoMemory, Span};
use stk_tree::Declr;

/// A name, and the number of the node of its declarator.
#[derive(Clone, Copy, Debug, PartialEq, Eq)]
pub struct Binding {
    pub name: Span,
    pub node: u32,
}

/// The declarator of the last binding of a name.
pub(crate) fn find_binding(bytes: &[u8], name: &[u8], bindings: &[Binding]) -> Option<u32>
    ensures { result ≡ find_binding bytes.now name.now bindings.now }
{
    let mut found = None;
    for binding in bindings {
        if binding.name.text(bytes) == name {
            found = Some(binding.node);
        }
    }
    found
}

/// Brings the name of a declarator into force, where it has one.
pub(crate) fn add_binding(bindings: &mut Vec<Binding>, d: &Declr) -> Result<(), NoMemory>
    ensures { OnOk result (bindings.new.items ≡ bindings.old.items ++ declarator_bindings (view_declarator d.now)) }
{
    if let Some(name) = d.name {
        let node = d.node.number;
        bindings.push(Binding { name, node })?;
    }
    Ok(())
}
