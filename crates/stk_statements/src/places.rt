//! Where a statement of a function stands.

ghost use Rattle.std.specs.Prelude.{◌≡◌, List, length};
ghost use Rattle.stk_typing.specs.declared.locals.LocalName.{LocalName};
ghost use Rattle.stk_function_types.specs.Bodies.{looped, switched, opened};
ghost use Rattle.stk_statements.specs.Places.{body_in};

use stk_address_taken::NodeSet;
use stk_ctype::CType;
use stk_declarators::File;
use stk_typing::Locals;

/// Where a statement stands: the input with the names of file scope, the declarators whose names are operands of `&`,
/// what the function returns, how many locals stand outside of the block at hand, and whether there is something for
/// `break` and for `continue` to leave.
#[derive(Clone, Copy)]
pub struct Context<'a> {
    pub file: File<'a>,
    pub taken: &'a NodeSet,
    pub returns: &'a CType,
    pub outer: usize,
    pub can_break: bool,
    pub can_continue: bool,
}

impl<'a> Context<'a> {
    /// The place of the body of a loop, which `break` and `continue` leave (C11 6.8.5, 6.8.6).
    pub fn looped(&self) -> Context<'a>
        ensures is { (ls : List LocalName) → body_in result ls ≡ looped (body_in self.now ls) }
        ensures names { result.file.names.now ≡ self.now.file.names.now }
    {
        Context {
            can_break: true,
            can_continue: true,
            ..*self
        }
    }

    /// The place of the body of a `switch`, which `break` leaves (C11 6.8.4.2, 6.8.6.3).
    pub fn switched(&self) -> Context<'a>
        ensures is { (ls : List LocalName) → body_in result ls ≡ switched (body_in self.now ls) }
        ensures names { result.file.names.now ≡ self.now.file.names.now }
    {
        Context {
            can_break: true,
            ..*self
        }
    }

    /// The place of a block of its own, which begins behind these locals (C11 6.8.2).
    pub fn opened(&self, locals: &Locals) -> Context<'a>
        ensures is { body_in result locals.now ≡ opened (body_in self.now locals.now) }
        ensures outer { result.outer ≡ length locals.now }
        ensures names { result.file.names.now ≡ self.now.file.names.now }
    {
        Context {
            outer: locals.count(),
            ..*self
        }
    }
}
