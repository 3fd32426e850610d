//! The types of C under this profile (LP64), and the names that are in force: what each name and tag means, and the
//! size of each type.
#![tactic(auto)]

mod ctype;
mod facts;
mod index;
mod kind;
mod names;
mod owned_signature;
mod shared_signature;
mod shared_type;
mod sizes;
mod symbol;

pub use ctype::{CType, Signature};
pub use index::Index;
pub use kind::IntKind;
pub use names::Names;
pub(crate) use owned_signature::OwnedSignature;
pub use shared_signature::SharedSignature;
pub use shared_type::SharedType;
pub use symbol::{MemberInfo, NameEntry, Symbol, Tag};

#[cfg(test)]
mod checking;
#[cfg(test)]
mod tests;
