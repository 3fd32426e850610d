//! What the runs of a function rest on: its registers, the objects of file scope that it names, its keys and its kept
//! objects.
#![tactic(auto)]

mod building;
mod calls;
mod changes;
mod infos;
mod keys;
mod mentions;
mod registers;
mod setting;

pub use calls::{called_library, called_signature};
pub use changes::{Change, assigned, changed_in_turn, is_any_of_kept};
pub use infos::{Key, KeyInfo};
pub use mentions::Mention;
pub use registers::fits_register;
pub use setting::Setting;
