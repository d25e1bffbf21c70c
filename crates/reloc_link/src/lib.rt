//! Relocation of PowerPC code and data: what a field holds once its symbol has an address, and
//! writing the fields of an image in order.
#![tactic(auto)]

mod fields;
mod kind;
mod laws;
mod patching;

pub use fields::{FieldFault, field, width};
pub use kind::RelocType;
pub use laws::{patch_law, types_law};
pub use patching::{Binding, RelocErr, patch};
