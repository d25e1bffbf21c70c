//! The board's RAM, as a list of bytes, in pages that are created at their first write.
#![tactic(auto)]

mod code;
mod outside;
mod pages;
mod ram;
mod ram_string;
mod store;

pub use code::WORDS;
pub use outside::Outside;
pub use pages::Pages;
pub use ram::Ram;
pub use ram_string::RamString;
pub use store::PAGE;
