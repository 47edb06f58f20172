// The parts of a text in SMT-LIB 2.6: tokens, declared symbols and terms, each read as docs/TEXT.md describes it.
#![tactic(auto)]

pub mod arguments;
pub mod bytes;
pub mod declarations;
pub mod declared;
pub mod exact;
pub mod functions;
pub mod heads;
pub mod lists;
pub mod nodes;
pub mod prologue;
pub mod ranks;
pub mod terms;
pub mod tokens;
pub mod whole;
pub mod words;
