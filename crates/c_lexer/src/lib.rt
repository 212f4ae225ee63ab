//! Cuts a C text into its items: preprocessing tokens and comments (C11 6.4).
//!
//! Each step gives the item that the grammar says is next, with the bytes that it has in the text.
//! [`Lexer`] reads every text, up to a comment that nothing ends ([`LexFault`]).
#![tactic(auto)]

mod class;
mod comment;
mod cut;
mod fault;
mod front;
mod item;
mod lexer;
mod line;
mod next;
mod punctuator;
mod quote;
mod unit;
mod utf8;
mod word;

pub use c_chars::{Dialect, LIMIT};
pub use c_grammar::ItemKind;
pub use c_grammar::place::Standing;
pub use fault::LexFault;
pub use item::{Item, Lexeme};
pub use lexer::Lexer;
