//! Scripts: reading a line into a form, and running a whole script on a register.
#![tactic(auto)]

pub mod answer;
mod cursor;
pub mod excerpt;
pub mod fault;
pub mod form;
pub mod input;
pub mod kind;
mod lexer;
pub mod line;
mod name;
pub mod program;
mod reader;
pub mod running;
pub mod source;
pub mod theorems;
mod token;
