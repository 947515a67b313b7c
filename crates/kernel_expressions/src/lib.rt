//! Expressions of kernel files: the tokens of a file sorted by what the grammar makes of them, and what stands at a place
//! among them: one token, names, or an expression, read as its steps in postfix order. Nesting costs no stack.
#![tactic(auto)]

pub mod ahead;
pub mod expression;
mod first_place;
mod frame;
pub mod key;
pub mod levels;
pub mod lexeme;
pub mod lexemes;
pub mod lists;
mod operand;
mod operator;
mod partial;
pub mod sign;
mod stack;
pub mod stop;
