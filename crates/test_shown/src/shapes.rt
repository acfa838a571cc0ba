// Trees as text: a form is its word or sign and its parts, in parentheses. Where places are wanted, each expression,
// pattern and type has its place in braces behind it, and an expression also its mark where that is another one.
pub mod expressions;
pub mod modules;
pub mod names;
pub mod patterns;
pub mod types;
