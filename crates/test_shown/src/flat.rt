// Flat programs as text, in the forms of the trees of texts: `x#3` is the name `x` that has the number 3, and a name of
// sugar, or a size that is not written, is its number alone.
pub mod acts;
pub mod expressions;
pub mod patterns;
pub mod programs;
pub mod refs;
pub mod types;
