//! What the pass over sizes gives meets the local rules of a sizing.
//!
//! `fut_sizes` has both: a function by structure, which gives each node of a term a sized type or the first refusal, and one
//! rule a form, which a sizing is judged by; what is proved of values (`sized_meaning`) hangs on the rules alone. Here the
//! one is joined to the other, for the terms of `specs/Plain.antt`: names, all operations, functions of data, lets of data,
//! local functions without type variables, loops, branches, a name's function applied to arguments of data, to all or to
//! fewer, and a primitive applied to all of its arguments: data, and where it takes a function one whose parameters have no
//! arrays and which gives data, be it a lambda, a name, a section or what another term gives, or as the first of them a
//! lambda, a name, a primitive or an application whose function takes and gives data; the results of all these are data, and
//! a reduction may lack its array; patterns are names and parts of tuples and records, with written types or without, and one
//! name with a written type may name sizes; functions under a name may have size parameters; and for programs whose
//! definitions are functions of such terms, or such terms of type i64, which are sizes for those behind them, or of another
//! type that is the same in all uses and has no arrays, or is written with all of its sizes (`proofs/Declaring.antt`). Of
//! others nothing is claimed yet: other applications (of primitives to fewer arguments, to other functions), general names
//! with type variables, sizes that parts of a pattern name, parameters of type variables, written types of functions, other
//! definitions of data. `proofs/Unmet.antt` has what a rule asks and the pass does not give.
//!
//! `specs/Known.antt` says what is known of the names in scope. The proof goes by structure (`proofs/Walking.antt`): of each
//! term it says which sizes stand in its sized type, which nodes are noted, and that they meet the rules
//! (`proofs/Meeting.antt`). A pattern takes a value (`proofs/Taking.antt`), whose sizes and names are known behind it
//! (`proofs/Naming.antt`, `proofs/Binding.antt`); where it names sizes, each takes one (`proofs/Taking_sizes.antt`,
//! `proofs/Bound.antt`). A function's arrows bind what its parameters choose, of a head's size names too
//! (`proofs/Heading.antt`), and what its body meets (`proofs/Listing.antt`, `proofs/Arrows.antt`). A loop is sized until a
//! turn keeps all that is kept, which comes before its levels are used up (`proofs/Turning.antt`, `proofs/Looping.antt`).
//! What is found of an argument reads as the argument (`proofs/Reading.antt`), and what stays open is an unknown of the
//! application's node (`proofs/Applying.antt`). All arguments of a function are matched at the end, data first
//! (`proofs/Chains.antt`); then each position of its arrows stands for one size (`proofs/Frames.antt`), and all nodes are
//! noted (`proofs/Noting.antt`, `proofs/Parts.antt`, `proofs/Applied.antt`). Each variable of a primitive takes one sized
//! type, and all is matched as it would be with these types (`proofs/Filling.antt`, `proofs/Alike.antt`,
//! `proofs/Primitives.antt`, `proofs/Heads.antt`). A lambda that a primitive takes is sized behind the other arguments, as by
//! itself (`proofs/Wanting.antt`, `proofs/Later.antt`), and then has the type that is wanted (`proofs/Fitting.antt`,
//! `proofs/Lambdas.antt`). One that takes arrays takes the sizes that are wanted of it (`proofs/Coming.antt`,
//! `proofs/Wide.antt`), which are found behind its parameters (`proofs/Finding.antt`). A name or an application that takes
//! arrays is used at the sizes that are wanted of it (`proofs/Opening.antt`, `proofs/Choosing.antt`, `proofs/Named.antt`).
//! Definitions stand in a row (`proofs/Defining.antt`).
#![tactic(auto)]

mod laws;

pub use laws::{program_sizing_meets_rules, sizing_meets_rules};
