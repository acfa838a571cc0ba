//! Sized types as data: types with a size for each level of their arrays.
//!
//! Definitions alone. Sizing (`fut_sizes`) gives one to each node of a program, and the meaning (`fut_meaning`) reads off
//! them what no value tells. `specs/Sizes.antt` has the types, `specs/Standing.antt` what stands in them.
#![tactic(auto)]
