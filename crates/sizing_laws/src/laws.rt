// The laws of programs under two numberings, each carried by a call.
ghost use Rattle.sizing_laws.specs.Claims.{AliasesAreOne, OrderCounts, OrderIsOne, SizingIsOne, SomeOrder, TypingIsOne};
ghost use Rattle.sizing_laws.specs.Renaming.{TypingsAreOne};
ghost use Rattle.sizing_laws.specs.Sources.{FirstBrokenIsOne, NothingOpenIsOne, SizingsAreOne};

/// The law that what is answered of a program's sizes does not hang on how names and records are numbered, where records have
/// their parts in one order: a typing under one numbering is one under each, with other numbers of records, and by it the sizes
/// are refused in the same way, or nodes have the same sized types with those numbers.
#[tactic(auto, using(crate::proofs::Typing::typing_is_one, crate::proofs::Walk::sizing_is_one))]
pub fn sizes_hang_on_no_numbering()
    ensures typing { TypingIsOne }
    ensures sizing { SizingIsOne }
{}

/// The law that the first rule on aliases and consumption that a program breaks does not hang on it either, nor
/// on the names of the variables that stay open.
pub fn aliases_hang_on_no_numbering()
    ensures { AliasesAreOne }
{}

/// The order of parts counts: of a program that is refused in two ways under two numberings that differ in it.
#[tactic(auto, using(crate::proofs::Counting::order_counts))]
pub fn order_counts()
    ensures { OrderCounts }
{}

/// The law that each numbering of names and records can be put in the order of names, and that records have their parts in one
/// order in any two that are.
#[tactic(auto, using(crate::proofs::Ordering::order_is_one, crate::proofs::Ordering::some_order))]
pub fn names_have_one_order()
    ensures one { OrderIsOne }
    ensures some { SomeOrder }
{}

/// The law that any two typings of a program under one numbering are one, with other names for the variables that stay open.
#[tactic(auto, using(crate::proofs::Instances::typings_are_one))]
pub fn typings_are_one()
    ensures { TypingsAreOne }
{}

/// The law that the first rule on aliases and consumption that a program breaks is the same by all numberings in the order of
/// names and all typings.
#[tactic(auto, using(crate::proofs::Sources::first_broken_is_one))]
pub fn first_broken_is_one()
    ensures { FirstBrokenIsOne }
{}

/// The law that what is answered of a program's sizes is the same by all numberings in the order of names and all typings, where
/// one typing leaves no variable open, and then none does.
pub fn closed_sizings_are_one()
    ensures closed { NothingOpenIsOne }
    ensures sizing { SizingsAreOne }
{}
