// Copies of values, for which there is memory.
use fut_scalar::{List, NoMemory, ScalarType};
use fut_value::{Shape, Value, copy_value, weight};
use std::alloc::Global;

/// An array of truth values of these sizes.
fn array_of(alloc: Global, sizes: &[u64], words: &[u64]) -> Result<Value, NoMemory> {
    let elem = ScalarType::Bool;
    let sizes = List::from_slice(alloc, sizes)?;
    let words = List::from_slice(alloc, words)?;
    let shape = Shape { elem, sizes };
    Ok(Value { shape, words })
}

/// Whether an array of two rows of two truth values has a copy.
fn is_copied(alloc: Global, words: &[u64]) -> Result<bool, NoMemory> {
    let array = array_of(alloc, &[2, 2], words)?;
    let copy = copy_value(alloc, &array)?;
    let is_bool = copy.shape.elem == ScalarType::Bool;
    Ok(
        is_bool
            && copy.shape.sizes.as_slice() == [2u64, 2].as_slice()
            && copy.words.as_slice() == words,
    )
}

#[test]
fn an_array_is_copied(rt: HostRuntime) {
    assert!(rt; is_copied(rt.alloc(), &[1, 0, 0, 1]) == Ok(true));
    assert!(rt; is_copied(rt.alloc(), &[0, 0, 1, 1]) == Ok(true));
}

/// The weight of an array of no scalar, by its sizes.
fn weight_of_none(alloc: Global, sizes: &[u64]) -> Result<Option<u64>, NoMemory> {
    let array = array_of(alloc, sizes, &[])?;
    Ok(weight(&array.shape))
}

#[test]
fn a_weight_is_that_of_the_first_sizes(rt: HostRuntime) {
    assert!(rt; weight_of_none(rt.alloc(), &[33554432, 0]) == Ok(Some(33554432)));
    assert!(rt; weight_of_none(rt.alloc(), &[33554433, 0]) == Ok(None));
    assert!(rt; weight_of_none(rt.alloc(), &[0, 33554433]) == Ok(Some(0)));
}
