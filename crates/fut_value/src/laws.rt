// Laws of values, each carried by a call.
ghost use Rattle.std.specs.Prelude.{◌≡◌};
ghost use Rattle.fut_value.specs.Data.{shape_of};
ghost use Rattle.fut_value.specs.Leaves.{WeightOfLeaves, WordsOfLeaves};
ghost use Rattle.fut_value.specs.Values.{datum_of, shape_in};
ghost use Rattle.fut_value.specs.declared.value.Value.{Value};

/// The law that the data which a value stands for has the value's shape.
pub fn values_have_their_shapes()
    ensures { (value : Value) → shape_of (datum_of value) ≡ shape_in value.shape }
{}

/// The law that the words of data and its weight go by the sizes of its leaves alone.
#[tactic(auto, using(crate::proofs::Leaves::words_of_leaves, crate::proofs::Leaves::weight_of_leaves))]
pub fn weight_goes_by_leaves()
    ensures words { WordsOfLeaves }
    ensures weight { WeightOfLeaves }
{}
