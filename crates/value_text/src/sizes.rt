// Sizes that parameters agree on.
ghost use Rattle.std.specs.Prelude.{◌≡◌, nat_eq, ◌<◌, ◌+◌, ◌^◌, ◌∷◌, All, true, false, Ok, OnOk, IfOk, IfErr};
ghost use Rattle.std.specs.HashMap as hash;
ghost use Rattle.fut_value.specs.Values.{IsWellFormed, first_word};
ghost use Rattle.value_text.specs.Agreeing.{Agrees, Clashes, Stands};
ghost use Rattle.std.specs.Int.{w64, cast_signed};
ghost use Rattle.value_text.specs.Sizes.{Known, is_size, named_value, size_for, sizes_for, value_for, values_for};
ghost use Rattle.value_text.specs.declared.reading.TextErr.TheVariants as text;

use crate::reading::TextErr;
use fut_scalar::{ArgType, BindId, Dim, IntType, NoMemory, ScalarType, signed_of_bits};
use fut_value::Value;
use std::collections::HashMap;

/// What a name stands for.
fn found(known: &HashMap<u32, i64>, name: BindId) -> Option<i64>
    ensures { result ≡ hash.get nat_eq known.now name.0 }
{
    known.get(&name.0).copied()
}

/// Gives a name its value.
#[tactic(auto, using(crate::proofs::Agreed::stands))]
fn put(known: &mut HashMap<u32, i64>, name: BindId, value: i64) -> Result<(), NoMemory>
    ensures { OnOk result ((list : Known) → Stands (hash.get nat_eq known.old) list → Stands (hash.get nat_eq known.new) ((name.0, value) ∷ list)) }
{
    match known.insert(name.0, value) {
        Ok(_) => Ok(()),
        Err(_) => Err(NoMemory),
    }
}

#[tactic(auto, using(crate::proofs::Agreed::is_same))]
fn is_size(want: i64, have: u64) -> bool
    ensures { result ≡ is_size want have }
{
    match u64::try_from(want) {
        Ok(size) => size == have,
        Err(_) => false,
    }
}

/// Refuses a size that is another one than is wanted.
fn agreed(param: u64, have: u64, want: i64) -> Result<(), TextErr>
    ensures ok { IfOk result (λ _. is_size want have ≡ true) }
    ensures err { IfErr result (λ err. (is_size want have ≡ false) × (err ≡ text.SizeClash param have want)) }
{
    if is_size(want, have) {
        Ok(())
    } else {
        Err(TextErr::SizeClash { param, have, want })
    }
}

/// One size of a parameter.
#[tactic(auto, using(crate::proofs::Agreed::one_size))]
fn size_for(known: &mut HashMap<u32, i64>, param: u64, dim: &Dim, have: u64) -> Result<(), TextErr>
    requires { have < 2 ^ 63 }
    ensures ok { OnOk result (Agrees (hash.get nat_eq known.old) (hash.get nat_eq known.new) (size_for param dim.now have)) }
    ensures err { IfErr result (Clashes (hash.get nat_eq known.old) (size_for param dim.now have)) }
{
    match dim {
        Dim::Const(n) => agreed(param, have, signed_of_bits(*n)),
        Dim::Name(name) => match found(known, *name) {
            Some(want) => agreed(param, have, want),
            None => {
                put(known, *name, signed_of_bits(have))?;
                Ok(())
            }
        },
        Dim::Unknown(_, _) => Ok(()),
    }
}

/// The sizes of a parameter.
fn sizes_for(
    known: &mut HashMap<u32, i64>,
    param: u64,
    dims: &[Dim],
    sizes: &[u64],
) -> Result<(), TextErr>
    requires { All (λ n. n < 2 ^ 63) sizes.now }
    ensures ok { OnOk result (Agrees (hash.get nat_eq known.old) (hash.get nat_eq known.new) (sizes_for param dims.now sizes.now)) }
    ensures err { IfErr result (Clashes (hash.get nat_eq known.old) (sizes_for param dims.now sizes.now)) }
{
    for at in 0..dims.len() {
        if at >= sizes.len() {
            return Ok(());
        }
        match size_for(known, param, &dims[at], sizes[at]) {
            Ok(()) => {}
            Err(err) => return Err(err),
        }
    }
    Ok(())
}

/// The sizes of a parameter, and its name's value.
fn value_for(
    known: &mut HashMap<u32, i64>,
    param: u64,
    wanted: &ArgType,
    value: &Value,
) -> Result<(), TextErr>
    requires { IsWellFormed value.now }
    ensures ok { OnOk result (Agrees (hash.get nat_eq known.old) (hash.get nat_eq known.new) (value_for param wanted.now value.now)) }
    ensures err { IfErr result (Clashes (hash.get nat_eq known.old) (value_for param wanted.now value.now)) }
{
    let dims = wanted.dims.as_slice();
    match sizes_for(known, param, dims, value.shape.sizes.as_slice()) {
        Ok(()) => {}
        Err(err) => return Err(err),
    }
    name_value(known, wanted, value)
}

/// Gives the name of a scalar of type i64 its value, where it has none.
fn name_value(known: &mut HashMap<u32, i64>, wanted: &ArgType, value: &Value) -> Result<(), TextErr>
    ensures ok { OnOk result (Agrees (hash.get nat_eq known.old) (hash.get nat_eq known.new) (λ list. Ok (named_value wanted.now.elem wanted.now.dims wanted.now.name (cast_signed w64 (first_word value.now.words)) list))) }
    ensures err { IfErr result (λ err. err ≡ text.Memory) }
{
    let ScalarType::Int(IntType::I64) = wanted.elem else {
        return Ok(());
    };
    if wanted.dims.len() > 0 {
        return Ok(());
    }
    let Some(name) = wanted.name else {
        return Ok(());
    };
    if found(known, name).is_none() {
        put(
            known,
            name,
            signed_of_bits(first_word(value.words.as_slice())),
        )?;
    }
    Ok(())
}

fn first_word(words: &[u64]) -> u64
    ensures { result ≡ first_word words.now }
{
    match words {
        [] => 0,
        [word, ..] => *word,
    }
}

/// The first size of parameters that is another one than is wanted, where there is one.
pub fn values_for(
    known: &mut HashMap<u32, i64>,
    types: &[ArgType],
    values: &[Value],
) -> Result<(), TextErr>
    requires { All IsWellFormed values.now }
    ensures ok { OnOk result (Agrees (hash.get nat_eq known.old) (hash.get nat_eq known.new) (values_for 1 types.now values.now)) }
    ensures err { IfErr result (Clashes (hash.get nat_eq known.old) (values_for 1 types.now values.now)) }
{
    for at in 0..types.len() {
        if at >= values.len() {
            return Ok(());
        }
        match value_for(known, at as u64 + 1, &types[at], &values[at]) {
            Ok(()) => {}
            Err(err) => return Err(err),
        }
    }
    Ok(())
}
