// Primitives, and the parameters that they have.
ghost use Rattle.std.specs.Prelude.{◌≡◌, IfErr, IfOk};
ghost use Rattle.fut_meaning.specs.Knowns.{known_primitive};
ghost use Rattle.fut_meaning.specs.Operations.{parameters_of};
ghost use Rattle.unfold_measure.specs.Held.{known_of};
ghost use Rattle.unfold_measure.specs.declared.stop.Stop.TheVariants as stop;

use crate::known::{Known, KnownForm, held, known_data};
use crate::stop::Stop;
use bumpalo::Bump;
use fut_flat::Primitive;
use fut_primitives::line_of;

/// What the use of a primitive is.
#[tactic(auto, using(crate::proofs::Mirror::mirrors), unfolding(crate::specs::Held::knowns))]
pub fn known_primitive<'a>(bump: &'a Bump, primitive: Primitive) -> Result<Known<'a>, Stop>
    ensures ok { IfOk result (λ known. known_of known ≡ known_primitive primitive) }
    ensures err { IfErr result (λ e. e ≡ stop.Memory) }
{
    match primitive {
        Primitive::Lowest(_) | Primitive::Highest(_) | Primitive::NumBits(_) => Ok(known_data()),
        _ => held(bump, KnownForm::Primitive(primitive, &[])),
    }
}

/// The parameters of a primitive: 0 for data, and for a function how many arguments it takes.
pub fn parameters_of(primitive: Primitive) -> &'static [u32]
    ensures { result.now ≡ parameters_of primitive }
{
    line_of(primitive).parameters
}
