// Applications of functions to several arguments.
ghost use Rattle.std.specs.Prelude.{◌≡◌, map, IfOk};
ghost use Rattle.std.specs.Borrow.{Bor};
ghost use Rattle.fut_flat.specs.Erased.{term_of};
ghost use Rattle.fut_flat.specs.declared.exp.Exp.{Exp as TheExp};
ghost use Rattle.fut_sizes.specs.Applications.{Part as ThePart};
ghost use Rattle.fut_sizes.specs.Steps.{Step};
ghost use Rattle.fut_types.specs.Types.{Sub};
ghost use Rattle.fut_typing.specs.Names.{Names};
ghost use Rattle.size_applying.specs.Wanted.{Is_part};
ghost use Rattle.size_walk.specs.Walked.{Has_arguments, applied_to, terms_of};

use bumpalo::Bump;
use bumpalo::collections::into_bump_slice;
use fut_flat::{Exp, Form};
use fut_scalar::NoMemory;
use size_applying::{Argument, Part};

/// A function and what it is applied to, the last argument first.
#[derive(Clone, Copy)]
pub struct Spine<'a> {
    pub function: &'a Exp<'a>,
    pub arguments: &'a [&'a Exp<'a>],
}

// What is left of an application.
#[derive(Clone, Copy)]
struct Left<'a> {
    exp: &'a Exp<'a>,
}

/// An application as a function that is none and its arguments.
#[tactic(auto, using(crate::proofs::SpineForms::spines))]
pub(crate) fn spine_of<'a>(exp: &'a Exp<'a>, bump: &'a Bump) -> Result<Spine<'a>, NoMemory>
    ensures { IfOk result (λ s. term_of exp.now ≡ applied_to (term_of s.function.now) (terms_of s.arguments.now)) }
{
    let mut arguments = Vec::new(bump);
    let mut left = Left { exp };
    while let Form::Apply(function, argument) = left.exp.form {
        arguments.push(argument)?;
        left = Left { exp: function };
    }
    Ok(Spine {
        function: left.exp,
        arguments: into_bump_slice(arguments),
    })
}

/// A part with the arguments that were given to it one after another.
#[tactic(auto, using(crate::proofs::SpineForms::gathers))]
pub(crate) fn gathered<'a>(
    function: &Part<'a>,
    arguments: Vec<Argument<'a>, &'a Bump>,
    bump: &'a Bump,
) -> Result<Part<'a>, NoMemory>
    ensures { (N : Names) (types : Sub) (p : ThePart) → Has_arguments N types function.now arguments.entry.items p → IfOk result (λ part. Is_part N types part p) }
{
    match *function {
        Part::Applied {
            size,
            is_regular,
            arguments: before,
        } => {
            let mut all = Vec::new(bump);
            all.extend_from_slice(before)?;
            all.extend_from_slice(arguments.as_slice())?;
            Ok(Part::Applied {
                size,
                is_regular,
                arguments: into_bump_slice(all),
            })
        }
        Part::Waiting { .. } => Ok(*function),
    }
}
