// The definitions of a program, one after another.
ghost use Rattle.std.specs.Prelude.{◌≡◌, ◌∷◌, List, None, Some, Ok, Err, IfOk, OnOk};
ghost use Rattle.fut_aliases.specs.Aliases.{first_name_alone};
ghost use Rattle.fut_aliases.specs.Programs.{definitions_looked, first_broken};
ghost use Rattle.fut_aliases.specs.declared.refusals.Broken.{Broken};
ghost use Rattle.fut_types.specs.Shapes.{IsTable};
ghost use Rattle.fut_typing.specs.Names.{Names};
ghost use Rattle.fut_typing.specs.Program.{Defined, defined, program_of};
ghost use Rattle.alias_parts.specs.Known.{Knows};
ghost use Rattle.alias_types.specs.Kinds.{kinds_of};
ghost use Rattle.alias_program.specs.Program.{sub_of};
ghost use Rattle.alias_scopes.specs.Scopes.{scope_of};
ghost use Rattle.uniqueness.specs.declared.held.Stop.TheVariants as stop;

use alias_forms::Site;
use alias_losses::Losses;
use alias_program::{Program, after, no_alias};
use alias_scopes::{ScopeTree, no_names, with_value};
use alias_values::named;
use alias_walk::value_looked;
use bumpalo::Bump;
use fut_flat::{Definition, Flat};
use std::alloc::Global;
use uniqueness::{Here, Stop};

/// What is in scope behind definitions, and the number behind theirs.
#[derive(Clone, Copy)]
pub struct Behind<'a> {
    pub scope: &'a ScopeTree<'a>,
    pub at: u32,
}

// One definition behind others. What is defined at the top level may not be consumed.
fn definition_checked<'a>(
    alloc: Global,
    bump: &'a Bump,
    program: &Program<'a>,
    definition: &Definition<'_>,
    before: &Behind<'a>,
) -> Result<Behind<'a>, Stop>
    requires table { IsTable program.now.names.table.now }
    ensures fits { (N : Names) → Knows program.now.names N → (more_of : List Defined) → IfOk result (λ next. definitions_looked first_name_alone N (kinds_of program.now.kinds.now) (sub_of program.now.types.now) (defined definition.now ∷ more_of) before.now.at (scope_of before.now.scope.now) ≡ definitions_looked first_name_alone N (kinds_of program.now.kinds.now) (sub_of program.now.types.now) more_of next.at (scope_of next.scope.now)) }
    ensures refused { (N : Names) → Knows program.now.names N → (more_of : List Defined) (b : Broken) → result ≡ Err (stop.Refused b) → definitions_looked first_name_alone N (kinds_of program.now.kinds.now) (sub_of program.now.types.now) (defined definition.now ∷ more_of) before.now.at (scope_of before.now.scope.now) ≡ Err b }
{
    let Ok(node) = after(before.at, 1) else {
        return Err(Stop::Memory);
    };
    let site = Site {
        program: *program,
        here: Here {
            fixed: no_alias(bump),
            loop_from: before.at,
            function_from: before.at,
            asked: true,
        },
        scope: before.scope,
    };
    let mut losses = Losses::new(alloc);
    let found = value_looked(bump, &site, &mut losses, definition.value, None, node)?;
    let Ok(value) = named(bump, false, before.at, definition.bind, 0, found.held.value) else {
        return Err(Stop::Memory);
    };
    let Ok(scope) = with_value(bump, definition.bind, value, before.scope) else {
        return Err(Stop::Memory);
    };
    Ok(Behind {
        scope,
        at: found.after,
    })
}

/// Checks that a program, of these types and names, breaks no rule of aliases and consumption; else answers the first that it
/// breaks. It breaks a rule, or not, whatever `N` gives the names that are not known.
pub fn check<'a>(
    alloc: Global,
    bump: &'a Bump,
    program: &Program<'a>,
    flat: &Flat<'_>,
) -> Result<(), Stop>
    requires table { IsTable program.now.names.table.now }
    ensures accepted { (N : Names) → Knows program.now.names N → OnOk result (first_broken first_name_alone N (kinds_of program.now.kinds.now) (sub_of program.now.types.now) (program_of flat.now) ≡ None) }
    ensures refused { (N : Names) → Knows program.now.names N → (b : Broken) → result ≡ Err (stop.Refused b) → first_broken first_name_alone N (kinds_of program.now.kinds.now) (sub_of program.now.types.now) (program_of flat.now) ≡ Some b }
{
    let Ok(scope) = no_names(bump) else {
        return Err(Stop::Memory);
    };
    let mut behind = Behind { scope, at: 0 };
    for definition in flat.definitions {
        let next = definition_checked(alloc, bump, program, definition, &behind)?;
        behind = next;
    }
    Ok(())
}
