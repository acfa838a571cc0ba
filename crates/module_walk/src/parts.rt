// What the walk does with what it holds.
ghost use Rattle.std.specs.Prelude.{◌≡◌, map};
ghost use Rattle.elab_scopes.specs.Declarations.{may_begin};
ghost use Rattle.fut_tree.specs.ModTypes.{label_of};
ghost use Rattle.elab_scopes.specs.Held.{module_ref_of};
ghost use Rattle.elab_scopes.specs.Modules.{contents_of};
ghost use Rattle.elab_scopes.specs.declared.refusal.Refusal.TheVariants as held;
ghost use Rattle.elab_scopes.specs.declared.refusal.Stop.TheVariants as stop;
ghost use Rattle.module_state.specs.Standing.{Does, block_of, given_of, meeting_of};
ghost use Rattle.module_walk.specs.Steps.{inner_meeting, meeting_within, meets, module_contents, opened_file};

use bumpalo::Bump;
use elab_scopes::{Contents, ModuleRef, Refusal, Stop, module_in_module};
use fut_scalar::Place;
use fut_tree::{Label, ModType};
use module_members::given_within;
use module_state::{Block, Declaring, Given, Meeting, brought, contents_of};

/// The module type of a parametric module: its parameter with its module type, that of the result, and the parameter as a module.
#[derive(Clone, Copy)]
pub struct Arrow<'a> {
    pub label: Label<'a>,
    pub bound: &'a ModType<'a>,
    pub target: &'a ModType<'a>,
    pub parameter: ModuleRef,
}

/// The refusal of a name that was declared before.
pub fn twice<'a>(label: Label<'a>) -> Stop<'a>
    ensures { result ≡ stop.Refused (held.Twice label.entry.name label.entry.place) }
{
    Stop::Refused(Refusal::Twice {
        name: label.name,
        at: label.place,
    })
}

/// Whether a run may begin at a definition: it stands directly in its file.
pub fn may_begin(is_top: bool, is_entry: bool, name: &str) -> bool
    ensures { result ≡ may_begin is_top is_entry name.now }
{
    is_top && (is_entry || name == "main")
}

/// A module that meets a module type, with its types hidden or shown.
pub fn meets<'a>(hides: bool, of: ModuleRef, given: &'a [Given<'a>]) -> Meeting<'a>
    ensures { meeting_of result ≡ meets hides (module_ref_of of) (map given_of given.now) }
{
    if hides {
        Meeting::Hidden(of, given)
    } else {
        Meeting::Shown(of, given)
    }
}

/// What a module of this name meets, of a module that meets a module type.
#[tactic(auto, using(module_state::proofs::Stands::standing))]
fn inner_meeting<'a>(
    hides: bool,
    of: ModuleRef,
    given: &'a [Given<'a>],
    label: Label<'a>,
    bump: &'a Bump,
    state: &mut Declaring<'a>,
) -> Result<Meeting<'a>, Stop<'a>>
    ensures { Does meeting_of (inner_meeting hides (module_ref_of of) (map given_of given.now) (label_of label.entry)) state.old state.new result }
{
    let inner = match module_in_module(state.names.modules(), of, label.name) {
        Some(inner) => inner,
        None => {
            return Err(Stop::Refused(Refusal::SealMissing {
                name: label.name,
                at: label.place,
            }));
        }
    };
    match given_within(given, label.name, bump) {
        Ok(given) => Ok(meets(hides, inner, given)),
        Err(_) => Err(Stop::Memory),
    }
}

/// What a module of this name meets, where a module type asks for one.
pub fn meeting_within<'a>(
    label: Label<'a>,
    meeting: Meeting<'a>,
    bump: &'a Bump,
    state: &mut Declaring<'a>,
) -> Result<Meeting<'a>, Stop<'a>>
    ensures { Does meeting_of (meeting_within (label_of label.entry) (meeting_of meeting.entry)) state.old state.new result }
{
    match meeting {
        Meeting::Hidden(of, given) => inner_meeting(true, of, given, label, bump, state),
        Meeting::Shown(of, given) => inner_meeting(false, of, given, label, bump, state),
        Meeting::Nothing => Ok(Meeting::Nothing),
    }
}

/// What a module is.
#[tactic(auto, using(module_state::proofs::Stands::standing))]
pub fn module_contents<'a>(
    of: ModuleRef,
    bump: &'a Bump,
    state: &mut Declaring<'a>,
) -> Result<Contents<'a>, Stop<'a>>
    ensures { Does contents_of (module_contents (module_ref_of of)) state.old state.new result }
{
    match contents_of(state.names.modules(), of, bump) {
        Ok(contents) => Ok(contents),
        Err(_) => Err(Stop::Memory),
    }
}

/// What the opening of a file brings, which is not exported. What is parametric has no members.
#[tactic(auto, using(module_state::proofs::Stands::standing))]
pub fn opened_file<'a>(
    name: &'a str,
    at: Place,
    of: ModuleRef,
    block: Block<'a>,
    bump: &'a Bump,
    state: &mut Declaring<'a>,
) -> Result<Block<'a>, Stop<'a>>
    ensures { Does block_of (opened_file at name.now (block_of block.entry) (module_ref_of of)) state.old state.new result }
{
    let contents = match contents_of(state.names.modules(), of, bump) {
        Ok(contents) => contents,
        Err(_) => return Err(Stop::Memory),
    };
    match contents {
        Contents::Members(members) => brought(true, members, block, bump),
        Contents::Parametric(_) => Err(Stop::Refused(Refusal::Unbound { name, at })),
    }
}
