// Laws of runs, each carried by a call.
ghost use Rattle.unfolded_runs.specs.Claims.{BlocksMeanTheSource, FilesAllowSome};

/// The law that the blocks of a typed program never go wrong, and that they allow what the files allow by their names, and
/// nothing else.
pub fn blocks_mean_the_source()
    ensures { BlocksMeanTheSource }
{}

/// The law that the files of a typed program allow some outcome for arguments of the types of an entry's parameters, and any
/// budget of turns.
pub fn files_allow_some_outcome()
    ensures { FilesAllowSome }
{}
