// Laws of the files that are read.
ghost use Rattle.source_files.specs.Claims.{ImportsAreFiles, NamedIsFirst, PathsStandOnce, ReadOnce, ReadOrStopped};

/// The law that of the files that are read the named one is the first, each path stands once, and what a file imports is one of the
/// files: where files are read, no import is unbound.
#[tactic(auto, using(crate::proofs::Closed::named_is_first, crate::proofs::Closed::paths_stand_once, crate::proofs::Closed::imports_are_files))]
pub fn files_are_closed()
    ensures first { NamedIsFirst }
    ensures once { PathsStandOnce }
    ensures imports { ImportsAreFiles }
{}

/// The law that the told files of a loader determine which files are read, and that where all are read nothing in them keeps them
/// from being read.
#[tactic(auto, using(crate::proofs::One::read_once, crate::proofs::One::read_or_stopped))]
pub fn told_files_are_read_once()
    ensures once { ReadOnce }
    ensures stopped { ReadOrStopped }
{}
