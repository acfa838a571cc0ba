// Sources, sinks and loaders in memory. They tell all that they hold, and fail at the calls that a list numbers.
ghost use Rattle.std.specs.Prelude.{◌↔◌, IsTrue, Contains};

mod loader;
mod sink;
mod source;

pub use loader::MemLoader;
pub use sink::{MemSink, SureSink};
pub use source::{MemSource, SureSource};

/// Whether a call is one of those that are to fail.
fn is_listed(fails: &[u64], call: u64) -> bool
    ensures { IsTrue result ↔ Contains fails.now call }
{
    fails.contains(&call)
}
