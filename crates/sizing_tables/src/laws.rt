// Laws of sizings, each carried by a call.
ghost use Rattle.sizing_tables.specs.Claims.{SizingIsThere, SizingIsTold};

/// The law that a program which elaboration makes has a sizing, whatever sized types its nodes have; and that it is right about the
/// names of sizes: each that is bound has the number of one, no other name has, and each use tells its size.
pub fn sizing_is_told()
    ensures there { SizingIsThere }
    ensures told { SizingIsTold }
{}
