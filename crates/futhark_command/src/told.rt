// What the program tells of itself.
ghost use Rattle.std.specs.Prelude.{◌≡◌, option_map};
ghost use Rattle.futhark_command.specs.Call.{text_asked};

use fut_scalar::{List, Name};

/// What `--help` writes.
pub const HELP: &str = "\
usage: futhark run FILE [--entry NAME] [--turns NUMBER]
       futhark check FILE
       futhark --help
       futhark --version

`run` reads the arguments of an entry point of FILE from standard input, and
writes its result on standard output, a tuple with a line for each part. The
entry point is `main`, or the declaration `entry` of this name. Each `while`
may take 1073741824 turns, or as many as are given.
`check` writes `accepted` on standard output where the names of FILE are bound,
it has a type, its sizes agree, and it overwrites only arrays that are its own; it
reads no input.

With `def main (x: i64) (y: i64): i64 = x * x + y * y` in the file t.fut,
    echo '3 4' | futhark run t.fut
writes 25i64.

The exit status, and for each but 0 a line on standard error:
   0  done
   1  the words are none of the above
   2  FILE, or one that it imports, can't be loaded
   3  a file is no program, or one of a part of Futhark that is not built yet
   4  a name of the program is not bound, bound twice, or no member of a module,
      a module lacks what its type asks for, or a file imports itself
   5  the program has no type
   6  sizes of its arrays differ, or one is not known where it has to be
   7  the program overwrites an array that it may not, or uses one behind that
   8  there is no such entry point, or it takes or gives other than scalars and their arrays
   9  a file has over 4194304 bytes or nests over 200 deep, there are over 256 files,
      modules are applied over 1024 times, the functions unfolded have over 1048576
      nodes or nest over 1000 deep, or the input has over 67108864 bytes
  10  standard input failed
  11  the input is not the arguments of the entry point
  12  the program failed, as at a division by zero
  13  a `while` has spent its turns
  14  standard output failed
  15  out of memory
";

/// What `--version` writes.
pub const VERSION: &str = "melonclamp 0.1.0, Futhark in integers and truth values\n";

/// The text that is asked for where the only word is `--help` or `--version`.
pub fn text_asked(words: &List<Name>) -> Option<&'static str>
    ensures { option_map (λ text. text.now) result ≡ text_asked words.now }
{
    match words.as_slice() {
        [word] => {
            if word.as_str() == "--help" {
                Some(HELP)
            } else if word.as_str() == "--version" {
                Some(VERSION)
            } else {
                None
            }
        }
        _ => None,
    }
}
