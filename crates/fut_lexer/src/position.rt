// Where the lexer stands in a text.
ghost use Rattle.std.specs.Prelude.{◌≡◌, length};
ghost use Rattle.fut_lexer.specs.Positions.{HasRoom, behind_char, moved, place_of, text_start};

use fut_scalar::Place;

/// How many bytes stand before, and the line and column in characters, from 1.
#[derive(Clone, Copy)]
pub struct Position {
    pub at: u64,
    pub line: u32,
    pub column: u32,
}

pub fn text_start() -> Position
    ensures { result ≡ text_start }
{
    Position {
        at: 0,
        line: 1,
        column: 1,
    }
}

fn behind_char(position: Position, c: char) -> Position
    requires { HasRoom position 1 }
    ensures { result ≡ behind_char position c }
{
    let at = position.at + c.len_utf8() as u64;
    if c == '\n' {
        Position {
            at,
            line: position.line + 1,
            column: 1,
        }
    } else {
        Position {
            at,
            line: position.line,
            column: position.column + 1,
        }
    }
}

/// The position behind these characters.
pub fn moved(position: Position, chars: &[char]) -> Position
    requires { HasRoom position (length chars.now) }
    ensures { result ≡ moved position chars.now }
{
    let mut position = position;
    for c in chars {
        position = behind_char(position, *c);
    }
    position
}

pub fn place_of(file: u32, position: Position) -> Place
    ensures { result ≡ place_of file position }
{
    Place {
        file,
        line: position.line,
        column: position.column,
    }
}
