// Lines on a sink, piece by piece.
ghost use Rattle.std.specs.Prelude.{flat_map, map, OnOk, OnErr};
ghost use Rattle.fut_io.specs.Outside.{Took, TookPart};
ghost use Rattle.futhark_status.specs.Report.{line_in, piece_bytes};
ghost use Rattle.std.specs.Prelude.{◌∷◌, ◌≡◌, [], codes, decimal};
ghost use Rattle.futhark_status.specs.Status.{beginning, bytes_of, joined, newline, path_at, size_text, Differing, Placed, PlacedTwice};

use crate::line::Line;
use front::Shown;
use fut_io::{Failed, Sink, write_all};
use fut_scalar::Place;
use itoa::Buffer;

/// A part of a line.
#[derive(Clone, Copy)]
pub enum Piece<'a> {
    Text(&'a [u8]),
    Number(u64),
    Signed(i64),
}

fn write_piece<E: Sink>(err: &mut E, piece: &Piece) -> Result<(), Failed>
    ensures ok { OnOk result (Took (E.seen err.old) (E.seen err.new) (piece_bytes piece.now)) }
    ensures failed { OnErr result (TookPart (E.seen err.old) (E.seen err.new) (piece_bytes piece.now)) }
{
    match piece {
        Piece::Text(text) => write_all(err, text),
        Piece::Number(number) => {
            let mut buffer = Buffer::new();
            write_all(err, buffer.format(*number).as_bytes())
        }
        Piece::Signed(number) => {
            let mut buffer = Buffer::new();
            write_all(err, buffer.format(*number).as_bytes())
        }
    }
}

/// Writes the pieces one after another.
fn write_each<E: Sink>(err: &mut E, pieces: &[Piece]) -> Result<(), Failed>
    ensures ok { OnOk result (Took (E.seen err.old) (E.seen err.new) (flat_map piece_bytes pieces.now)) }
    ensures failed { OnErr result (TookPart (E.seen err.old) (E.seen err.new) (flat_map piece_bytes pieces.now)) }
{
    for piece in pieces {
        if let Err(failed) = write_piece(err, piece) {
            return Err(failed);
        }
    }
    Ok(())
}

/// Writes the parts of a line.
fn write_pieces<E: Sink>(err: &mut E, pieces: &[Piece]) -> Result<(), Failed>
    ensures ok { OnOk result (Took (E.seen err.old) (E.seen err.new) (joined (map piece_bytes pieces.now))) }
    ensures failed { OnErr result (TookPart (E.seen err.old) (E.seen err.new) (joined (map piece_bytes pieces.now))) }
{
    write_each(err, pieces)
}

/// What stands in the prelude is told by its name.
fn path_at<'a>(place: Place, path: &'a [u8]) -> &'a [u8]
    ensures { result.now ≡ path_at place path.now }
{
    if place.file == 0 { b"prelude" } else { path }
}

/// Writes what is said of a place of a file, with a name inside.
fn write_placed<'a, E: Sink>(
    err: &mut E,
    path: &'a [u8],
    place: Place,
    before: &'a [u8],
    name: &'a [u8],
    behind: &'a [u8],
) -> Result<(), Failed>
    ensures ok { OnOk result (Took (E.seen err.old) (E.seen err.new) (bytes_of (Placed path.now place before.now name.now behind.now))) }
    ensures failed { OnErr result (TookPart (E.seen err.old) (E.seen err.new) (bytes_of (Placed path.now place before.now name.now behind.now))) }
{
    write_pieces(
        err,
        &[
            Piece::Text(b"futhark: "),
            Piece::Text(path_at(place, path)),
            Piece::Text(b":"),
            Piece::Number(u64::from(place.line)),
            Piece::Text(b":"),
            Piece::Number(u64::from(place.column)),
            Piece::Text(b": "),
            Piece::Text(before),
            Piece::Text(name),
            Piece::Text(behind),
            Piece::Text(b"\n"),
        ],
    )
}

/// Writes what is said of a name at a place of a file, with another place of it behind.
fn write_placed_twice<'a, E: Sink>(
    err: &mut E,
    path: &'a [u8],
    place: Place,
    name: &'a [u8],
    said: &'a [u8],
    other: Place,
) -> Result<(), Failed>
    ensures ok { OnOk result (Took (E.seen err.old) (E.seen err.new) (bytes_of (PlacedTwice path.now place name.now said.now other))) }
    ensures failed { OnErr result (TookPart (E.seen err.old) (E.seen err.new) (bytes_of (PlacedTwice path.now place name.now said.now other))) }
{
    write_pieces(
        err,
        &[
            Piece::Text(b"futhark: "),
            Piece::Text(path_at(place, path)),
            Piece::Text(b":"),
            Piece::Number(u64::from(place.line)),
            Piece::Text(b":"),
            Piece::Number(u64::from(place.column)),
            Piece::Text(b": "),
            Piece::Text(name),
            Piece::Text(said),
            Piece::Number(u64::from(other.line)),
            Piece::Text(b":"),
            Piece::Number(u64::from(other.column)),
            Piece::Text(b"\n"),
        ],
    )
}

/// Writes what is said of two sizes that differ at a place of a file.
fn write_differing<'a, E: Sink>(
    err: &mut E,
    path: &'a [u8],
    place: Place,
    left: Piece<'a>,
    right: Piece<'a>,
) -> Result<(), Failed>
    ensures ok { OnOk result (Took (E.seen err.old) (E.seen err.new) (bytes_of (Differing path.now place (piece_bytes left.entry) (piece_bytes right.entry)))) }
    ensures failed { OnErr result (TookPart (E.seen err.old) (E.seen err.new) (bytes_of (Differing path.now place (piece_bytes left.entry) (piece_bytes right.entry)))) }
{
    write_pieces(
        err,
        &[
            Piece::Text(b"futhark: "),
            Piece::Text(path_at(place, path)),
            Piece::Text(b":"),
            Piece::Number(u64::from(place.line)),
            Piece::Text(b":"),
            Piece::Number(u64::from(place.column)),
            Piece::Text(b": sizes differ: "),
            left,
            Piece::Text(b" and "),
            right,
            Piece::Text(b"\n"),
        ],
    )
}

/// A size as it is shown.
pub fn size_piece(size: &Shown) -> Piece<'_>
    ensures { piece_bytes result ≡ size_text size.now }
{
    match size {
        Shown::Number(number) => Piece::Number(*number),
        Shown::Named(name) => Piece::Text(name.as_str().as_bytes()),
        Shown::Unknown => Piece::Text(b"unknown"),
    }
}

/// Writes texts around one piece.
fn write_around<'a, E: Sink>(
    err: &mut E,
    before: &'a [u8],
    middle: Piece<'a>,
    behind: &'a [u8],
) -> Result<(), Failed>
    ensures ok { OnOk result (Took (E.seen err.old) (E.seen err.new) (joined (beginning ∷ before.now ∷ piece_bytes middle.entry ∷ behind.now ∷ newline ∷ []))) }
    ensures failed { OnErr result (TookPart (E.seen err.old) (E.seen err.new) (joined (beginning ∷ before.now ∷ piece_bytes middle.entry ∷ behind.now ∷ newline ∷ []))) }
{
    write_pieces(
        err,
        &[
            Piece::Text(b"futhark: "),
            Piece::Text(before),
            middle,
            Piece::Text(behind),
            Piece::Text(b"\n"),
        ],
    )
}

/// Writes what is said of a size that is another one than is wanted.
fn write_clash<'a, E: Sink>(
    err: &mut E,
    param: u64,
    have: u64,
    want: Piece<'a>,
) -> Result<(), Failed>
    ensures ok { OnOk result (Took (E.seen err.old) (E.seen err.new) (joined (beginning ∷ codes "input: size of parameter " ∷ decimal param ∷ codes ": have " ∷ decimal have ∷ codes ", want " ∷ piece_bytes want.entry ∷ newline ∷ []))) }
    ensures failed { OnErr result (TookPart (E.seen err.old) (E.seen err.new) (joined (beginning ∷ codes "input: size of parameter " ∷ decimal param ∷ codes ": have " ∷ decimal have ∷ codes ", want " ∷ piece_bytes want.entry ∷ newline ∷ []))) }
{
    write_pieces(
        err,
        &[
            Piece::Text(b"futhark: "),
            Piece::Text(b"input: size of parameter "),
            Piece::Number(param),
            Piece::Text(b": have "),
            Piece::Number(have),
            Piece::Text(b", want "),
            want,
            Piece::Text(b"\n"),
        ],
    )
}

/// Writes a line.
pub fn write_line<'a, E: Sink>(err: &mut E, line: Line<'a>) -> Result<(), Failed>
    ensures ok { OnOk result (Took (E.seen err.old) (E.seen err.new) (bytes_of (line_in line.entry))) }
    ensures failed { OnErr result (TookPart (E.seen err.old) (E.seen err.new) (bytes_of (line_in line.entry))) }
{
    match line {
        Line::Nothing => write_pieces(err, &[]),
        Line::Said(said) => write_pieces(
            err,
            &[
                Piece::Text(b"futhark: "),
                Piece::Text(said),
                Piece::Text(b"\n"),
            ],
        ),
        Line::Counted(before, number, behind) => {
            write_around(err, before, Piece::Number(number), behind)
        }
        Line::Clashing { param, have, want } => write_clash(err, param, have, Piece::Signed(want)),
        Line::Named(before, name, behind) => write_around(err, before, Piece::Text(name), behind),
        Line::Placed(path, place, before, name, behind) => {
            write_placed(err, path, place, before, name, behind)
        }
        Line::PlacedTwice(path, place, name, said, other) => {
            write_placed_twice(err, path, place, name, said, other)
        }
        Line::Differing(path, place, left, right) => write_differing(err, path, place, left, right),
    }
}
