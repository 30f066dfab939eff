//! The text that a stream's lines have in common, kept without allocation.
ghost use Rattle.std.specs.Prelude.{◌≡◌, ◌≤◌, ◌+◌, ◌++◌, decimal, length};
ghost use Rattle.cqf_compile.specs.ConfigLines.{row_front};

use arrayvec::ArrayVec;
use cqf_model::Row;
use itoa::Buffer;

/// A text of at most 64 bytes.
pub(crate) type Piece = ArrayVec<u8, 64>;

/// Appends bytes to a piece.
fn add(piece: &mut Piece, bytes: &[u8])
    requires { length piece.old.items + length bytes.now ≤ 64 }
    ensures { piece.new.items ≡ piece.old.items ++ bytes.now }
{
    match piece.try_extend_from_slice(bytes) {
        Ok(()) => (),
        Err(_) => unreachable!(),
    }
}

/// Appends a number of at most ten digits to a piece.
fn add_number(piece: &mut Piece, number: u32)
    requires { length piece.old.items + 10 ≤ 64 }
    ensures text { piece.new.items ≡ piece.old.items ++ decimal number }
    ensures digits { length (decimal number) ≤ 10 }
{
    let mut buffer = Buffer::new();
    add(piece, buffer.format(number).as_bytes());
}

/// Returns the stream's line up to the name of the bridge.
pub(crate) fn row_front(row: &Row) -> Piece
    ensures { result.items ≡ row_front row.now }
{
    let mut piece = ArrayVec::new();
    add(&mut piece, b"stream ");
    add_number(&mut piece, row.no);
    add(&mut piece, b" ");
    add(&mut piece, row.name.as_bytes());
    add(&mut piece, b" bridge ");
    piece
}
