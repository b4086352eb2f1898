//! How many words rows take in the ROM.
ghost use Rattle.std.specs.Prelude.{◌≡◌, ◌≤◌, ◌<◌, ◌^◌, [], ◌∷◌};
ghost use Rattle.dvg_frame.specs.Layout.{op_words};
ghost use Rattle.dvg_rows.specs.HeldRows.{rows_of};
ghost use Rattle.dvg_rows.specs.RowPlaces.{size as words_of_rows, words_taken};
ghost use Rattle.dvg_rows.specs.RowValues.{doing_of, row_of};

use crate::row::{Doing, Row};
use dvg_frame::OpKind;

/// Returns how many words `rows` take: two for each VCTR and each LABS, one for each other
/// operation, and none for a name alone.
pub fn size(rows: &[Row]) -> usize
    requires { words_of_rows (rows_of rows.now) < 2 ^ 64 }
    ensures { result ≡ words_of_rows (rows_of rows.now) }
{
    let mut words = 0;
    for row in rows {
        words += words_of_row(row);
    }
    words
}

/// Returns how many words `row` takes.
pub fn words_of_row(row: &Row) -> usize
    ensures { result ≡ words_of_rows (row_of row.now ∷ []) }
{
    match &row.doing {
        Some(doing) => words_of_doing(doing),
        None => 0,
    }
}

// Returns how many words the operation `doing` takes.
fn words_of_doing(doing: &Doing) -> usize
    ensures { result ≡ words_taken (doing_of doing.now) }
{
    match doing {
        Doing::Plainly(op) => words_of_kind(op.kind()),
        Doing::Calls(_) | Doing::Jumps(_) | Doing::CallsRom(_) | Doing::JumpsRom(_) => 1,
    }
}

// Returns how many words an operation of this `kind` takes.
fn words_of_kind(kind: OpKind) -> usize
    ensures { result ≡ op_words kind }
{
    match kind {
        OpKind::Draw(code) => usize::from(code.word_count()),
        _ => 1,
    }
}
