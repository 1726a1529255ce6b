ghost use Rattle.std.specs.Prelude.{◌≡◌};
ghost use Rattle.commands.specs.Columns.{column_of};

// The column, from 1, where a line's field begins; 1 where the line has no such field. Places are from 0.
#[tactic(auto, using(crate::proofs::Walks::before_none))]
pub fn column_of(line: &[u8], place: usize) -> usize
    ensures answer { result ≡ column_of line.now place }
{
    let mut column = 1;
    for field in line.split(|byte| *byte == b' ').take(place) {
        column += field.len() + 1;
    }
    // A field begins at most one byte past the line's end, as an empty last one does. Further on, all were passed.
    if column <= line.len() + 1 { column } else { 1 }
}
