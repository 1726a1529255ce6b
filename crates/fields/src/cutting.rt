// A line is cut one field at a time, at the first separator that is left in it.
ghost use Rattle.std.specs.Prelude.{◌≡◌, ◌≤◌, ◌∷◌, ◌++◌, length};
ghost use Rattle.fields.specs.Parts.{parts, parts_after, bytes_after, remaining, Free};
ghost use Rattle.fields.specs.Separators.{First};

// The bytes before a separator, and what follows it: None where there was no separator.
#[derive(Clone, Copy, Debug)]
pub struct Piece<'a> {
    pub field: &'a [u8],
    pub rest: Option<&'a [u8]>,
}

fn first_separator(text: &[u8], separator: u8) -> Option<usize>
    ensures answer { First separator text.now result }
{
    text.iter().position(|byte| *byte == separator)
}

// Takes the first field off a text. Two separators in a row have an empty field between them, and an
// empty text is one empty field.
pub fn cut(text: &[u8], separator: u8) -> Piece<'_>
    ensures answer { parts separator text.now ≡ result.field.now ∷ parts_after separator result.rest }
    ensures law { text.now ≡ result.field.now ++ bytes_after separator result.rest }
    ensures apart { Free separator result.field.now }
    ensures shorter { remaining result.rest ≤ length text.now }
{
    match first_separator(text, separator) {
        Some(end) => Piece {
            field: &text[..end],
            rest: Some(&text[end + 1..]),
        },
        None => Piece {
            field: text,
            rest: None,
        },
    }
}
