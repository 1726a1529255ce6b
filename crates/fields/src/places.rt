// The fields of a line by their places, from 0: of any list of fields, however it was made.
ghost use Rattle.std.specs.Prelude.{◌≡◌, [], map, length, slice_index_or};

pub fn field_count(fields: &[&[u8]]) -> usize
    ensures answer { result ≡ length (map (λ x. x.now) fields.now) }
{
    fields.len()
}

// The field in a place, and an empty one past the end.
pub fn field_at<'a>(fields: &[&'a [u8]], place: usize) -> &'a [u8]
    ensures answer { result.now ≡ slice_index_or (map (λ x. x.now) fields.now) place [] }
{
    fields.get(place).copied().unwrap_or(&[])
}
