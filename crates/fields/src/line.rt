// All fields of a line at once, and each by its place, from 0.
ghost use Rattle.std.specs.Prelude.{◌≡◌, [], map, length, slice_index_or, IfOk};
ghost use Rattle.fields.specs.Decimals.{decimal_of};
ghost use Rattle.fields.specs.Letters.{letter_of};
ghost use Rattle.fields.specs.Parts.{parts};

use crate::decimals::decimal;
use crate::places::{field_at, field_count};
use std::alloc::{AllocError, Global};
use std::marker::Model;

// The fields of a line, in order.
#[derive(Drop)]
pub struct Fields<'a> {
    fields: Vec<&'a [u8]>,
}

impl<'a> Model for Fields<'a> {
    ghost use Rattle.std.specs.Prelude.{ℕ, List, map};

    ghost Value = { List (List ℕ) };

    ghost view = { λ f. map (λ x. x.now) f.fields.items };
}

impl<'a> Fields<'a> {
    pub fn count(&self) -> usize
        ensures answer { result ≡ length self.now }
    {
        field_count(&self.fields)
    }

    // The field in a place, and an empty one past the end.
    pub fn at(&self, place: usize) -> &'a [u8]
        ensures answer { result.now ≡ slice_index_or self.now place [] }
    {
        field_at(&self.fields, place)
    }

    // The fields as a slice, to go over them.
    pub fn as_slice(&self) -> &[&'a [u8]]
        ensures answer { map (λ x. x.now) result.now ≡ self.now }
    {
        &self.fields
    }

    // The list itself, to own or to change.
    pub fn into_vec(self) -> Vec<&'a [u8]>
        ensures answer { map (λ x. x.now) result.items ≡ self.entry }
    {
        self.fields
    }

    // The number that the field in a place writes in decimal digits.
    pub fn number(&self, place: usize) -> Option<u32>
        ensures answer { result ≡ decimal_of (slice_index_or self.now place []) }
    {
        decimal(self.at(place))
    }

    // The letter that the field in a place is, where it is one byte.
    pub fn letter(&self, place: usize) -> Option<char>
        ensures answer { result ≡ letter_of (slice_index_or self.now place []) }
    {
        match self.at(place) {
            [letter] => Some(char::from(*letter)),
            _ => None,
        }
    }
}

fn pieces(heap: Global, text: &[u8], separator: u8) -> Result<Vec<&[u8]>, AllocError>
    ensures answer { IfOk result (λ v. map (λ x. x.now) v.items ≡ parts separator text.now) }
{
    text.split(|byte| *byte == separator).collect(heap)
}

// Takes a text apart at each separator.
pub fn split(heap: Global, text: &[u8], separator: u8) -> Result<Fields<'_>, AllocError>
    ensures answer { IfOk result (λ fields. fields ≡ parts separator text.now) }
{
    let fields = pieces(heap, text, separator)?;
    Ok(Fields { fields })
}
