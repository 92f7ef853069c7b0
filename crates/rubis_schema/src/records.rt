//! A record as a list of fields.

ghost use Rattle.std.specs.Prelude.{◌≡◌, ℕ, List, length, option_map, slice_get};

use crate::field_list::Fields;

/// A record that is read by the places of its fields, wherever they lie.
pub trait Record {
    /// The fields, in order.
    ghost fields: { Self → List (List ℕ) };

    /// How many fields there are.
    fn len(&self) -> usize
        ensures { result ≡ length (fields self.now) };

    /// The field at this place, counted from 0, or `None` past the last.
    fn field(&self, place: usize) -> Option<&[u8]>
        ensures { option_map (λ s. s.now) result ≡ slice_get (fields self.now) place };
}

impl Record for Fields {
    ghost fields = { λ f. f };

    #[inline(always)]
    fn len(&self) -> usize {
        self.len()
    }

    #[inline(always)]
    fn field(&self, place: usize) -> Option<&[u8]> {
        self.field(place)
    }
}
