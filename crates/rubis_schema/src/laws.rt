//! What the readings of single fields promise by themselves.

ghost use Rattle.std.specs.Prelude.{ℕ, ◌<◌, ◌≤◌, ◌^◌, decimal, unsigned_abs};
ghost use Rattle.rubis_numbers.specs.Numbers.{IsField, number_of, rating_of};
ghost use Rattle.rubis_schema.specs.FieldForms.{id_of, name_of, nick_of, text_of, IsName, IsNick, IsText};
ghost use Rattle.rubis_schema.specs.Ids.{IsId, id_text, int_text};

use rubis_numbers::RATING_MAX;

/// Each value within its limits is read back from its own text, and from no other.
pub fn fields_have_one_reading()
    ensures numbers { (high : ℕ) → high < 2 ^ 64 → IsField (λ n. n ≤ high) decimal (number_of high) }
    ensures ids { (sites : ℕ) → sites < 2 ^ 8 → IsField (IsId sites) id_text (id_of sites) }
    ensures ratings { IsField (λ z. unsigned_abs z ≤ RATING_MAX) int_text rating_of }
    ensures nicks { IsField IsNick (λ text. text) nick_of }
    ensures names { IsField IsName (λ text. text) name_of }
    ensures texts { IsField IsText (λ text. text) text_of }
{}
