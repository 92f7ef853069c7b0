//! The limits of what a site keeps and is asked, each as a number. Elsewhere contracts and definitions name the constants, and would hold
//! of any others.

ghost use Rattle.std.specs.Prelude.{◌≡◌};
ghost use Rattle.rubis_keys.specs.declared.inputs.TheConstants.{KEY_MAX};
ghost use Rattle.rubis_keep.specs.declared.lines.TheConstants.{KEYED_MAX, LINE_MAX};
ghost use Rattle.rubis_keep.specs.declared.pages.TheConstants.{PAGE_MAX, PLACE_MAX};

/// The limits of lines, keys and questions are these numbers: the bytes of a line without its end, and of one that begins with `key,`; the bytes
/// of a key; the rows of a page, and the place of the row with which a page may begin.
pub fn limits_of_questions_are_these_numbers()
    ensures lines { LINE_MAX ≡ 4096 }
    ensures keyed_lines { KEYED_MAX ≡ 4613 }
    ensures keys { KEY_MAX ≡ 255 }
    ensures pages { PAGE_MAX ≡ 65536 }
    ensures places { PLACE_MAX ≡ 4294967295 }
{}
