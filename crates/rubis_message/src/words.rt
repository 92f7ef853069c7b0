//! Whether a field is a word, and the words that say what a listing shows.

ghost use Rattle.std.specs.Prelude.{◌≡◌, bytes_eq};
ghost use Rattle.rubis_message.specs.Readings.{shown_of};

/// Whether the field is this word. Words are short and known where this is inlined, so a step for each byte is less work than
/// the library's comparison, which is made for long texts.
#[inline(always)]
pub fn says(field: &[u8], word: &[u8]) -> bool
    ensures { result ≡ bytes_eq field.now word.now }
{
    if field.len() != word.len() {
        return false;
    }
    for at in 0..word.len() {
        if field[at] != word[at] {
            return false;
        }
    }
    true
}

/// The second word of a `list` request.
#[derive(Clone, Copy)]
pub enum Shown {
    Users,
    Items,
    Bids,
    Purchases,
    Comments,
    Categories,
    Log,
    Misfits,
    Tables,
}

impl Shown {
    /// What the word says to show.
    #[tactic(auto, unfolding(crate::specs::Readings::shown_of))]
    pub fn read(word: &[u8]) -> Option<Shown>
        ensures { result ≡ shown_of word.now }
    {
        if says(word, b"users") {
            Some(Shown::Users)
        } else if says(word, b"items") {
            Some(Shown::Items)
        } else if says(word, b"bids") {
            Some(Shown::Bids)
        } else if says(word, b"purchases") {
            Some(Shown::Purchases)
        } else if says(word, b"comments") {
            Some(Shown::Comments)
        } else if says(word, b"categories") {
            Some(Shown::Categories)
        } else if says(word, b"log") {
            Some(Shown::Log)
        } else if says(word, b"misfits") {
            Some(Shown::Misfits)
        } else if says(word, b"tables") {
            Some(Shown::Tables)
        } else {
            None
        }
    }
}
