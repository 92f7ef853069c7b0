//! The files of a site and an output: what happens to them, in its order.

ghost use Rattle.std.specs.Prelude.{◌⊎◌, ◌∷◌, [], Option, None, OnErr, OnOk};
ghost use Rattle.std.specs.Io.{WritesAtMost};
ghost use Rattle.rubis_keep.specs.History.{Grows, HasDone, HasReplied, HasShown, HasWritten, History};
ghost use Rattle.rubis_keep.specs.History.FolderEvent.{Began, CutTo, Flushed, Kept, Settled, Told};

use std::io;

/// The files of a site, `kept` and `out`, and an output, as one value: so its history has what happens to each of them in the order of
/// time.
pub trait SiteFiles {
    // What has happened to them since they were opened, where that is known.
    ghost history: { Self → Option History } = { λ _. None };

    /// Appends lines to `kept`. Returns how many bytes it took at once.
    fn keep(&mut self, lines: &[u8]) -> io::Result<usize>
        ensures bound { WritesAtMost result lines.now }
        ensures kept { HasWritten (λ b. Kept b) (history self.old) (history self.new) result lines.now };

    /// Returns when what was kept is as safe as it is to be: only then it is answered.
    fn flush_kept(&mut self) -> io::Result<()>
        ensures { HasDone Flushed (history self.old) (history self.new) result };

    /// Cuts `kept` off after its first `len` bytes.
    fn cut_kept(&mut self, len: u64) -> io::Result<()>
        ensures { HasDone (CutTo len) (history self.old) (history self.new) result };

    /// Appends answers to `out`. Returns how many bytes it took at once.
    fn tell(&mut self, text: &[u8]) -> io::Result<usize>
        ensures bound { WritesAtMost result text.now }
        ensures told { HasWritten (λ b. Told b) (history self.old) (history self.new) result text.now };

    /// Writes down how the site is set up from now on, if that isn't how the folder has it. Where that fails, it may be written down all
    /// the same.
    fn settle(&mut self) -> io::Result<()>
        ensures ok { OnOk result (Grows (history self.old) (history self.new) (Settled ∷ [])) }
        ensures err { OnErr result (Grows (history self.old) (history self.new) [] ⊎ Grows (history self.old) (history self.new) (Settled ∷ [])) };

    /// Says that all that was kept is answered: how many records that is, and how many messages of each site are released then. Where that
    /// fails, the output may have some of the line, which isn't a line then.
    fn begin(&mut self, records: u64, counts: &[u64]) -> io::Result<()>
        ensures { HasDone (Began records counts.now) (history self.old) (history self.new) result };

    /// Answers a question.
    fn reply(&mut self, question: &[u8], text: &[u8]) -> io::Result<()>
        ensures { HasReplied (history self.old) (history self.new) result question.now text.now };

    /// Shows answers.
    fn show(&mut self, text: &[u8]) -> io::Result<()>
        ensures { HasShown (history self.old) (history self.new) result text.now };
}
