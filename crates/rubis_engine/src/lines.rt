//! The lines of rows that are sent, and what they are read as.

ghost use Rattle.rubis_engine.specs.Rows.{RowsAreReadBack, SentLinesAreLines};

/// The line of fields that a site sends is `send,` and then the line of these fields; and lines are read as the rows that they
/// are written for. So what follows `send,` is carried unchanged as a line.
pub fn sent_lines_are_read_as_sent()
    ensures sent { SentLinesAreLines }
    ensures read { RowsAreReadBack }
{}
