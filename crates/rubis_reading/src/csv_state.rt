//! Where a reader of CSV stands behind the bytes of a chunk, as far as quotes and ends of records go.

ghost use Rattle.std.specs.Prelude.{◌≡◌};
ghost use Rattle.csv.specs.Machine.{step};
ghost use Rattle.csv.specs.Machine as Spec;
ghost use Rattle.csv.specs.Reading.{default_config};
ghost use Rattle.rubis_reading.specs.Streams.{state_of_csv};

/// Where the machine stands.
#[derive(Clone, Copy)]
pub enum CsvState {
    /// Before a record.
    Start,
    /// Before a field that is not the first of its record.
    FieldStart,
    /// In a field without quotes.
    Field,
    /// Between the quotes of a field.
    Quoted,
    /// After a quote in a field with quotes.
    QuoteEnd,
    /// After a carriage return that ended a record.
    CrEnd,
}

/// After a byte in a field without quotes, or after one with quotes.
pub fn in_field(byte: u8) -> CsvState
    ensures { state_of_csv result ≡ (Spec.in_field default_config byte).0 }
{
    match byte {
        b',' => CsvState::FieldStart,
        b'\r' => CsvState::CrEnd,
        b'\n' => CsvState::Start,
        _ => CsvState::Field,
    }
}

// After a byte at the start of a record.
fn at_start(byte: u8) -> CsvState
    ensures { state_of_csv result ≡ (Spec.start_record default_config byte).0 }
{
    match byte {
        b'\r' | b'\n' => CsvState::Start,
        b'"' => CsvState::Quoted,
        _ => in_field(byte),
    }
}

/// Where the machine stands after one more byte.
pub fn after(at: CsvState, byte: u8) -> CsvState
    ensures { state_of_csv result ≡ (step default_config (state_of_csv at) byte).0 }
{
    match at {
        CsvState::Start => at_start(byte),
        CsvState::FieldStart => {
            if byte == b'"' {
                CsvState::Quoted
            } else {
                in_field(byte)
            }
        }
        CsvState::Field => in_field(byte),
        CsvState::Quoted => {
            if byte == b'"' {
                CsvState::QuoteEnd
            } else {
                CsvState::Quoted
            }
        }
        CsvState::QuoteEnd => {
            if byte == b'"' {
                CsvState::Quoted
            } else {
                in_field(byte)
            }
        }
        CsvState::CrEnd => {
            if byte == b'\n' {
                CsvState::Start
            } else {
                at_start(byte)
            }
        }
    }
}
