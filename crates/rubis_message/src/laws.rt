//! What the records promise by themselves.

ghost use Rattle.rubis_message.specs.Grammar.{NoRequestIsAPacket, PacketsHaveOneReading, RequestsHaveOneReading};
ghost use Rattle.rubis_message.specs.Readings.{PacketsAreReadAsWritten, RequestsAreReadAsWritten};

/// What was written is read back as the same value: no record is that of two requests or of two packets, or that of
/// a request and of a packet.
pub fn records_have_one_reading()
    ensures requests { RequestsHaveOneReading }
    ensures packets { PacketsHaveOneReading }
    ensures apart { NoRequestIsAPacket }
{}

/// A record is read as a value if and only if the value is within its limits and the record is the one written
/// for it.
pub fn records_are_read_as_written()
    ensures requests { RequestsAreReadAsWritten }
    ensures packets { PacketsAreReadAsWritten }
{}
