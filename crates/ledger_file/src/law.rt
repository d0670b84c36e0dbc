//! What holds of every file.
ghost use Rattle.ledger_file.specs.Reading.{OneReading};

/// Bytes have one reading at most: they spell one list of payloads, or are refused for one reason. So what
/// an opening answers is decided by the bytes, but for a failing disk and want of memory.
pub fn one_reading()
    ensures { OneReading }
{}
