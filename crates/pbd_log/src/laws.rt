//! What holds of every log, as the contracts of functions that do nothing.

ghost use Rattle.pbd_log.specs.Laws.{DifferentBytesDiffer, FieldIsItsReading, PartsSpellTheirLog, NoEntryBeginsAnother, NoProperPrefix, OneReading, OneFault, NoLogHasAFault, KeptEntryIsGrammatical, LoggedEntriesAreGrammatical};

/// No two different lists of n bytes have the same big-endian reading.
pub fn different_bytes_differ()
    ensures { DifferentBytesDiffer }
{}

/// The bytes of a field are those whose big-endian reading is its value.
pub fn field_is_its_reading()
    ensures { FieldIsItsReading }
{}

/// What a writer writes spells the limit, the scene and the entries that it was given.
pub fn parts_spell_their_log()
    ensures { PartsSpellTheirLog }
{}

/// No entry's bytes are a proper prefix of another's.
pub fn no_entry_begins_another()
    ensures same { NoEntryBeginsAnother }
    ensures prefix { NoProperPrefix }
{}

/// Bytes spell at most one log.
pub fn one_reading()
    ensures { OneReading }
{}

/// Bytes have at most one offset at which they go wrong, and those of a log have none.
pub fn one_fault()
    ensures one { OneFault }
    ensures none { NoLogHasAFault }
{}

/// What a session keeps of its commands is written in the log's grammar.
pub fn logged_entries_are_grammatical()
    ensures one { KeptEntryIsGrammatical }
    ensures all { LoggedEntriesAreGrammatical }
{}
