//! What holds of all spellings. These functions do nothing: their contracts are the laws.

ghost use Rattle.dn_record.specs.Laws.{FrontSpellsOne, NoSpellingBeginsAnother};

/// Two records that the same words begin with are one.
pub fn front_spells_one()
    ensures { FrontSpellsOne }
{}

/// No spelling begins the spelling of another record; of a pad the header alone is the spelling.
pub fn no_spelling_begins_another()
    ensures { NoSpellingBeginsAnother }
{}
