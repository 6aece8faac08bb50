//! Laws of the definitions. Each function does nothing; its contract is the law.

ghost use Rattle.bits_granular.specs.Laws.{SpellingReadsBack, ReadingSpellsBack, SpellingIsOne};

/// What spells a set is read as that set.
#[tactic(auto, using(crate::proofs::Spellings::reads_back, crate::proofs::Spellings::no_tail))]
pub fn spelling_reads_back()
    ensures { SpellingReadsBack }
{}

/// A set that was read from bytes, as many as it takes, is spelled by them.
pub fn reading_spells_back()
    ensures { ReadingSpellsBack }
{}

/// A set has one spelling.
#[tactic(auto, using(crate::proofs::Spellings::one_spelling))]
pub fn spelling_is_one()
    ensures { SpellingIsOne }
{}
