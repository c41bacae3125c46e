//! Laws of the definitions.
ghost use Rattle.pg_words.specs.Jobs.{OnePlace, OrderIsFree};
ghost use Rattle.pg_words.specs.Reading.{ReadsTheGrammar};

/// The reading is the grammar.
pub fn words_are_read_by_the_grammar()
    ensures { ReadsTheGrammar }
{}

/// Words go wrong at one place.
pub fn words_go_wrong_at_one_place()
    ensures { OnePlace }
{}

/// Options come in any order: two that change places name the same job.
pub fn options_come_in_any_order()
    ensures { OrderIsFree }
{}
