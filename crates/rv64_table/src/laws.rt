//! Laws of the table alone. Each law is the contract of a function that does nothing.

ghost use Rattle.rv64_table.specs.Table.{Apart, FitsItsRow};

/// No word matches two rows of the table.
pub fn no_word_matches_two_rows()
    ensures { Apart }
{}

/// Any row that a word matches is the word's row, whatever the index of the row in the table.
pub fn a_fitting_row_is_the_row()
    ensures { FitsItsRow }
{}
