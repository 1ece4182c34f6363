//! Laws of command lines. The function does nothing: its contract is the law.
ghost use Rattle.bz_cli.specs.Laws.{WordsAreOneLine};
ghost use Rattle.bz_cli.specs.Numbers.{NumbersOfFormats};

/// Words that are one command line are no other.
pub fn words_are_one_line()
    ensures { WordsAreOneLine }
{}

/// The value of each public constant of command lines.
pub fn numbers_of_formats()
    ensures { NumbersOfFormats }
{}
