//! Laws of scripts as text: printed bytes are read again, and the first fault is the one that is told. Each is
//! the contract of a function that does nothing.

ghost use Rattle.script_text.specs.Laws.{FaultsAreFirst, LongTextsAreLineZero, PrintedTextsArePrintable, PrintedTextsReadAgain, ScriptsAreRead, TextsAreCutIntoLines};

/// What is printed for bytes is read as those bytes, whatever they are.
pub fn printed_texts_read_again()
    ensures { PrintedTextsReadAgain }
{}

/// What is printed for bytes may stand in a line: no byte of it is a bad one.
pub fn printed_texts_are_printable()
    ensures { PrintedTextsArePrintable }
{}

/// The lines of a text have no LF, and with LF behind each they are the text, or the text whose last
/// line lacks it.
pub fn texts_are_cut_into_lines()
    ensures { TextsAreCutIntoLines }
{}

/// A text is a script just where none of its lines has a fault behind the lines before it.
pub fn scripts_are_read()
    ensures { ScriptsAreRead }
{}

/// A text that isn't too long has a fault just where a line has it and no line before it has one.
pub fn faults_are_first()
    ensures { FaultsAreFirst }
{}

/// Line 0 is named just for a text that is too long, whatever its lines are.
pub fn long_texts_are_line_zero()
    ensures { LongTextsAreLineZero }
{}
