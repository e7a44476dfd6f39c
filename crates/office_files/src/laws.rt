//! Laws of the definitions. Each function does nothing; its contract is the law.

ghost use Rattle.office_files.specs.Laws.{TextHasOneList, ImportsReadInOrder};
ghost use Rattle.office_files.specs.SettingsTexts.{TextsTellOneSettings};
ghost use Rattle.office_files.specs.StatementLaws.{StatementsAreWhole, MomentsHaveTexts, CivilTextsAreDates};

/// A text of comma-separated values has exactly one list of records.
pub fn a_text_has_one_list_of_records()
    ensures { TextHasOneList }
{}

/// Under a good header, either every record is read as a row, in order, or the first record that is none is named.
pub fn the_first_faulty_row_is_told()
    ensures { ImportsReadInOrder }
{}

/// A TOML text has at most one set of settings.
pub fn a_text_tells_one_settings()
    ensures { TextsTellOneSettings }
{}

/// A statement has a line for each instance that the host was given, and its last line has the host's credit.
pub fn statements_are_whole()
    ensures { StatementsAreWhole }
{}

/// Each moment in a statement of a sound world has a text.
pub fn moments_have_texts()
    ensures { MomentsHaveTexts }
{}

/// The civil text of a moment is that of the date and time that `jiff` gives for it.
pub fn civil_texts_are_dates()
    ensures { CivilTextsAreDates }
{}
