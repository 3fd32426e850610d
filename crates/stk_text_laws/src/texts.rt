//! Laws of the text of records.
ghost use Rattle.stk_text_laws.specs.Texts.{EachTextHasLawfulRecords, OneLawfulText};

/// Each text has a lawful text of records under any options, with a status.
pub fn each_text_has_lawful_records()
    ensures { EachTextHasLawfulRecords }
{}

/// No text has two lawful texts of records under the same options, or two statuses, where each of its functions has at
/// most 16 input bits: then the starts that records name are the first ones, and nothing is undecided.
pub fn one_lawful_text()
    ensures { OneLawfulText }
{}
