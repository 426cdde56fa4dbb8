//! Laws of the definitions in `specs/`. Each function does nothing: its contract is the law.

ghost use Rattle.hh_rows.specs.Laws.{CondensedFilesAreRead, ExampleRows, ExampleStrings};
ghost use Rattle.hh_rows.specs.Laws.{PlainRowsAreRows, SharesAreRoundedDown, StringsAreUtf8};
ghost use Rattle.hh_rows.specs.Laws.{StringsHaveNoControls, StringsTellFieldsApart};

use hh_counters::laws::condensed_keeps_weights;

/// Files of condensed records, joined, are read as the condensed records, one file after the other.
pub fn condensed_files_are_read()
    ensures { CondensedFilesAreRead }
{
    condensed_keeps_weights();
}

/// All rows of a report, plain and with no shares, are printed as they are written.
pub fn plain_rows_are_rows()
    ensures { PlainRowsAreRows }
{}

/// A share is rounded down.
pub fn shares_are_rounded_down()
    ensures { SharesAreRoundedDown }
{}

/// Equal strings are of equal fields, whether these are UTF-8 or not.
pub fn strings_tell_fields_apart()
    ensures { StringsTellFieldsApart }
{}

/// A string is UTF-8, also that of bytes that are not.
pub fn strings_are_utf8()
    ensures { StringsAreUtf8 }
{}

/// A string has no control character, so that it stands in one line.
pub fn strings_have_no_controls()
    ensures { StringsHaveNoControls }
{}

/// Two rows, in each form.
pub fn example_rows()
    ensures { ExampleRows }
{}

/// Fields as strings: one that is UTF-8, one that is not, and one of bytes that are escaped.
pub fn example_strings()
    ensures { ExampleStrings }
{}
