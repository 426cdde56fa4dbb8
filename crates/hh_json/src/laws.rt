//! Laws of the definitions in `specs/`. Each function does nothing: its contract is the law.

ghost use Rattle.hh_json.specs.Laws.{EachMemberHasAPointer, ExampleLines, ExampleRefusals};
ghost use Rattle.hh_json.specs.Laws.{FieldsAreAllOrNone, LastMemberCounts, LinesOfOneObject};
ghost use Rattle.hh_json.specs.Laws.{NumbersAreKeysAsStrings, PointersGoPartByPart};

/// Two lines that are one object have the same fields, however they are spelled.
pub fn lines_of_one_object()
    ensures { LinesOfOneObject }
{}

/// A line has a field for each name, or none.
pub fn fields_are_all_or_none()
    ensures { FieldsAreAllOrNone }
{}

/// A number is the key that a string of its spelling is.
pub fn numbers_are_keys_as_strings()
    ensures { NumbersAreKeysAsStrings }
{}

/// Of members of one name the last counts.
pub fn last_member_counts()
    ensures { LastMemberCounts }
{}

/// A pointer goes on from what its first part leads to.
pub fn pointers_go_part_by_part()
    ensures { PointersGoPartByPart }
{}

/// A pointer leads to each member, whatever its name.
pub fn each_member_has_a_pointer()
    ensures { EachMemberHasAPointer }
{}

/// Lines with fields.
pub fn example_lines()
    ensures { ExampleLines }
{}

/// Lines with none.
pub fn example_refusals()
    ensures { ExampleRefusals }
{}
