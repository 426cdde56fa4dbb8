//! Laws of the definitions. Each function does nothing: its contract is the law.

ghost use Rattle.hh_countmin.specs.Laws.{EqualFamiliesAreOne, DrawnFamiliesAreFamilies, CellSumsAddUp, RowsSumToTotal, EstimateIsNeverBelow, EstimateIsLeastCellSum, TablesFollowItems, CellsAreCellSums, TablesFit};

/// Two families are equal exactly where all their coefficients are.
pub fn equal_families_are_one()
    ensures { EqualFamiliesAreOne }
{}

/// What a seed draws is a family of the depth asked for.
pub fn drawn_families_are_families()
    ensures { DrawnFamiliesAreFamilies }
{}

/// The cell sums of two lists add up to those of both together.
pub fn cell_sums_add_up()
    ensures { CellSumsAddUp }
{}

/// The cell sums of a row add up to the total weight.
pub fn rows_sum_to_total()
    ensures { RowsSumToTotal }
{}

/// An estimate is never below the key's weight, and it is the least of the key's cell sums.
pub fn estimate_is_never_below()
    ensures never_below { EstimateIsNeverBelow }
    ensures least { EstimateIsLeastCellSum }
{}

/// Adding an item, or merging, takes the table of a list to the table of the longer list.
pub fn tables_follow_items()
    ensures { TablesFollowItems }
{}

/// The cells of the table of a list are its cell sums, and nothing else is that table.
pub fn cells_are_cell_sums()
    ensures { CellsAreCellSums }
{}

/// The table of a list has the parts of a table.
pub fn tables_fit()
    ensures { TablesFit }
{}
