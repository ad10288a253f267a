//! What holds of each call of a keyed method.

ghost use Rattle.std.specs.Ordering.{int_cmp};
ghost use Rattle.state_classes.specs.Entries.{by_row_and_column};
ghost use Rattle.state_classes.specs.Laws.{CallsKeepToTheirPart, IsKey, IsInRow, OthersStay};
ghost use Rattle.state_classes.specs.Methods.{is_keyed};
ghost use Rattle.state_classes.specs.Plans.{planned_on_table, planned_on_matrix};
ghost use Rattle.sdg_base.specs.declared.store.ClassName.TheVariants as class_name;

/// A keyed call depends on the part of its key alone, and changes nothing else: the entry of a
/// table's key, or the entries of a matrix's row. So the parts of a partitioned field together are
/// the whole field. It does nothing when it runs.
pub fn keyed_calls_keep_to_their_part()
    ensures table { CallsKeepToTheirPart int_cmp IsKey (is_keyed class_name.Table) planned_on_table }
    ensures matrix { CallsKeepToTheirPart by_row_and_column IsInRow (is_keyed class_name.Matrix) planned_on_matrix }
    ensures other_keys { OthersStay int_cmp }
    ensures other_elements { OthersStay by_row_and_column }
{}
