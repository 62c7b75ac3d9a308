//! Laws on tables of rules.

ghost use Rattle.c_typing.specs.Laws.{TablesAscend, FirstIsLeast};

/// Laws: each table of rules has its rows by the numbers of their rules; so the first rule that is broken is the one with the least
/// number.
pub fn tables_give_the_least_rule()
    ensures ascend { TablesAscend }
    ensures least { FirstIsLeast }
{}
