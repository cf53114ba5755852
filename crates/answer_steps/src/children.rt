// The masks by construct: the sections of a sections construct, and the ordereds of a do.
ghost use Rattle.std.specs.Prelude.{◌≡◌, ℕ, ◌+◌, ◌*◌, ◌≤◌, ◌<◌, length, get_or, List};
ghost use Rattle.answer_steps.specs.Children.{section_at, ordered_at, sort_at, Children};

use crate::tables::{
    BEGINS, CONSTRUCTS, KINDS, MEMBERS, NUMBERS, OPENS, PARENTS, ROLES, RegionTable, SECTIONS, at,
};
use chart::format::{Chart, Construct};
use masks::bits::{bit, has};

// x is a section, and the region has its begin.
fn is_section(table: &RegionTable, x: usize) -> bool
    requires { (length table.now ≡ 2133) × (x < 48) × (get_or table.now (1936 + x) 0 < 256) }
    ensures { result ≡ section_at table.now x }
{
    let begin = at(table, BEGINS + x);
    if at(table, ROLES + begin) != OPENS {
        return false;
    }
    if at(table, NUMBERS + begin) != x {
        return false;
    }
    at(table, KINDS + x) == usize::from(Construct::SECTION)
}

// x is an ordered of the region.
fn is_ordered(table: &RegionTable, x: usize) -> bool
    requires { (length table.now ≡ 2133) × (x < 48) }
    ensures { result ≡ ordered_at table.now x }
{
    if at(table, KINDS + x) != usize::from(Construct::ORDERED) {
        return false;
    }
    has(table[MEMBERS], x)
}

// x is of the sort asked for.
fn is_sort(table: &RegionTable, which: usize, x: usize) -> bool
    requires { (length table.now ≡ 2133) × (x < 48) × (get_or table.now (1936 + x) 0 < 256) }
    ensures { result ≡ sort_at which table.now x }
{
    if which == 0 {
        return is_section(table, x);
    }
    is_ordered(table, x)
}

// One construct more, in the mask of its parent.
fn add_child(which: usize, x: usize, table: &mut RegionTable)
    requires { (length table.old ≡ 2133) × (which < 2) × (x < 48) × (get_or table.old (1936 + x) 0 < 256) }
    ensures { (old : List ℕ) → Children which x old table.old → Children which (x + 1) old table.new }
{
    let parent = at(table, PARENTS + x);
    if Chart::CONSTRUCTS <= parent {
        return;
    }
    if is_sort(table, which, x) {
        let place = SECTIONS + Chart::CONSTRUCTS * which + parent;
        table[place] = bit(x) | table[place];
    }
}

// The masks of one sort, where nothing stands yet.
pub fn fill_children(which: usize, table: &mut RegionTable)
    requires table_len { (length table.old ≡ 2133) × (which < 2) × (get_or table.old 2033 0 ≤ 48) }
    requires by_index { (x : ℕ) → x < get_or table.old 2033 0 → get_or table.old (1936 + x) 0 < 256 }
    requires by_index_2 { (j : ℕ) → 2037 + 48 * which ≤ j → get_or table.old j 0 ≡ 0 }
    ensures { Children which (get_or table.old 2033 0) table.old table.new }
{
    let n = at(table, CONSTRUCTS);
    for x in 0..n {
        add_child(which, x, table);
    }
}
