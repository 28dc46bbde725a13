//! The two tables of a family.
ghost use Rattle.std.specs.Prelude.{◌≡◌, codes, true};
ghost use Rattle.kp_base.specs.Net.{same_family};
ghost use Rattle.kp_types.specs.Places as places;
ghost use Rattle.kp_restore_defs.specs.TableText.{table_line};

use kp_base::Family;
use kp_types::TableName;

/// The nat table of a family.
pub fn nat_of(family: Family) -> TableName
    ensures value { result ≡ places.nat_of family }
    ensures family { same_family (places.family_of_table result) family ≡ true }
    ensures line { table_line result ≡ codes "*nat" }
{
    match family {
        Family::V4 => TableName::Nat,
        Family::V6 => TableName::Nat6,
    }
}

/// The filter table of a family.
pub fn filter_of(family: Family) -> TableName
    ensures value { result ≡ places.filter_of family }
    ensures family { same_family (places.family_of_table result) family ≡ true }
    ensures line { table_line result ≡ codes "*filter" }
{
    match family {
        Family::V4 => TableName::Filter,
        Family::V6 => TableName::Filter6,
    }
}
