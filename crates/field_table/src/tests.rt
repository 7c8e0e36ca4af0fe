use crate::group_field;
use field_domain::Domain;

// A list is the diameter and the number of bars of each group in turn, of four groups.
#[test]
fn fields_of_a_list(rt: HostRuntime) {
    assert!(rt; matches!(group_field(8, 0), Domain::GroupDiameter(8, 0)));
    assert!(rt; matches!(group_field(8, 1), Domain::GroupBars(8, 0)));
    assert!(rt; matches!(group_field(17, 2), Domain::GroupDiameter(17, 1)));
    assert!(rt; matches!(group_field(17, 3), Domain::GroupBars(17, 1)));
    assert!(rt; matches!(group_field(4, 6), Domain::GroupDiameter(4, 3)));
    assert!(rt; matches!(group_field(4, 7), Domain::GroupBars(4, 3)));
}

// A count may stand in any slot.
#[test]
fn fields_of_a_list_with_its_count_elsewhere(rt: HostRuntime) {
    assert!(rt; matches!(group_field(30, 4), Domain::GroupDiameter(30, 2)));
    assert!(rt; matches!(group_field(4294967295, 5), Domain::GroupBars(4294967295, 2)));
}
