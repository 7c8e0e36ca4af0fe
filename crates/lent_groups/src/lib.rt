// Groups of bars copied out of lists that a caller lends. Nothing past a count is read.
#![tactic(auto)]

ghost use Rattle.std.specs.Prelude.{◌≡◌, get_or, take};
ghost use Rattle.lent_groups.specs.CopiedGroups.{no_group, first_four};

use bars::Group;

const NO_GROUP: Group = Group {
    diameter: 0,
    bars: 0,
};

// Group i of a list, and no bars past it.
fn group_or(groups: &[Group], i: usize) -> Group
    ensures { result ≡ get_or groups.now i no_group }
{
    groups.get(i).copied().unwrap_or(NO_GROUP)
}

// The first four of the first `count` groups of a lent list, and no bars past them.
pub fn first_groups(groups: &[Group], count: usize) -> [Group; 4]
    ensures { result ≡ first_four (take count groups.now) }
{
    let named = &groups[..count.min(groups.len())];
    [
        group_or(named, 0),
        group_or(named, 1),
        group_or(named, 2),
        group_or(named, 3),
    ]
}
