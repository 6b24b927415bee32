// What the operations on sets of digits say of each digit.
ghost use Rattle.value.specs.Membership.{Sets-stand, Comparisons-stand};

// Which digits a union, a difference and their like have, and the set of the smallest digit.
pub fn sets_stand() -> u8
    ensures { Sets-stand }
{
    0
}

// When a set lies within another, and when two sets are equal.
pub fn comparisons_stand() -> u8
    ensures { Comparisons-stand }
{
    0
}
