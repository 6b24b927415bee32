// Why the one path is right.
ghost use Rattle.laws.specs.Examples.{Examples, Bites};
ghost use Rattle.laws.specs.Laws.{Agreement, Ending, Order, Disabled, Lockstep};

// From any cells the one path comes to an end, and to what the branching run comes to.
pub fn agreement_stands() -> u8
    ensures { Agreement }
{
    0
}

// No run of the one path takes more steps than the sheet says.
pub fn ending_stands() -> u8
    ensures { Ending }
{
    0
}

// The one path goes over the branching run's work and literal lines, in their order.
pub fn order_stands() -> u8
    ensures { Order }
{
    0
}

// A disabled step changes no cell.
pub fn disabled_stands() -> u8
    ensures { Disabled }
{
    0
}

// Two runs whose uncovered cells agree go the same way.
pub fn lockstep_stands() -> u8
    ensures { Lockstep }
{
    0
}

// What the four sheets of the examples come to, in both forms.
pub fn examples_stand() -> u8
    ensures table { Examples }
    ensures bites { Bites }
{
    0
}
