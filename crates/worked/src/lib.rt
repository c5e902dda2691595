// Examples worked out by hand, shown of the definitions that the contracts of the other crates use.
#![tactic(auto)]

ghost use Rattle.worked.specs.Examples.{Examples};

// Every example stands.
pub fn every_example_stands()
    ensures { Examples }
{}
