// Worked examples of the weight, short and noise relations.
#![tactic(auto)]

ghost use Rattle.relation_examples.specs.Examples.{Examples};

// The examples are what the definitions of the relations give.
pub fn examples_hold()
    ensures { Examples }
{}
