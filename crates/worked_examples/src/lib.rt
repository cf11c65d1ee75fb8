// The rule's worked examples, checked as one table.
#![tactic(auto)]

ghost use Rattle.worked_examples.specs.Table.{WorkedExamples};

pub fn worked_examples()
    ensures { WorkedExamples }
{}
