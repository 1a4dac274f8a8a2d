// What holds of every witness.
ghost use Rattle.witness_checks.specs.Judgement.{OneCondition};

/// Of a witness that isn't accepted one condition fails first, whichever fault is told of it. The place of the fault isn't spoken of.
pub fn one_condition()
    ensures { OneCondition }
{}
