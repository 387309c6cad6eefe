//! Laws of what is wrong with a plan, each as the contract of a function that does nothing.

ghost use Rattle.tcheck.specs.PlanFaults.{FaultIsFound};

/// Where `Net::build` tells a fault of a plan, one of the things that are wrong with the plan is this fault.
pub fn the_fault_of_a_plan_is_found()
    ensures { FaultIsFound }
{}
