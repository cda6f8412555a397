//! What plans are made of.

ghost use Rattle.std.specs.Prelude.{IfOk, IfErr};
ghost use Rattle.std.specs.List.{All};
ghost use Rattle.pb_plan.specs.Plan.{Fits};

use crate::plan::Plan;
use std::alloc::Global;

/// What a plan can be made of: the files and words of a run. What its plan is, and why it has none, is its own to say.
pub trait Planned {
    ghost use Rattle.std.specs.Prelude.{IfOk, IfErr};
    ghost use Rattle.std.specs.List.{All};
    ghost use Rattle.pb_plan.specs.Plan.{PlanOf, Fits};

    /// Why there is no plan.
    type Fault;

    /// Whether this is the plan of it.
    ghost is_plan: { Self → PlanOf → Type 0 };

    /// Whether this is its fault.
    ghost is_fault: { Self → Self.Fault → Type 0 };

    /// Its plan, or why it has none.
    fn plan(&self, alloc: Global) -> Result<Plan, Self::Fault>
        ensures value { IfOk result (is_plan self.now) }

        // What a play has at its places fits its tree.
        ensures fit { IfOk result (λ plan. All Fits plan.plays) }
        ensures fault { IfErr result (is_fault self.now) };
}

impl Plan {
    /// The plan of a bundle, or its first fault.
    pub fn of<B: Planned>(alloc: Global, bundle: &B) -> Result<Plan, B::Fault>
        ensures value { IfOk result (B.is_plan bundle.now) }

        // What a play has at its places fits its tree.
        ensures fit { IfOk result (λ plan. All Fits plan.plays) }
        ensures fault { IfErr result (B.is_fault bundle.now) }
    {
        bundle.plan(alloc)
    }
}
