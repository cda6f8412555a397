ghost use Rattle.std.specs.Prelude.{◌≡◌, ◌∷◌, ◌++◌, ◌<◌, ◌≤◌, [], IfOk, length};

use std::alloc::{AllocError, Global};
use std::fmt;
use std::marker::Model;

/// How many steps may stand in the value itself.
const FEW: usize = 8;

/// Up to 8 steps, which stand in the value itself.
#[derive(Drop)]
pub(crate) struct Few {
    steps: [u32; FEW],
    count: usize,
    alloc: Global,
}

impl Model for Few {
    ghost use Rattle.std.specs.Prelude.{List, ℕ, ◌≤◌, take};

    ghost Value = { List ℕ };

    ghost view = { λ few. take few.count few.steps };

    ghost invariant = { λ few. few.count ≤ 8 };
}

impl Few {
    fn new(alloc: Global) -> Few
        ensures { result ≡ [] }
    {
        Few {
            steps: [0; FEW],
            count: 0,
            alloc,
        }
    }

    fn from_slice(alloc: Global, from: &[u32]) -> Few
        requires { length from.now ≤ 8 }
        ensures { result ≡ from.now }
    {
        let mut steps = [0; FEW];
        steps[..from.len()].copy_from_slice(from);
        Few {
            steps,
            count: from.len(),
            alloc,
        }
    }

    fn as_slice(&self) -> &[u32]
        ensures { result.now ≡ self.now }
    {
        &self.steps[..self.count]
    }

    fn push(&mut self, step: u32)
        requires { length self.old < 8 }
        ensures { self.new ≡ self.old ++ step ∷ [] }
    {
        self.steps[self.count] = step;
        self.count += 1;
    }
}

/// The steps of a place, where they stand. Up to 8 take no memory.
#[derive(Drop)]
pub(crate) enum Steps {
    Short(Few),
    Long(Vec<u32>),
}

impl Steps {
    ghost use Rattle.pb_ids.specs.Steps.{steps_of};

    /// No step.
    pub(crate) fn new(alloc: Global) -> Steps
        ensures { steps_of result ≡ [] }
    {
        Steps::Short(Few::new(alloc))
    }

    /// These steps.
    pub(crate) fn from_slice(alloc: Global, steps: &[u32]) -> Result<Steps, AllocError>
        ensures { IfOk result (λ held. steps_of held ≡ steps.now) }
    {
        if steps.len() <= FEW {
            Ok(Steps::Short(Few::from_slice(alloc, steps)))
        } else {
            Ok(Steps::Long(Vec::from_slice(alloc, steps)?))
        }
    }

    /// The steps, the first one first.
    pub(crate) fn as_slice(&self) -> &[u32]
        ensures { result.now ≡ steps_of self.now }
    {
        match self {
            Steps::Short(few) => few.as_slice(),
            Steps::Long(many) => many.as_slice(),
        }
    }

    /// What the steps take their memory from.
    pub(crate) fn allocator(&self) -> Global {
        match self {
            Steps::Short(few) => few.alloc,
            Steps::Long(many) => *many.allocator(),
        }
    }

    /// The steps with one more behind them.
    pub(crate) fn followed_by(&self, step: u32) -> Result<Steps, AllocError>
        ensures { IfOk result (λ held. steps_of held ≡ steps_of self.now ++ step ∷ []) }
    {
        let steps = self.as_slice();
        if steps.len() < FEW {
            let mut few = Few::from_slice(self.allocator(), steps);
            few.push(step);
            return Ok(Steps::Short(few));
        }
        let mut many = Vec::with_capacity(self.allocator(), steps.len() + 1)?;
        many.extend_from_slice(steps)?;
        many.push(step)?;
        Ok(Steps::Long(many))
    }
}

impl fmt::Debug for Steps {
    fn fmt<W: fmt::Write>(&self, f: &mut fmt::Formatter<W>) -> fmt::Result {
        f.debug_list().entries(self.as_slice()).finish()
    }
}
