ghost use Rattle.std.specs.Prelude.{◌≡◌, ◌≢◌, IfOk};
ghost use Rattle.pb_items.specs.Faults.{said};
ghost use Rattle.pb_items.specs.declared.fault.ItemFault.TheVariants as item;
ghost use Rattle.pb_operators.specs.declared.fault.EvalFault.TheVariants as eval;
ghost use Rattle.pb_words.specs.declared.fault.CallFault.TheVariants as call;

use pb_expr_eval::messages::fault_message;
use pb_operators::fault::EvalFault;
use pb_value::text::Text;
use pb_words::fault::CallFault;
use std::alloc::{AllocError, AllocFailed, Global};

/// Why an item can't be read.
#[derive(Drop)]
pub enum ItemFault {
    /// A template or an expression has no value.
    Eval(EvalFault),
    /// What was read is no call.
    Call(CallFault),
    /// What a loop goes over is no list.
    LoopNotList,
    /// A loop has too many items.
    TooManyItems,
    /// What an item is delegated to is no name.
    BadDelegate,
    /// There is no memory.
    Memory,
}

impl From<EvalFault> for ItemFault {
    ghost from_gives = { λ from to. to ≢ item.Memory → (from ≢ eval.Memory) × (to ≡ item.Eval from) };

    fn from(fault: EvalFault) -> ItemFault {
        match fault {
            EvalFault::Memory => ItemFault::Memory,
            fault => ItemFault::Eval(fault),
        }
    }
}

impl From<CallFault> for ItemFault {
    ghost from_gives = { λ from to. to ≢ item.Memory → (from ≢ call.Memory) × (to ≡ item.Call from) };

    fn from(fault: CallFault) -> ItemFault {
        match fault {
            CallFault::Memory => ItemFault::Memory,
            fault => ItemFault::Call(fault),
        }
    }
}

impl From<AllocError> for ItemFault {
    ghost from_gives = { λ _ to. to ≡ item.Memory };

    fn from(_fault: AllocError) -> ItemFault {
        ItemFault::Memory
    }
}

impl<T: Drop> From<AllocFailed<T>> for ItemFault {
    ghost from_gives = { λ _ to. to ≡ item.Memory };

    fn from(_fault: AllocFailed<T>) -> ItemFault {
        ItemFault::Memory
    }
}

impl ItemFault {
    /// What the item's result says of the fault. Want of memory is none that it could tell.
    pub(crate) fn message(&self, alloc: Global) -> Result<Text, AllocError>
        ensures { IfOk result (λ t. (self.now ≢ item.Memory) × (t ≡ said self.now)) }
    {
        match self {
            ItemFault::Eval(fault) => fault_message(alloc, fault),
            ItemFault::Call(fault) => Text::from_str(alloc, fault.message()),
            ItemFault::LoopNotList => Text::from_str(alloc, "loop is not a list"),
            ItemFault::TooManyItems => Text::from_str(alloc, "too many items"),
            ItemFault::BadDelegate => Text::from_str(alloc, "bad delegate"),
            ItemFault::Memory => Err(AllocError),
        }
    }
}
