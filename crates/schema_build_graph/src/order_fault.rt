use std::alloc::{AllocError, AllocFailed};

/// Why there is no order.
#[derive(Drop)]
pub enum OrderFault {
    /// The least vertex that reaches itself.
    Cycle(usize),
    /// Memory was out.
    Memory,
}

impl From<AllocError> for OrderFault {
    ghost use Rattle.std.specs.Prelude.{◌≡◌};
    ghost use Rattle.schema_build_graph.specs.declared.order_fault.OrderFault.TheVariants.{Memory};

    ghost from_gives = { λ _ e. e ≡ Memory };

    fn from(_: AllocError) -> OrderFault {
        OrderFault::Memory
    }
}

impl<T: Drop> From<AllocFailed<T>> for OrderFault {
    ghost use Rattle.std.specs.Prelude.{◌≡◌};
    ghost use Rattle.schema_build_graph.specs.declared.order_fault.OrderFault.TheVariants.{Memory};

    ghost from_gives = { λ _ e. e ≡ Memory };

    fn from(_: AllocFailed<T>) -> OrderFault {
        OrderFault::Memory
    }
}
