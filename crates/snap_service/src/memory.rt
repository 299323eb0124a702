//! Types that name a memory.
//!
//! A value out of a lock or a message is known by its type alone, so its type says which memory it belongs to.
ghost use Rattle.std.specs.Prelude.{ℕ, List};
ghost use Rattle.snap_memory.specs.{Registers.RegistersId, Registers.no_registers, plan.Plan.Plan};
ghost use Rattle.snap_service.specs.Memory.{no_plan};

use std::marker::Brand;

/// The name of one memory: of the registers of one opening, and of the updates that it was asked for. It has no values.
///
/// A function over any memory is called with `Brand`, and the proof of the call says which registers are meant.
pub trait Memory {
    ghost table: { RegistersId };

    ghost plan: { Plan };

    /// This segment was asked for an update to this number and this value. Code over any memory can't make such a fact:
    /// it comes with a request.
    ghost asked: { ℕ → ℕ → List ℕ → Type 0 };
}

impl Memory for Brand {
    ghost table = { no_registers };

    ghost plan = { no_plan };

    ghost asked = { λ _ _ _. Unit {0} };
}
