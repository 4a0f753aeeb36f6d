//! What the loan of a copy tells of its place.
ghost use Rattle.std.specs.Prelude.{◌≡◌};

use super::CopyLending;

impl CopyLending {
    ghost use Rattle.iox_wire_copies.specs.Copies.{IsLoanOf, StoresOrder};

    /// Its place is one of a loan of its order's kind, and what it stores is the loan of its order.
    /// The function has nothing to do.
    #[inline(always)]
    pub fn place(&self)
        ensures kind { IsLoanOf self.now.lending.order.kind self.now.local }
        ensures order { StoresOrder self.now.lending.order self.now.local }
    {
        // only what this promises is wanted
        let _storing = self.lending.is_storing();
    }
}
