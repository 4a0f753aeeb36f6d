//! Why copies of ports and handles are refused.
ghost use Rattle.std.specs.Prelude.{◌≡◌};
ghost use Rattle.iceoryx2_ports.specs.Copies as spec;

use crate::errors::LoanError;
use iox_hub_laws::LoanRefusal;

/// The error by which a test refuses a loan.
pub(crate) fn error_of_test(refusal: LoanRefusal) -> LoanError
    ensures { result ≡ spec.error_of_test refusal }
{
    match refusal {
        LoanRefusal::CallsSpent => LoanError::CallsSpent,
        LoanRefusal::WrongLength => LoanError::WrongLength,
        LoanRefusal::ExceedsMaxLoanSize => LoanError::ExceedsMaxLoanSize,
        LoanRefusal::ExceedsMaxLoans => LoanError::ExceedsMaxLoans,
        LoanRefusal::WantOfMemory => LoanError::WantOfMemory,
    }
}
