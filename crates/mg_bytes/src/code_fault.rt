//! Why a call gives nothing that could be answered but a return code.
ghost use Rattle.std.specs.Prelude.{◌≡◌};

use crate::owned::OutOfMemory;
use crate::return_code::ReturnCode;

/// Why there is no value: memory was refused, or there is a fault, which is answered with a return code.
#[derive(Clone, Copy)]
pub enum CodeFault {
    /// Memory was refused.
    OutOfMemory,
    /// A fault with this return code (RFC 3435, 2.4), of three digits.
    Code(u16),
}

impl CodeFault {
    ghost use Rattle.mg_bytes.specs.ReturnCode.{number_of};
    ghost use Rattle.mg_bytes.specs.CodeFault.{code_fault_number};
    ghost use Rattle.mg_bytes.specs.declared.code_fault.CodeFault.TheVariants as faults;

    /// The fault that is answered with this return code.
    pub fn of(code: ReturnCode) -> CodeFault
        ensures { result ≡ faults.Code (number_of code) }
    {
        CodeFault::Code(code.number())
    }

    /// Its number among the faults, from 1 in the order in which they are declared. It isn't the return code.
    pub fn number(self) -> u8
        ensures { result ≡ code_fault_number self }
    {
        match self {
            CodeFault::OutOfMemory => 1,
            CodeFault::Code(_) => 2,
        }
    }
}

impl From<OutOfMemory> for CodeFault {
    ghost use Rattle.mg_bytes.specs.declared.code_fault.CodeFault.TheVariants as faults;

    ghost from_gives = { λ _ fault. fault ≡ faults.OutOfMemory };

    fn from(_refused: OutOfMemory) -> CodeFault {
        CodeFault::OutOfMemory
    }
}
