//! Why a command was not done, and what the reason is about.
ghost use Rattle.std.specs.Prelude.{◌≡◌};

use crate::why::Why;
use std::marker::Model;

/// Why a command was not done, and, if it is known, what the reason is about. It is made where the fault is found. Contracts
/// see only the fault, whose type is that of the commands of one crate.
#[derive(Drop)]
pub struct Error<F: Drop> {
    pub fault: F,
    pub why: Option<Why>,
}

impl<F: Drop> Model for Error<F> {
    ghost Value = { F };

    ghost view = { λ e. e.fault };
}

impl<F: Drop> Error<F> {
    /// The fault, with the thing that it is about.
    pub fn new(fault: F, why: Option<Why>) -> Error<F>
        ensures { result ≡ fault }
    {
        Error { fault, why }
    }

    /// The fault, and the thing that it is about.
    pub fn into_parts(self) -> (F, Option<Why>)
        ensures { result.0 ≡ self }
    {
        (self.fault, self.why)
    }
}
