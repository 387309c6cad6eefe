//! How two accesses of a place are kept together.

ghost use Rattle.std.specs.Prelude.{◌≡◌, IfSome};
ghost use Rattle.tclocks.specs.Kept.{modes_of};

use crate::mode::Mode;

/// The ways of two accesses that neither change nor only check. A put is never the second: it replaces the first.
#[derive(Clone, Copy)]
pub enum Ways {
    TwoLooks,
    LookAndClaim,
    LookAndLoan,
    ClaimAndLook,
    TwoClaims,
    ClaimAndLoan,
    PutAndLook,
    PutAndClaim,
    PutAndLoan,
    LoanAndLook,
    LoanAndClaim,
    TwoLoans,
}

impl Ways {
    /// The ways of accesses in these modes, if there are such.
    #[inline]
    pub fn of(first: Mode, second: Mode) -> Option<Ways>
        ensures { IfSome result (λ ways. modes_of ways ≡ (first, second)) }
    {
        match (first, second) {
            (Mode::Looks, Mode::Looks) => Some(Ways::TwoLooks),
            (Mode::Looks, Mode::Claims) => Some(Ways::LookAndClaim),
            (Mode::Looks, Mode::Lends) => Some(Ways::LookAndLoan),
            (Mode::Claims, Mode::Looks) => Some(Ways::ClaimAndLook),
            (Mode::Claims, Mode::Claims) => Some(Ways::TwoClaims),
            (Mode::Claims, Mode::Lends) => Some(Ways::ClaimAndLoan),
            (Mode::Puts, Mode::Looks) => Some(Ways::PutAndLook),
            (Mode::Puts, Mode::Claims) => Some(Ways::PutAndClaim),
            (Mode::Puts, Mode::Lends) => Some(Ways::PutAndLoan),
            (Mode::Lends, Mode::Looks) => Some(Ways::LoanAndLook),
            (Mode::Lends, Mode::Claims) => Some(Ways::LoanAndClaim),
            (Mode::Lends, Mode::Lends) => Some(Ways::TwoLoans),
            _ => None,
        }
    }

    /// The modes of the first and the second access.
    #[inline]
    pub fn modes(self) -> (Mode, Mode)
        ensures { result ≡ modes_of self }
    {
        match self {
            Ways::TwoLooks => (Mode::Looks, Mode::Looks),
            Ways::LookAndClaim => (Mode::Looks, Mode::Claims),
            Ways::LookAndLoan => (Mode::Looks, Mode::Lends),
            Ways::ClaimAndLook => (Mode::Claims, Mode::Looks),
            Ways::TwoClaims => (Mode::Claims, Mode::Claims),
            Ways::ClaimAndLoan => (Mode::Claims, Mode::Lends),
            Ways::PutAndLook => (Mode::Puts, Mode::Looks),
            Ways::PutAndClaim => (Mode::Puts, Mode::Claims),
            Ways::PutAndLoan => (Mode::Puts, Mode::Lends),
            Ways::LoanAndLook => (Mode::Lends, Mode::Looks),
            Ways::LoanAndClaim => (Mode::Lends, Mode::Claims),
            Ways::TwoLoans => (Mode::Lends, Mode::Lends),
        }
    }
}
