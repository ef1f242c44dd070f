ghost use Rattle.std.specs.Prelude.{◌≡◌};
ghost use Rattle.role_admit.specs.Admit.{is_over};

// How much of a role file was read, by the names of Phase in files/specs/RoleFile: nothing, only 01 and 02, or more. And that its end was.
#[derive(Clone, Copy, Debug, PartialEq, Eq)]
pub enum Phase {
    Nothing,
    Declaring,
    Telling,
    Ended,
}

impl Phase {
    // Whether the end was read.
    pub fn is_over(self) -> bool
        ensures { result ≡ is_over self }
    {
        self == Phase::Ended
    }
}
