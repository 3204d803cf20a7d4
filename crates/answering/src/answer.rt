// What has a number and a place: "Each match returns answer, place and joins."
ghost use Rattle.std.specs.Prelude.{◌≡◌, ℕ};
ghost use Rattle.answering.specs.Refused.{zero_unless_refused};

pub trait Answer: Copy {
    // The number that document 01's table gives it.
    ghost number_of: { Self → ℕ };

    // Its place: an address, the number of a pair or of a job, or 0.
    ghost place_of: { Self → ℕ };

    fn number(self) -> u16
        ensures { result ≡ number_of self };

    fn place(self) -> u16
        ensures { result ≡ place_of self };
}

// What may be refused answers 0 at place 0 where it is not, whatever it yields then.
impl<T: Copy, E: Answer> Answer for Result<T, E> {
    ghost number_of = { zero_unless_refused E.number_of };

    ghost place_of = { zero_unless_refused E.place_of };

    fn number(self) -> u16 {
        match self {
            Ok(_) => 0,
            Err(refusal) => refusal.number(),
        }
    }

    fn place(self) -> u16 {
        match self {
            Ok(_) => 0,
            Err(refusal) => refusal.place(),
        }
    }
}
