// Why a call is refused.
ghost use Rattle.std.specs.Prelude.{◌≡◌, ℕ};
ghost use Rattle.promises.specs.Refusal.{refusal_number, test_number};

// What is refused. The numbers are those of REFERENCE.md.
#[derive(Clone, Copy, Debug, PartialEq, Eq)]
pub enum Refusal {
    SeedLength = 1,
    Catalogue = 2,
    TargetBases = 3,
    DoubleName = 4,
    IndexRoom = 5,
    StaleIndex = 6,
    ReadLength = 7,
    ReadBases = 8,
    CandidateLimit = 9,
    PlacementRoom = 10,
    QualityFloor = 11,
    FragmentOrder = 12,
    MateRoles = 13,
    EmptyRead = 14,
    QualityLength = 15,
    PhredByte = 16,
    FullCounter = 17,
    BooksApart = 18,
    ChangedTargets = 19,
    JobStream = 20,
    ReadList = 25,
    AnswerRoom = 26,
}

impl Refusal {
    // Its number.
    pub fn number(self) -> u64
        ensures { result ≡ refusal_number self }
    {
        self as u64
    }
}

// What a refusal is told by: it has a number.
pub trait Numbered: Copy {
    ghost its_number: { Self → ℕ };

    // Its number.
    fn number(self) -> u64
        ensures { result ≡ its_number self };
}

impl Numbered for Refusal {
    ghost its_number = { refusal_number };

    fn number(self) -> u64 {
        self.number()
    }
}

// A number alone, of any refusal.
impl Numbered for u64 {
    ghost its_number = { λ n. n };

    fn number(self) -> Self {
        self
    }
}

// The number of a test's answer: its refusal, or 0.
pub fn number_of(tested: Result<(), Refusal>) -> u64
    ensures { result ≡ test_number tested }
{
    match tested {
        Ok(()) => 0,
        Err(refusal) => refusal.number(),
    }
}
