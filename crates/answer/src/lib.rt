// What a call answers: what a done call gives, or why it is refused. The C interface has both as one struct of numbers.

#![tactic(auto)]

ghost use Rattle.std.specs.Prelude.{◌≡◌};
ghost use Rattle.answer.specs.Answers.{number, bare};
ghost use Rattle.answer.specs.Results.{answered, answer_of};

// The refusals of PROTOCOL, "Calls and answers", in the order of their numbers.
#[derive(Clone, Copy, PartialEq, Eq, Debug)]
pub enum Refusal {
    BadFrame = 1,
    ShortOutput = 2,
    BadRules = 3,
    ClosedTopic = 4,
    AlreadyWhole = 5,
    TooLong = 6,
    NoRecord = 7,
    UnknownId = 8,
    PastEnd = 9,
    HighIndex = 10,
    ShortPiece = 11,
    NoCell = 12,
    Count = 13,
    Gap = 14,
    Total = 15,
    Sum = 16,
    NoKey = 17,
    WrongState = 18,
    NoSuchPiece = 19,
    NoWork = 20,
    TopicTooLarge = 21,
    IdInUse = 22,
    NoneWhole = 23,
    Clock = 24,
    UnsoundStore = 25,
    BadCalendar = 26,
    ShortFrame = 27,
    SourceFull = 28,
    BadLengths = 29,
    NoCuts = 30,
    NoPlan = 31,
}

impl Refusal {
    pub fn number(self) -> u64
        ensures { result ≡ number self }
    {
        self as u64
    }
}

// What a call gives that is done: the run's length, the wake mark and how many piece packets a wake sent.
#[derive(Clone, Copy, PartialEq, Eq, Debug)]
pub struct Done {
    pub run: u64,
    pub wake: u64,
    pub pieces: u64,
}

impl Done {
    // Nothing is sent, nobody wakes.
    pub const NOTHING: Done = Done {
        run: 0,
        wake: 0,
        pieces: 0,
    };
}

// The answer as the C interface has it: a number (0: done, else a refusal's), and what a done call gives.
#[repr(C)]
#[derive(Clone, Copy, PartialEq, Eq, Debug)]
pub struct Answer {
    pub number: u64,
    pub run: u64,
    pub wake: u64,
    pub pieces: u64,
}

impl From<Result<Done, Refusal>> for Answer {
    ghost from_gives = { λ outcome answer. answer ≡ answer_of outcome };

    fn from(outcome: Result<Done, Refusal>) -> Answer {
        match outcome {
            Ok(Done { run, wake, pieces }) => Answer {
                number: 0,
                run,
                wake,
                pieces,
            },
            Err(refusal) => Answer {
                number: refusal.number(),
                run: 0,
                wake: 0,
                pieces: 0,
            },
        }
    }
}

impl From<Result<(), Refusal>> for Answer {
    ghost from_gives = { λ outcome answer. answer ≡ bare (answered outcome) };

    fn from(outcome: Result<(), Refusal>) -> Answer {
        outcome.map(|()| Done::NOTHING).into()
    }
}
