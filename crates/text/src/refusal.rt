// Why a call is refused, and what an entry returns.
ghost use Rattle.std.specs.Prelude.{◌≡◌, ◌+◌, ◌<◌, ◌^◌, IfOk};
ghost use Rattle.text.specs.Refusal.{number_of, number_returned};

// Each with the number that an entry returns for it.
#[derive(Clone, Copy, PartialEq, Eq, Debug)]
pub enum Refusal {
    // too many bytes, or malformed lines, keys or numbers
    Malformed = 1,
    // a side, or the result of a step line, is no term
    NoTerm = 2,
    // a side or such a result has over 31 nodes
    TooLarge = 3,
    // over six different v letters
    TooManyVariables = 4,
    // a limit is over its bound
    LimitOver = 5,
    // a right side is the same term as left
    SameSides = 6,
    // a term has no slot left
    OutOfSlots = 7,
    // the answer is longer than the output
    ShortOutput = 8,
    // over sixteen right sides
    TooManyRights = 9,
    // one of several right sides comes before left
    RightBeforeLeft = 10,
    // there is no step line
    NoSteps = 11,
    // the step lines do not lead from left to right
    WrongSteps = 12,
    // the number is listed in the catalogue
    NumberTaken = 13,
    // the number to be withdrawn is not listed
    NumberUnknown = 14,
    // the catalogue has no place left
    CatalogueFull = 15,
    // the cost or a weight is out of its range
    WeightOver = 16,
    // the catalogue has not as many numbers as one has
    NoCatalogue = 99,
}

impl From<Refusal> for usize {
    ghost from_gives = { λ refusal n. n ≡ number_of refusal };

    fn from(refusal: Refusal) -> usize {
        refusal as usize
    }
}

// What an answer's length, or a count, is added to: no refusal has as large a number.
pub const ANSWERED: usize = 100;

// What an entry returns: 100 plus the answer's length or a count, or the refusal's number.
pub fn returned(answer: Result<usize, Refusal>) -> usize
    requires { IfOk answer (λ n. n + 100 < 2 ^ 64) }
    ensures { result ≡ number_returned answer }
{
    match answer {
        Ok(n) => ANSWERED + n,
        Err(refusal) => usize::from(refusal),
    }
}
