// Why a call refuses its input, by document 01's and 02's numbers, and where.
#![tactic(auto)]

ghost use Rattle.std.specs.Prelude.{◌≡◌};
ghost use Rattle.refusals.specs.Numbers.{number};

// The reasons, each with the documents' number. 13 was withdrawn (02, N5).
#[derive(Clone, Copy, PartialEq, Eq)]
pub enum Reason {
    UnknownKind = 1,
    BodyCutOff = 2,
    TooManyRecords = 3,
    NumberTooLarge = 4,
    NotEarlier = 5,
    RoleForConcept = 6,
    NamedAgain = 7,
    EmptyRoles = 8,
    TooManyParts = 9,
    SetTooShort = 10,
    NoSuchDomino = 11,
    ListTooShort = 12,
    SlotTooLong = 14,
    QueueCutOff = 15,
    ConceptForRole = 16,
    AxiomNamed = 17,
    UnknownWord = 18,
    MisplacedWord = 19,
    BeyondText = 20,
    OutputTooShort = 21,
    UnreadableEntry = 22,
    TooManyIndividuals = 23,
    NoSuchNumber = 24,
    NoIndividuals = 25,
    EmptySet = 26,
    TooManyMembers = 27,
}

impl Reason {
    // The documents' number.
    // A method and no `From`: a call says which number is meant.
    pub fn number(self) -> u8
        ensures { result ≡ number self }
    {
        self as u8
    }
}

// A refusal: its reason, and the place in the input.
#[derive(Clone, Copy, PartialEq, Eq)]
pub struct Refusal {
    pub reason: Reason,
    pub place: usize,
}

impl Refusal {
    pub fn at(reason: Reason, place: usize) -> Refusal
        ensures { (result.reason ≡ reason) × (result.place ≡ place) }
    {
        Refusal { reason, place }
    }

    // A refusal whose place is 0.
    // Place 0 is the documents' word for no byte. No `From<Reason>`: a `?` would then give place 0 unseen.
    pub fn of(reason: Reason) -> Refusal
        ensures { (result.reason ≡ reason) × (result.place ≡ 0) }
    {
        Refusal::at(reason, 0)
    }
}
