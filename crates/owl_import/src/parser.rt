// Reads a text form by form and writes its records: each method reads what the definition of the same name reads (specs/Grammar.antt),
// and a record is written once its operands are. Calls nest at most 255 deep, since each form counts as a record when it begins.
ghost use Rattle.std.specs.Prelude.{◌≡◌, ◌+◌, ◌<◌, ◌≤◌, [], length, OnOk};

use crate::sheet::Sheet;
use owl_words::{Word, next_token};
use refusals::{Reason, Refusal};

#[derive(Drop)]
pub(crate) struct Parser<'a> {
    text: &'a [u8],
    // What is still to be read.
    rest: &'a [u8],
    // How many records may still begin; the sheet has a place for each.
    room: u8,
    pub(crate) sheet: Sheet,
    ghost inside: { length rest.now ≤ length text.now },
    ghost few: { sheet.count + room ≤ 255 },
}

impl<'a> Parser<'a> {
    ghost use Rattle.owl_import.specs.Steps.{Next, Wrong, Expects, Stays, Moves, Opens, Closes, BeginningRead, LeafRead, OpeningRead, ClosingRead, PropertyRead, RoleRead, ConceptRead, PairRead, RestrictionRead, AxiomsRead};

    pub(crate) fn new(text: &'a [u8]) -> Self
        ensures text { result.text.now ≡ text.now }
        ensures rest { result.rest.now ≡ text.now }
        ensures room { result.room ≡ 255 }
        ensures count { result.sheet.count ≡ 0 }
        ensures bytes { result.sheet.bytes.items ≡ [] }
    {
        Parser {
            text,
            rest: text,
            room: 255,
            sheet: Sheet::new(),
        }
    }

    // The next word, and its place.
    fn next(&mut self) -> (Word, usize)
        ensures { Next self.old result self.new }
    {
        let found = next_token(self.rest);
        self.rest = found.rest;
        (found.word, self.text.len() - found.left)
    }

    // The refusal of a word that is not known, or that cannot stand there.
    fn wrong(word: Word, place: usize) -> Refusal
        ensures { Wrong word place result }
    {
        match word {
            Word::Unknown => Refusal::at(Reason::UnknownWord, place),
            _ => Refusal::at(Reason::MisplacedWord, place),
        }
    }

    // A parenthesis.
    fn expect(&mut self, wanted: Word) -> Result<(), Refusal>
        ensures reads { Expects wanted self.old result self.new }
        ensures stays { OnOk result (Stays self.old self.new) }
    {
        let (word, place) = self.next();
        if word == wanted {
            Ok(())
        } else {
            Err(Self::wrong(word, place))
        }
    }

    // A form or a name begins, and counts as a record.
    fn begin(&mut self) -> Result<(), Refusal>
        ensures reads { BeginningRead self.old result self.new }
        ensures opens { OnOk result (Opens self.old self.new) }
    {
        if self.room == 0 {
            return Err(Refusal::of(Reason::TooManyRecords));
        }
        self.room -= 1;
        Ok(())
    }

    // A record that is written as it begins. A record's first byte is its kind.
    // A slice, since a record has one to three bytes: an `ArrayVec<u8, 3>` would be built for each.
    fn leaf(&mut self, bytes: &[u8]) -> Result<u8, Refusal>
        requires { length bytes.now ≤ 3 }
        ensures reads { LeafRead bytes.now self.old result self.new }
        ensures moves { OnOk result (Moves self.old self.new) }
    {
        self.begin()?;
        Ok(self.sheet.put(bytes))
    }

    // A form begins, and opens its parenthesis.
    fn open(&mut self) -> Result<(), Refusal>
        ensures reads { OpeningRead self.old result self.new }
        ensures opens { OnOk result (Opens self.old self.new) }
    {
        self.begin()?;
        self.expect(Word::Opening)
    }

    // Closes a form and writes its record.
    fn close(&mut self, bytes: &[u8]) -> Result<u8, Refusal>
        requires few { self.old.sheet.count + self.old.room < 255 }
        requires short { length bytes.now ≤ 3 }
        ensures reads { ClosingRead bytes.now self.old result self.new }
        ensures closes { OnOk result (Closes self.old self.new) }
    {
        self.expect(Word::Closing)?;
        Ok(self.sheet.put(bytes))
    }

    // A named property that is no record of its own.
    fn property(&mut self) -> Result<u8, Refusal>
        ensures reads { PropertyRead self.old result self.new }
        ensures moves { OnOk result (Moves self.old self.new) }
    {
        let (word, place) = self.next();
        match word {
            Word::PropertyNamed(n) => Ok(n),
            _ => Err(Self::wrong(word, place)),
        }
    }

    // A role and its record.
    fn role(&mut self) -> Result<u8, Refusal>
        ensures reads { RoleRead self.old result self.new }
        ensures moves { OnOk result (Moves self.old self.new) }
    {
        let (word, place) = self.next();
        match word {
            Word::PropertyNamed(n) => self.leaf(&[0x10, n]),
            Word::InverseOf => {
                self.open()?;
                let n = self.property()?;
                self.close(&[0x11, n])
            }
            _ => Err(Self::wrong(word, place)),
        }
    }

    // A concept and its records.
    #[cycle(concept)]
    fn concept(&mut self) -> Result<u8, Refusal>
        ensures reads { ConceptRead self.old result self.new }
        ensures moves { OnOk result (Moves self.old self.new) }
    {
        let (word, place) = self.next();
        match word {
            Word::Thing => self.leaf(&[0x01]),
            Word::Nothing => self.leaf(&[0x02]),
            Word::ClassNamed(n) => self.leaf(&[0x03, n]),
            Word::ComplementOf => {
                self.open()?;
                let i = self.concept()?;
                self.close(&[0x04, i])
            }
            Word::IntersectionOf => self.pair(0x05),
            Word::UnionOf => self.pair(0x06),
            Word::SomeValuesFrom => self.restriction(0x07),
            Word::AllValuesFrom => self.restriction(0x08),
            _ => Err(Self::wrong(word, place)),
        }
    }

    // Two concepts in parentheses, and the record of the form.
    // A kind is a byte here, since a record is written as its bytes.
    #[cycle(concept)]
    fn pair(&mut self, kind: u8) -> Result<u8, Refusal>
        ensures reads { PairRead kind self.old result self.new }
        ensures moves { OnOk result (Moves self.old self.new) }
        ensures falls { OnOk result (self.new.room < self.old.room) }
    {
        self.open()?;
        let left = self.concept()?;
        let right = self.concept()?;
        self.close(&[kind, left, right])
    }

    // A role and a concept in parentheses, and the record of the form.
    // Not one function with `pair`: one that takes the operand's method would promise by its calls what is read.
    #[cycle(concept)]
    fn restriction(&mut self, kind: u8) -> Result<u8, Refusal>
        ensures reads { RestrictionRead kind self.old result self.new }
        ensures moves { OnOk result (Moves self.old self.new) }
    {
        self.open()?;
        let role = self.role()?;
        let filler = self.concept()?;
        self.close(&[kind, role, filler])
    }

    // Axioms to the text's end, and their records.
    pub(crate) fn axioms(&mut self) -> Result<(), Refusal>
        ensures { AxiomsRead self.old result self.new }
    {
        loop {
            let (word, place) = self.next();
            match word {
                Word::Ending => return Ok(()),
                Word::SubClassOf => {
                    self.pair(0x20)?;
                }
                _ => return Err(Self::wrong(word, place)),
            }
        }
    }
}
