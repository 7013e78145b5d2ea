// Axioms as text in a lent buffer: each method writes what the definition of its name writes (specs/AxiomText.antt). Calls nest at most as
// deep as records name each other, 255 deep.
ghost use Rattle.std.specs.Prelude.{◌≤◌};

use crate::composed::is_composed;
use flattening::trees::Tree;
use output::put_text;
use records::nodes::Node;
use records::table::Table;

// How far a text has come, and how far it may go. What the buffer has no room for is counted alone.
#[derive(Drop)]
pub(crate) struct Writer<'a> {
    pub(crate) out: &'a mut [u8],
    pub(crate) at: usize,
    pub(crate) most: usize,
    ghost inside: { at ≤ most },
}

impl Writer<'_> {
    ghost use Rattle.std.specs.Prelude.{◌≡◌, ◌++◌, ◌<◌, length};
    ghost use Rattle.owl_words.specs.Words.{digits};
    ghost use Rattle.owl_export.specs.AxiomText.{role_text, concept_text, axiom_text};
    ghost use Rattle.flattening.specs.Trees.{role_at};
    ghost use Rattle.owl_export.specs.RecordText.{concept_of, pair_text, restriction_text, lines_of, line_at};
    ghost use Rattle.owl_export.specs.Emitting.{Emits};

    // Puts a text, unless the whole would be too long.
    // None and no error: what it means is the caller's to say, 21.
    fn put(&mut self, text: &[u8]) -> Option<()>
        ensures { Emits text.now self.old self.new result }
    {
        let at = self.at;
        if self.most - at < text.len() {
            return None;
        }
        let end = at + text.len();
        if end <= self.out.len() {
            put_text(self.out, at, text);
        }
        self.at = end;
        Some(())
    }

    // A name: what it begins with, and its number, below 12, in digits.
    fn name(&mut self, front: &[u8], n: u8) -> Option<()>
        ensures { Emits (front.now ++ digits n) self.old self.new result }
    {
        self.put(front)?;
        match n {
            0..=9 => self.put(&[b'0' + n]),
            10..=11 => self.put(&[b'1', b'0' + (n - 10)]),
            _ => Some(()),
        }
    }

    // A role: none of not, and, or has a text. What is no role is read as the first, as the definitions have it; a sheet that is read has
    // none here.
    fn role(&mut self, tree: Tree) -> Option<()>
        ensures { Emits (role_text (role_at tree.entry)) self.old self.new result }
    {
        if is_composed(tree) {
            return Some(());
        }
        let Some(node) = tree.node() else {
            return self.name(b":k", 0);
        };
        match node {
            Node::Role(k) => self.name(b":k", k),
            Node::Inverse(k) => {
                self.put(b"ObjectInverseOf(")?;
                self.name(b":k", k)?;
                self.put(b")")
            }
            _ => self.name(b":k", 0),
        }
    }

    #[cycle(concept)]
    fn concept(&mut self, tree: Tree) -> Option<()>
        ensures { Emits (concept_text (concept_of tree.entry)) self.old self.new result }
    {
        let Some(node) = tree.node() else {
            return self.put(b"owl:Nothing");
        };
        match node {
            Node::Everything => self.put(b"owl:Thing"),
            Node::Name(t) => self.name(b":t", t),
            Node::Not(a) => {
                self.put(b"ObjectComplementOf(")?;
                self.concept(tree.operand(a))?;
                self.put(b")")
            }
            Node::And(a, b) => self.pair(
                b"ObjectIntersectionOf(",
                tree.operand(a),
                tree.operand(b),
            ),
            Node::Or(a, b) => self.pair(b"ObjectUnionOf(", tree.operand(a), tree.operand(b)),
            Node::Exists(u, a) => self.restriction(
                b"ObjectSomeValuesFrom(",
                tree.operand(u),
                tree.operand(a),
            ),
            Node::Forall(u, a) => self.restriction(
                b"ObjectAllValuesFrom(",
                tree.operand(u),
                tree.operand(a),
            ),
            _ => self.put(b"owl:Nothing"),
        }
    }

    // A form of two concepts, whose word has its parenthesis.
    #[cycle(concept)]
    fn pair(&mut self, word: &[u8], left: Tree, right: Tree) -> Option<()>
        ensures { Emits (pair_text word.now left.entry right.entry) self.old self.new result }
    {
        self.put(word)?;
        self.concept(left)?;
        self.put(b" ")?;
        self.concept(right)?;
        self.put(b")")
    }

    // A form of a role and a concept.
    // Not one function with `pair`: one that takes the method for the first operand would promise by its calls what is written.
    #[cycle(concept)]
    fn restriction(&mut self, word: &[u8], role: Tree, filler: Tree) -> Option<()>
        ensures { Emits (restriction_text word.now role.entry filler.entry) self.old self.new result }
    {
        self.put(word)?;
        self.role(role)?;
        self.put(b" ")?;
        self.concept(filler)?;
        self.put(b")")
    }

    // The line of record i, if it is an axiom.
    fn line(&mut self, table: &Table, i: u8) -> Option<()>
        ensures { Emits (line_at table.now i) self.old self.new result }
    {
        let Some(node) = table.node(i) else {
            return Some(());
        };
        let Node::Axiom(left, right) = node else {
            return Some(());
        };
        let axiom = Tree {
            table,
            number: i,
            below: table.len(),
        };
        self.pair(b"SubClassOf(", axiom.operand(left), axiom.operand(right))?;
        self.put(b"\n")
    }

    // All axioms, a line each.
    // By number, since an axiom is read as a `Tree`, which takes a record's number.
    pub(crate) fn axioms(&mut self, table: &Table) -> Option<()>
        ensures { Emits (lines_of table.now) self.old self.new result }
    {
        for i in 0..table.len() {
            self.line(table, i as u8)?;
        }
        Some(())
    }
}
