// What a card's line is, by its name, and the fields after it.
ghost use Rattle.std.specs.Prelude.{◌≡◌, ◌≤◌, length};
ghost use Rattle.card_lines.specs.Names.{named, type_word, word_of, words_wanted};

use kinds::types::Kind;

// What a line says: the head, a node of a type, or a wire.
#[derive(Clone, Copy, PartialEq, Eq)]
pub enum Name {
    Head,
    Node(Kind),
    Wire,
}

const NAMES: [Name; 12] = [
    Name::Head,
    Name::Node(Kind::Pass),
    Name::Node(Kind::Sum),
    Name::Node(Kind::Destination),
    Name::Node(Kind::Balance),
    Name::Node(Kind::Mul),
    Name::Node(Kind::Add),
    Name::Node(Kind::Delay),
    Name::Node(Kind::AllPass),
    Name::Node(Kind::OnePole),
    Name::Node(Kind::Sine),
    Name::Wire,
];

// The word for a type.
pub fn name_of(kind: Kind) -> &'static [u8]
    ensures short { length result.now ≤ 11 }
    ensures word { result.now ≡ type_word kind }
{
    match kind {
        Kind::Pass => b"pass",
        Kind::Sum => b"sum",
        Kind::Destination => b"destination",
        Kind::Balance => b"balance",
        Kind::Mul => b"mul",
        Kind::Add => b"add",
        Kind::Delay => b"delay",
        Kind::AllPass => b"allpass",
        Kind::OnePole => b"onepole",
        Kind::Sine => b"sine",
    }
}

impl Name {
    // The word that a line with this name starts with.
    pub fn word(self) -> &'static [u8]
        ensures { result.now ≡ word_of self }
    {
        match self {
            Name::Head => b"block",
            Name::Node(kind) => name_of(kind),
            Name::Wire => b"wire",
        }
    }

    // How many words a line with this name has.
    pub fn words_wanted(self) -> usize
        ensures { result ≡ words_wanted self }
    {
        match self {
            Name::Head => 4,
            Name::Node(kind) => {
                1 + usize::from(kind.has_whole()) + usize::from(kind.has_float())
            }
            Name::Wire => 3,
        }
    }
}

// What a word names.
pub fn named(word: &[u8]) -> Option<Name>
    ensures { result ≡ named word.now }
{
    // No name is empty: a blank line or a comment is answered before any is compared.
    if word.is_empty() {
        return None;
    }
    NAMES.iter().copied().find(|name| word == name.word())
}
