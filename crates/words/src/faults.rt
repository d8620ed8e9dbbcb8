// Why a call on words was refused: the fault itself, and the refusal that a user sees of it (number, place, layer).
// Every fault of every layer is shown as one `Refusal`; docs/REFUSALS.md lists them all.
ghost use Rattle.std.specs.Prelude.{◌≡◌, Some};
ghost use Rattle.words.specs.Faults.{layer_name, number_of, place_of, layer_of, refusal_of};

use std::fmt;

/// The layer in which a refusal came about.
#[derive(Clone, Copy, PartialEq, Eq, Debug)]
pub enum Layer {
    Word,
    Frame,
    Pair,
    Log,
}

impl Layer {
    /// The name by which a user is told of it.
    pub fn name(self) -> &'static str
        ensures { result.now ≡ layer_name self }
    {
        match self {
            Layer::Word => "word",
            Layer::Frame => "frame",
            Layer::Pair => "pair",
            Layer::Log => "log",
        }
    }
}

/// Prints the name.
impl fmt::Display for Layer {
    ghost output = { λ layer. Some (layer_name layer) };

    fn fmt<W: fmt::Write>(&self, f: &mut fmt::Formatter<W>) -> fmt::Result {
        f.write_str(self.name())
    }
}

/// A refusal as its user sees it: which rule was broken, where, and in which layer.
#[derive(Clone, Copy, PartialEq, Eq, Debug)]
pub struct Refusal {
    pub number: u8,
    pub place: usize,
    pub layer: Layer,
}

/// Why a value or a word was refused. Each case holds its place: the index in a list, 0 for a single one, or a length.
#[derive(Clone, Copy, PartialEq, Eq, Debug)]
pub enum WordFault {
    /// The studio: a value that the law has no word for.
    Outside(usize),
    /// Whoever lends buffers: room for another number of words than there are values.
    WordRoom(usize),
    /// Whoever lends buffers: room for another number of values than there are words.
    ValueRoom(usize),
    /// The neighbour: a word above the law's bits.
    TooLong(usize),
    /// The neighbour: a word whose parity bit is wrong.
    Parity(usize),
    /// The neighbour: a word of the right form that belongs to no value.
    NoValue(usize),
}

impl WordFault {
    /// The same fault at another place, as at the index i of a list.
    // An arm for each case, since callers and tests write a fault with its place in one value; a kind beside a place is no shorter.
    pub fn at(self, i: usize) -> WordFault
        ensures number { number_of result ≡ number_of self }
        ensures place { place_of result ≡ i }
        ensures layer { layer_of result ≡ layer_of self }
    {
        match self {
            WordFault::Outside(_) => WordFault::Outside(i),
            WordFault::WordRoom(_) => WordFault::WordRoom(i),
            WordFault::ValueRoom(_) => WordFault::ValueRoom(i),
            WordFault::TooLong(_) => WordFault::TooLong(i),
            WordFault::Parity(_) => WordFault::Parity(i),
            WordFault::NoValue(_) => WordFault::NoValue(i),
        }
    }
}

/// What the user is told.
impl From<WordFault> for Refusal {
    ghost from_gives = { λ fault refusal. refusal ≡ refusal_of fault };

    fn from(fault: WordFault) -> Refusal {
        let (number, place, layer) = match fault {
            WordFault::Outside(place) => (2, place, Layer::Word),
            WordFault::WordRoom(place) => (6, place, Layer::Word),
            WordFault::ValueRoom(place) => (6, place, Layer::Pair),
            WordFault::TooLong(place) => (7, place, Layer::Word),
            WordFault::Parity(place) => (8, place, Layer::Word),
            WordFault::NoValue(place) => (9, place, Layer::Word),
        };
        Refusal {
            number,
            place,
            layer,
        }
    }
}
