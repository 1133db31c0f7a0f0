// The commands of a script of bench cards by their names. Assumes nothing: any bytes are read, and
// what names no command is told.
#![tactic(auto)]

ghost use Rattle.std.specs.Prelude.{◌≡◌};
ghost use Rattle.script_verbs.specs.Verbs.{verb_of};

// The command of a line.
#[derive(Clone, Copy)]
pub enum Verb {
    Blank,
    Put,
    Clock,
    Room,
    Strip,
    Size,
    Request,
    Table,
    Output,
    Undo,
    Second,
    Unknown,
}

// The command that a word names.
pub fn verb_of(word: &[u8]) -> Verb
    ensures { result ≡ verb_of word.now }
{
    if lines::same(word, b"blank") {
        return Verb::Blank;
    }
    if lines::same(word, b"put") {
        return Verb::Put;
    }
    if lines::same(word, b"clock") {
        return Verb::Clock;
    }
    if lines::same(word, b"room") {
        return Verb::Room;
    }
    if lines::same(word, b"strip") {
        return Verb::Strip;
    }
    if lines::same(word, b"size") {
        return Verb::Size;
    }
    if lines::same(word, b"request") {
        return Verb::Request;
    }
    if lines::same(word, b"table") {
        return Verb::Table;
    }
    if lines::same(word, b"output") {
        return Verb::Output;
    }
    if lines::same(word, b"undo") {
        return Verb::Undo;
    }
    if lines::same(word, b"second") {
        return Verb::Second;
    }
    Verb::Unknown
}
