//! The words of plan files and of logs.
ghost use Rattle.std.specs.Prelude.{◌≡◌};
ghost use Rattle.planfile.specs.Text.{word_of};
ghost use Rattle.planfile.specs.Requests.{verb_of};

// What a field can say that is no number; `Other` is all that is none of the words.
#[derive(Clone, Copy)]
pub(crate) enum Word {
    Clock,
    Row,
    Every,
    Heavy,
    Other,
}

// Which word a field is.
#[tactic(auto, using(crate::proofs::Words::word_is, std::proofs::lemmas::Bool::Decides::nat_tests))]
pub(crate) fn read_word(field: &[u8]) -> Word
    ensures { result ≡ word_of field.now }
{
    match field {
        b"clock" => Word::Clock,
        b"row" => Word::Row,
        b"every" => Word::Every,
        b"heavy" => Word::Heavy,
        _ => Word::Other,
    }
}

// What the first field of a line of a log can say; `Other` is all that is none of the words.
#[derive(Clone, Copy)]
pub(crate) enum Verb {
    Table,
    Hold,
    Keep,
    Release,
    Withdraw,
    Bound,
    Rows,
    Other,
}

// Which verb a field is.
#[tactic(auto, using(crate::proofs::Verbs::verb_is, std::proofs::lemmas::Bool::Decides::nat_tests))]
pub(crate) fn read_verb(field: &[u8]) -> Verb
    ensures { result ≡ verb_of field.now }
{
    match field {
        b"table" => Verb::Table,
        b"hold" => Verb::Hold,
        b"keep" => Verb::Keep,
        b"release" => Verb::Release,
        b"withdraw" => Verb::Withdraw,
        b"bound" => Verb::Bound,
        b"rows" => Verb::Rows,
        _ => Verb::Other,
    }
}
