//! Command words.
ghost use Rattle.std.specs.Prelude.{◌≡◌};
ghost use Rattle.std.specs.Str.{bytes_eq};
ghost use Rattle.proto.specs.Requests.{word_of};

/// The command words.
#[derive(Clone, Copy)]
pub enum Word {
    Get,
    Gets,
    Store(Storing),
    Incr,
    Decr,
    Delete,
    FlushAll,
    Quit,
}

/// The words of the storage commands.
#[derive(Clone, Copy)]
pub enum Storing {
    Set,
    Add,
    Replace,
    Append,
    Prepend,
    Cas,
}

/// The command word that a field is, if it is one.
pub fn word_of(field: &[u8]) -> Option<Word>
    ensures { result ≡ word_of field.now }
{
    if is_word(field, b"get") {
        Some(Word::Get)
    } else if is_word(field, b"gets") {
        Some(Word::Gets)
    } else if is_word(field, b"set") {
        Some(Word::Store(Storing::Set))
    } else if is_word(field, b"add") {
        Some(Word::Store(Storing::Add))
    } else if is_word(field, b"replace") {
        Some(Word::Store(Storing::Replace))
    } else if is_word(field, b"append") {
        Some(Word::Store(Storing::Append))
    } else if is_word(field, b"prepend") {
        Some(Word::Store(Storing::Prepend))
    } else if is_word(field, b"cas") {
        Some(Word::Store(Storing::Cas))
    } else if is_word(field, b"incr") {
        Some(Word::Incr)
    } else if is_word(field, b"decr") {
        Some(Word::Decr)
    } else if is_word(field, b"delete") {
        Some(Word::Delete)
    } else if is_word(field, b"flush_all") {
        Some(Word::FlushAll)
    } else if is_word(field, b"quit") {
        Some(Word::Quit)
    } else {
        None
    }
}

fn is_word(field: &[u8], word: &[u8]) -> bool
    ensures { result ≡ bytes_eq field.now word.now }
{
    field == word
}
