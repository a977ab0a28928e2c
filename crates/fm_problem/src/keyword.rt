// The words that begin lines.
ghost use Rattle.std.specs.Prelude.{◌≡◌};
ghost use Rattle.fm_problem.specs.Statements.{keyword_of, order_of, query_keyword_of};

use fm_mono::Order;

/// The questions on the module of a degree and an ideal that name nothing more.
#[derive(Clone, Copy, Debug, PartialEq, Eq)]
pub enum Question {
    Zero,
    Root,
    Support,
    Resolution,
    Ext,
}

/// What a line is about, by its first word.
#[derive(Clone, Copy, Debug, PartialEq, Eq)]
pub enum Keyword {
    Ring,
    Order,
    Ideal,
    Module(Question),
    Class,
    Invert,
    Map,
    Member,
}

/// The keyword that a word is.
pub fn read_keyword(word: &[u8]) -> Option<Keyword>
    ensures { result ≡ keyword_of word.now }
{
    if word == b"ring".as_slice() {
        return Some(Keyword::Ring);
    }
    if word == b"order".as_slice() {
        return Some(Keyword::Order);
    }
    if word == b"ideal".as_slice() {
        return Some(Keyword::Ideal);
    }
    if word == b"zero".as_slice() {
        return Some(Keyword::Module(Question::Zero));
    }
    if word == b"root".as_slice() {
        return Some(Keyword::Module(Question::Root));
    }
    if word == b"support".as_slice() {
        return Some(Keyword::Module(Question::Support));
    }
    if word == b"resolution".as_slice() {
        return Some(Keyword::Module(Question::Resolution));
    }
    if word == b"ext".as_slice() {
        return Some(Keyword::Module(Question::Ext));
    }
    query_keyword(word)
}

fn query_keyword(word: &[u8]) -> Option<Keyword>
    ensures { result ≡ query_keyword_of word.now }
{
    if word == b"class".as_slice() {
        return Some(Keyword::Class);
    }
    if word == b"invert".as_slice() {
        return Some(Keyword::Invert);
    }
    if word == b"map".as_slice() {
        return Some(Keyword::Map);
    }
    if word == b"member".as_slice() {
        return Some(Keyword::Member);
    }
    None
}

/// The monomial order that a word names.
pub fn order_named(word: &[u8]) -> Option<Order>
    ensures { result ≡ order_of word.now }
{
    if word == b"grevlex".as_slice() {
        return Some(Order::Grevlex);
    }
    if word == b"deglex".as_slice() {
        return Some(Order::Deglex);
    }
    if word == b"lex".as_slice() {
        return Some(Order::Lex);
    }
    None
}
