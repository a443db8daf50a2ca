// How keywords and punctuators are spelled (ISO/IEC 9899:2011, 6.4.1 and 6.4.6).

ghost use Rattle.std.specs.Prelude.{◌≡◌, length, map, option_map};
ghost use Rattle.hx_tree.specs.Lexis as lexis;
ghost use Rattle.hx_lex.specs.Spelling as spec;

use hx_tree::token::Mark;

const KEYWORDS: [(&[u8], Mark); 14] = [
    (b"int", Mark::Int),
    (b"void", Mark::Void),
    (b"if", Mark::If),
    (b"else", Mark::Else),
    (b"while", Mark::While),
    (b"for", Mark::For),
    (b"pwhile", Mark::MarkedWhile),
    (b"pfor", Mark::MarkedFor),
    (b"break", Mark::Break),
    (b"continue", Mark::Continue),
    (b"return", Mark::Return),
    (b"print", Mark::Print),
    (b"emit", Mark::Emit),
    (b"do", Mark::Do),
];

/// The punctuators, the longest first: the first that the bytes begin with is the longest.
const PUNCTUATORS: [(&[u8], Mark); 43] = [
    (b"<<=", Mark::ShiftLeftAssign),
    (b">>=", Mark::ShiftRightAssign),
    (b"+=", Mark::PlusAssign),
    (b"-=", Mark::MinusAssign),
    (b"*=", Mark::TimesAssign),
    (b"/=", Mark::DivideAssign),
    (b"%=", Mark::RemainderAssign),
    (b"&=", Mark::AmpersandAssign),
    (b"|=", Mark::BarAssign),
    (b"^=", Mark::CaretAssign),
    (b"++", Mark::Increment),
    (b"--", Mark::Decrement),
    (b"<<", Mark::ShiftLeft),
    (b">>", Mark::ShiftRight),
    (b"<=", Mark::LessEqual),
    (b">=", Mark::GreaterEqual),
    (b"==", Mark::Equal),
    (b"!=", Mark::NotEqual),
    (b"&&", Mark::AndAnd),
    (b"||", Mark::BarBar),
    (b"(", Mark::OpenParen),
    (b")", Mark::CloseParen),
    (b"{", Mark::OpenBrace),
    (b"}", Mark::CloseBrace),
    (b"[", Mark::OpenBracket),
    (b"]", Mark::CloseBracket),
    (b",", Mark::Comma),
    (b";", Mark::Semicolon),
    (b"=", Mark::Assign),
    (b"+", Mark::Plus),
    (b"-", Mark::Minus),
    (b"*", Mark::Times),
    (b"/", Mark::Divide),
    (b"%", Mark::Remainder),
    (b"&", Mark::Ampersand),
    (b"|", Mark::Bar),
    (b"^", Mark::Caret),
    (b"~", Mark::Tilde),
    (b"!", Mark::Exclamation),
    (b"<", Mark::Less),
    (b">", Mark::Greater),
    (b"?", Mark::Question),
    (b":", Mark::Colon),
];

/// The keyword that a word is, where it is one.
#[tactic(auto, unfolding(hx_tree::specs::Lexis::keyword_of))]
pub(crate) fn keyword_of(text: &[u8]) -> Option<Mark>
    ensures { result ≡ lexis.keyword_of text.now }
{
    keyword_in(&KEYWORDS, text)
}

fn keyword_in(table: &[(&[u8], Mark)], text: &[u8]) -> Option<Mark>
    ensures { result ≡ spec.keyword_in (map (λ entry. (entry.0.now, entry.1)) table.entry.now) text.now }
{
    for entry in table {
        if entry.0 == text {
            return Some(entry.1);
        }
    }
    None
}

/// The longest punctuator that the bytes begin with, and its length.
#[tactic(auto, unfolding(hx_tree::specs::Lexis::punctuator_at))]
pub(crate) fn punctuator_at(bytes: &[u8]) -> Option<(Mark, usize)>
    ensures { result ≡ option_map (λ entry. (entry.1, length entry.0)) (lexis.punctuator_at bytes.now) }
{
    punctuator_in(&PUNCTUATORS, bytes)
}

fn punctuator_in(table: &[(&[u8], Mark)], bytes: &[u8]) -> Option<(Mark, usize)>
    ensures { result ≡ spec.punctuator_in (map (λ entry. (entry.0.now, entry.1)) table.entry.now) bytes.now }
{
    for entry in table {
        if bytes.starts_with(entry.0) {
            return Some((entry.1, entry.0.len()));
        }
    }
    None
}
