//! The signs of kernel files.
ghost use Rattle.std.specs.Prelude.{◌≡◌, false, [], ◌∷◌, MatchOption};
ghost use Rattle.text_reader.specs.declared.form.Form.TheVariants.{Kernel};
ghost use Rattle.text_reader.specs.Signs.{is_pair, is_single};
ghost use Rattle.text_reader.specs.Spelling.{is_sign};
ghost use Rattle.kernel_expressions.specs.Signs.{sign_text};

/// A sign of kernel files, named by its characters.
#[derive(Clone, Copy, Debug, PartialEq, Eq)]
pub enum Sign {
    OpenBracket,
    CloseBracket,
    OpenBrace,
    CloseBrace,
    OpenParenthesis,
    CloseParenthesis,
    Comma,
    Colon,
    Equal,
    Less,
    Greater,
    Plus,
    Minus,
    Star,
    Percent,
    Bar,
    Caret,
    Ampersand,
    Tilde,
    ColonEqual,
    EqualEqual,
    PlusEqual,
    StarEqual,
    LessEqual,
    GreaterEqual,
    NotEqual,
    Arrow,
    ShiftRight,
    ShiftLeft,
    SlashSlash,
}

/// All signs.
pub const SIGNS: [Sign; 30] = [
    Sign::OpenBracket,
    Sign::CloseBracket,
    Sign::OpenBrace,
    Sign::CloseBrace,
    Sign::OpenParenthesis,
    Sign::CloseParenthesis,
    Sign::Comma,
    Sign::Colon,
    Sign::Equal,
    Sign::Less,
    Sign::Greater,
    Sign::Plus,
    Sign::Minus,
    Sign::Star,
    Sign::Percent,
    Sign::Bar,
    Sign::Caret,
    Sign::Ampersand,
    Sign::Tilde,
    Sign::ColonEqual,
    Sign::EqualEqual,
    Sign::PlusEqual,
    Sign::StarEqual,
    Sign::LessEqual,
    Sign::GreaterEqual,
    Sign::NotEqual,
    Sign::Arrow,
    Sign::ShiftRight,
    Sign::ShiftLeft,
    Sign::SlashSlash,
];

/// The bytes of a sign.
pub fn sign_text(sign: Sign) -> &'static [u8]
    ensures { result.now ≡ sign_text sign }
{
    match sign {
        Sign::OpenBracket => b"[",
        Sign::CloseBracket => b"]",
        Sign::OpenBrace => b"{",
        Sign::CloseBrace => b"}",
        Sign::OpenParenthesis => b"(",
        Sign::CloseParenthesis => b")",
        Sign::Comma => b",",
        Sign::Colon => b":",
        Sign::Equal => b"=",
        Sign::Less => b"<",
        Sign::Greater => b">",
        Sign::Plus => b"+",
        Sign::Minus => b"-",
        Sign::Star => b"*",
        Sign::Percent => b"%",
        Sign::Bar => b"|",
        Sign::Caret => b"^",
        Sign::Ampersand => b"&",
        Sign::Tilde => b"~",
        Sign::ColonEqual => b":=",
        Sign::EqualEqual => b"==",
        Sign::PlusEqual => b"+=",
        Sign::StarEqual => b"*=",
        Sign::LessEqual => b"<=",
        Sign::GreaterEqual => b">=",
        Sign::NotEqual => b"!=",
        Sign::Arrow => b"->",
        Sign::ShiftRight => b">>",
        Sign::ShiftLeft => b"<<",
        Sign::SlashSlash => b"//",
    }
}

/// The sign of one byte.
fn single(byte: u8) -> Option<Sign>
    ensures { MatchOption result (is_single Kernel byte ≡ false) (λ sign. sign_text sign ≡ byte ∷ []) }
{
    match byte {
        b'[' => Some(Sign::OpenBracket),
        b']' => Some(Sign::CloseBracket),
        b'{' => Some(Sign::OpenBrace),
        b'}' => Some(Sign::CloseBrace),
        b'(' => Some(Sign::OpenParenthesis),
        b')' => Some(Sign::CloseParenthesis),
        b',' => Some(Sign::Comma),
        b':' => Some(Sign::Colon),
        b'=' => Some(Sign::Equal),
        b'<' => Some(Sign::Less),
        b'>' => Some(Sign::Greater),
        b'+' => Some(Sign::Plus),
        b'-' => Some(Sign::Minus),
        b'*' => Some(Sign::Star),
        b'%' => Some(Sign::Percent),
        b'|' => Some(Sign::Bar),
        b'^' => Some(Sign::Caret),
        b'&' => Some(Sign::Ampersand),
        b'~' => Some(Sign::Tilde),
        _ => None,
    }
}

/// The sign of two bytes.
fn pair(first: u8, second: u8) -> Option<Sign>
    ensures { MatchOption result (is_pair Kernel first second ≡ false) (λ sign. sign_text sign ≡ first ∷ second ∷ []) }
{
    match (first, second) {
        (b':', b'=') => Some(Sign::ColonEqual),
        (b'=', b'=') => Some(Sign::EqualEqual),
        (b'+', b'=') => Some(Sign::PlusEqual),
        (b'*', b'=') => Some(Sign::StarEqual),
        (b'<', b'=') => Some(Sign::LessEqual),
        (b'>', b'=') => Some(Sign::GreaterEqual),
        (b'!', b'=') => Some(Sign::NotEqual),
        (b'-', b'>') => Some(Sign::Arrow),
        (b'>', b'>') => Some(Sign::ShiftRight),
        (b'<', b'<') => Some(Sign::ShiftLeft),
        (b'/', b'/') => Some(Sign::SlashSlash),
        _ => None,
    }
}

/// The sign with these bytes, if there is one.
pub fn sign_of(text: &[u8]) -> Option<Sign>
    ensures { MatchOption result (is_sign Kernel text.now ≡ false) (λ sign. sign_text sign ≡ text.now) }
{
    match text {
        [byte] => single(*byte),
        [first, second] => pair(*first, *second),
        _ => None,
    }
}
