//! The signs of a script: operators, brackets and marks.

ghost use Rattle.std.specs.Prelude.{◌≡◌};
ghost use Rattle.script_lexis.specs.Signs.{is_beyond, pair_sign, single_sign};

/// A sign of a script.
#[derive(Clone, Copy, Debug, PartialEq, Eq)]
pub enum Sign {
    Open,
    Close,
    OpenSquare,
    CloseSquare,
    OpenBrace,
    CloseBrace,
    Comma,
    Point,
    Semicolon,
    Colon,
    Question,
    Scope,
    Arrow,
    Assign,
    AddAssign,
    SubtractAssign,
    AndAssign,
    OrAssign,
    XorAssign,
    EitherAssign,
    Equal,
    Unequal,
    Less,
    More,
    AtMost,
    AtLeast,
    Both,
    Either,
    Not,
    And,
    Or,
    Xor,
    Add,
    Subtract,
    Multiply,
    Divide,
}

/// Whether two bytes begin a sign of Ruby that no script may have: `**`, `<<`, `>>`, `..`, `&.`,
/// `->`, `=~`, `!~`, `*=` or `/=`.
pub fn is_beyond(a: u8, b: u8) -> bool
    ensures { result ≡ is_beyond a b }
{
    a == b && matches!(a, b'*' | b'<' | b'>' | b'.')
        || a == b'&' && b == b'.'
        || a == b'-' && b == b'>'
        || b == b'~' && (a == b'=' || a == b'!')
        || b == b'=' && (a == b'*' || a == b'/')
}

/// The sign of two bytes.
pub fn pair_sign(a: u8, b: u8) -> Option<Sign>
    ensures { result ≡ pair_sign a b }
{
    match (a, b) {
        (b':', b':') => Some(Sign::Scope),
        (b'=', b'>') => Some(Sign::Arrow),
        (b'+', b'=') => Some(Sign::AddAssign),
        (b'-', b'=') => Some(Sign::SubtractAssign),
        (b'&', b'=') => Some(Sign::AndAssign),
        (b'|', b'=') => Some(Sign::OrAssign),
        (b'^', b'=') => Some(Sign::XorAssign),
        (b'=', b'=') => Some(Sign::Equal),
        (b'!', b'=') => Some(Sign::Unequal),
        (b'<', b'=') => Some(Sign::AtMost),
        (b'>', b'=') => Some(Sign::AtLeast),
        (b'&', b'&') => Some(Sign::Both),
        (b'|', b'|') => Some(Sign::Either),
        _ => None,
    }
}

/// The sign of one byte.
pub fn single_sign(b: u8) -> Option<Sign>
    ensures { result ≡ single_sign b }
{
    match b {
        b'(' => Some(Sign::Open),
        b')' => Some(Sign::Close),
        b'[' => Some(Sign::OpenSquare),
        b']' => Some(Sign::CloseSquare),
        b'{' => Some(Sign::OpenBrace),
        b'}' => Some(Sign::CloseBrace),
        b',' => Some(Sign::Comma),
        b'.' => Some(Sign::Point),
        b';' => Some(Sign::Semicolon),
        b':' => Some(Sign::Colon),
        b'?' => Some(Sign::Question),
        b'=' => Some(Sign::Assign),
        b'<' => Some(Sign::Less),
        b'>' => Some(Sign::More),
        b'!' => Some(Sign::Not),
        b'&' => Some(Sign::And),
        b'|' => Some(Sign::Or),
        b'^' => Some(Sign::Xor),
        b'+' => Some(Sign::Add),
        b'-' => Some(Sign::Subtract),
        b'*' => Some(Sign::Multiply),
        b'/' => Some(Sign::Divide),
        _ => None,
    }
}
