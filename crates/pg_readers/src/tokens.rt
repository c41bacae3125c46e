//! The tokens of a line, read front to back.

ghost use Rattle.std.specs.Prelude.{◌≡◌, ◌-◌, ◌^◌, [], ◌∷◌, true, ◌<◌, ◌≤◌, length, IfSome, IfNone};
ghost use Rattle.pg_base.specs.Numbers.{with_digit};
ghost use Rattle.pg_readers.specs.Tokens.{is_blank, begins_token, behind_token, tokens, numbers};

/// Whether the byte is a space or a tab.
#[tactic(auto, unfolding(crate::specs::Tokens::is_blank))]
fn is_blank(byte: u8) -> bool
    ensures { result ≡ is_blank byte }
{
    byte == b' ' || byte == b'\t'
}

/// The number with one more digit behind it.
fn with_digit(number: u32, byte: u8) -> Option<u32>
    ensures { result ≡ with_digit (2 ^ 32 - 1) number byte }
{
    match byte {
        b'0'..=b'9' if number < 429_496_729 => Some(number * 10 + u32::from(byte - b'0')),
        b'0'..=b'9' => number.checked_mul(10)?.checked_add(u32::from(byte - b'0')),
        _ => None,
    }
}

/// The bytes from the first token on, where there is one.
pub fn from_token(bytes: &[u8]) -> Option<&[u8]>
    ensures none { IfNone result (tokens bytes.now ≡ []) }
    ensures same { IfSome result (λ rest. tokens rest.now ≡ tokens bytes.now) }
    ensures begins { IfSome result (λ rest. begins_token rest.now ≡ true) }
    ensures shorter { IfSome result (λ rest. length rest.now ≤ length bytes.now) }
{
    let mut rest = bytes;
    while let [byte, behind @ ..] = rest {
        if !is_blank(*byte) {
            return Some(rest);
        }
        rest = behind;
    }
    None
}

/// The bytes behind the token at the front.
fn behind_token(bytes: &[u8]) -> &[u8]
    ensures { result.now ≡ behind_token bytes.now }
{
    let mut rest = bytes;
    while let [byte, behind @ ..] = rest {
        if is_blank(*byte) {
            return rest;
        }
        rest = behind;
    }
    rest
}

/// The number of the token at the front, where it is one, and the bytes behind the token.
pub fn number_token(bytes: &[u8]) -> (Option<u32>, &[u8])
    requires { begins_token bytes.now ≡ true }
    ensures numbers { numbers bytes.now ≡ result.0 ∷ numbers result.1.now }
    ensures shorter { length result.1.now < length bytes.now }
{
    let mut number = 0;
    let mut at = 0;
    while at < bytes.len() {
        let byte = bytes[at];
        let Some(more) = with_digit(number, byte) else {
            let rest = &bytes[at..];
            if is_blank(byte) {
                return (Some(number), rest);
            }
            return (None, behind_token(rest));
        };
        number = more;
        at += 1;
    }
    (Some(number), &bytes[at..])
}

/// The number of the next token, where it is one, and the bytes behind the token.
///
/// None where no token is left.
pub fn next_number(bytes: &[u8]) -> Option<(Option<u32>, &[u8])>
    ensures none { IfNone result (numbers bytes.now ≡ []) }
    ensures some { IfSome result (λ found. numbers bytes.now ≡ found.0 ∷ numbers found.1.now) }
    ensures shorter { IfSome result (λ found. length found.1.now < length bytes.now) }
{
    let rest = from_token(bytes)?;
    Some(number_token(rest))
}
