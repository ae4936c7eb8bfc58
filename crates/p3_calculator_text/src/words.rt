//! Words and decimal numbers in a line.
ghost use Rattle.std.specs.Prelude.{◌≡◌, ◌<◌, ◌≤◌, ◌∷◌, [], List, ℕ, length, IfNone, IfSome, IfOk, nat_eq};
ghost use Rattle.p3_calculator_text.specs.Lines.{words};
ghost use Rattle.p3_calculator_text.specs.Words.{number, register, decimal_up_to, one_register, two_registers, three_registers, registers_and_number};

use crate::faults::Fault;

/// The first word of a line, and what follows it.
pub fn next_word(line: &[u8]) -> Option<(&[u8], &[u8])>
    ensures none { IfNone result (words line.now ≡ []) }
    ensures some { IfSome result (λ p. words line.now ≡ p.0.now ∷ words p.1.now) }
{
    let mut start = 0;
    while start < line.len() && line[start] == b' ' {
        start += 1;
    }
    if start == line.len() {
        return None;
    }
    let mut end = start;
    while end < line.len() && line[end] != b' ' {
        end += 1;
    }
    Some((&line[start..end], &line[end..]))
}

/// The word of a line that has one word.
pub fn one_word(line: &[u8]) -> Option<&[u8]>
    ensures some { IfSome result (λ w. words line.now ≡ w.now ∷ []) }
    ensures none { IfNone result ((w : List ℕ) → words line.now ≡ w ∷ [] → ⊥) }
{
    let (word, rest) = next_word(line)?;
    if next_word(rest).is_some() {
        return None;
    }
    Some(word)
}

/// The words of a line that has two.
pub fn two_words(line: &[u8]) -> Option<(&[u8], &[u8])>
    ensures some { IfSome result (λ p. words line.now ≡ p.0.now ∷ p.1.now ∷ []) }
    ensures none { IfNone result ((v w : List ℕ) → words line.now ≡ v ∷ w ∷ [] → ⊥) }
{
    let (first, rest) = next_word(line)?;
    let second = one_word(rest)?;
    Some((first, second))
}

/// The words of a line that has three.
pub fn three_words(line: &[u8]) -> Option<(&[u8], &[u8], &[u8])>
    ensures some { IfSome result (λ p. words line.now ≡ p.0.now ∷ p.1.now ∷ p.2.now ∷ []) }
    ensures none { IfNone result ((u v w : List ℕ) → words line.now ≡ u ∷ v ∷ w ∷ [] → ⊥) }
{
    let (first, rest) = next_word(line)?;
    let (second, third) = two_words(rest)?;
    Some((first, second, third))
}

/// Whether a line has so many words.
pub fn has_words(line: &[u8], count: usize) -> bool
    ensures { result ≡ nat_eq (length (words line.now)) count }
{
    let mut rest = line;
    for _ in 0..count {
        let Some((_, more)) = next_word(rest) else {
            return false;
        };
        rest = more;
    }
    next_word(rest).is_none()
}

/// The value of one or more decimal digits, up to a count of digits and a value.
fn parse_decimal(word: &[u8], digits: usize, most: u64) -> Option<u64>
    requires { digits ≤ 20 }
    ensures value { result ≡ decimal_up_to digits most word.now }
    ensures most { IfSome result (λ n. n ≤ most) }
{
    if word.is_empty() || word.len() > digits {
        return None;
    }
    let mut n: u128 = 0;
    for b in word {
        if *b < b'0' || *b > b'9' {
            return None;
        }
        n = 10 * n + (*b - b'0') as u128;
    }
    if n <= most as u128 {
        Some(n as u64)
    } else {
        None
    }
}

/// The value of a number of one to twenty decimal digits, up to a value.
pub fn parse_number(word: &[u8], most: u64) -> Option<u64>
    ensures value { result ≡ number most word.now }
    ensures most { IfSome result (λ n. n ≤ most) }
{
    parse_decimal(word, 20, most)
}

/// The register that a word names: one or two decimal digits, 0 to 15.
pub fn parse_register(word: &[u8]) -> Option<usize>
    ensures value { result ≡ register word.now }
    ensures below { IfSome result (λ r. r < 16) }
{
    match parse_decimal(word, 2, 15) {
        Some(r) => Some(r as usize),
        None => None,
    }
}

/// The register of a line that has one word.
pub fn one_register(args: &[u8]) -> Result<usize, Fault>
    ensures value { result ≡ one_register (words args.now) }
    ensures below { IfOk result (λ r. r < 16) }
{
    let Some(r) = one_word(args) else {
        return Err(Fault::WordCount);
    };
    let Some(r) = parse_register(r) else {
        return Err(Fault::BadRegister);
    };
    Ok(r)
}

/// The registers of a line that has two words.
pub fn two_registers(args: &[u8]) -> Result<(usize, usize), Fault>
    ensures value { result ≡ two_registers (words args.now) }
    ensures below { IfOk result (λ p. (p.0 < 16) × (p.1 < 16)) }
{
    let Some((r, a)) = two_words(args) else {
        return Err(Fault::WordCount);
    };
    let Some(r) = parse_register(r) else {
        return Err(Fault::BadRegister);
    };
    let Some(a) = parse_register(a) else {
        return Err(Fault::BadRegister);
    };
    Ok((r, a))
}

/// The registers of a line that has three words.
pub fn three_registers(args: &[u8]) -> Result<(usize, usize, usize), Fault>
    ensures value { result ≡ three_registers (words args.now) }
    ensures below { IfOk result (λ p. (p.0 < 16) × (p.1 < 16) × (p.2 < 16)) }
{
    let Some((r, a, b)) = three_words(args) else {
        return Err(Fault::WordCount);
    };
    let Some(r) = parse_register(r) else {
        return Err(Fault::BadRegister);
    };
    let Some(a) = parse_register(a) else {
        return Err(Fault::BadRegister);
    };
    let Some(b) = parse_register(b) else {
        return Err(Fault::BadRegister);
    };
    Ok((r, a, b))
}

/// The registers and the number of a line that has two registers and a number. The number is
/// tested last.
pub fn registers_and_number(args: &[u8]) -> Result<(usize, usize, u64), Fault>
    ensures value { result ≡ registers_and_number (words args.now) }
    ensures below { IfOk result (λ p. (p.0 < 16) × (p.1 < 16)) }
{
    let Some((r, a, e)) = three_words(args) else {
        return Err(Fault::WordCount);
    };
    let Some(r) = parse_register(r) else {
        return Err(Fault::BadRegister);
    };
    let Some(a) = parse_register(a) else {
        return Err(Fault::BadRegister);
    };
    let Some(e) = parse_number(e, u64::MAX) else {
        return Err(Fault::BadNumber);
    };
    Ok((r, a, e))
}
