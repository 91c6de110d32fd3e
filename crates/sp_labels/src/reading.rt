ghost use Rattle.std.specs.Prelude.{◌≡◌, ℕ, ◌-◌, ◌<◌, ◌≤◌, ◌==◌, ◌&&◌, not, List, ◌∷◌, IfOk, IfSome, MatchBool, MatchOption, length, slice_index, nat_lt, nat_le, position, if◌then◌else◌};
ghost use Rattle.std.specs.Char.{is_ascii_digit};
ghost use Rattle.std.specs.List.{prefix_len};
ghost use Rattle.std.specs.Str.Parse.{AllDigits, digits_value};
ghost use Rattle.spec_labels.specs.Labels.{last_step, step_letters};
ghost use Rattle.spec_labels.specs.LabelReading.{IsReading, label_read};
ghost use Rattle.sp_labels.specs.Fronts.{NumberFront, StepFront};

use crate::label::Label;
use crate::writing::STEP_LETTERS;
use std::alloc::{AllocError, Global};

const NUMBER_LIMIT: u32 = 4_000_000_000;

const STEP_LIMIT: u32 = 16_777_216;

/// The label that the text spells, or `None` where it spells none (docs/RULES.md, "Labels"). Its number is at most
/// 4,000,000,000 and its steps are at most 16,777,216. `AllocError` comes for want of memory alone.
pub fn parse(alloc: Global, text: &str) -> Result<Option<Label>, AllocError>
    ensures spelled { IfOk result (IsReading text.now) }
    ensures read { IfOk result (λ label. label ≡ label_read text.now) }
{
    let Some((number, mut rest)) = first_number(text.as_bytes(), NUMBER_LIMIT) else {
        return Ok(None);
    };
    let mut path = Vec::new(alloc);
    while !rest.is_empty() {
        let Some((step, more)) = first_step(rest) else {
            return Ok(None);
        };
        path.push(step)?;
        rest = more;
    }
    if ends_in_zero(&path) {
        return Ok(None);
    }
    Ok(Some(Label { number, path }))
}

/// The last step of a path is 0, so no label has it.
fn ends_in_zero(path: &[u32]) -> bool
    ensures { MatchBool result (last_step path.now ≡ Some 0) (IfSome (last_step path.now) (λ step. 0 < step)) }
{
    match path.last() {
        Some(step) => *step == 0,
        None => false,
    }
}

/// The step that the bytes begin with, and what stands behind it.
fn first_step(text: &[u8]) -> Option<(u32, &[u8])>
    ensures { MatchOption result ((step : ℕ) (rest : List ℕ) → StepFront text.now step rest → ⊥) (λ r.
        StepFront text.now r.0 r.1.now) }
{
    let [first, rest @ ..] = text else {
        return None;
    };
    match first {
        b'.' => Some((0, rest)),
        b'(' => step_in_brackets(rest),
        letter => Some((step_of_letter(*letter)?, rest)),
    }
}

/// The step that the bytes behind an opening bracket begin with, and what stands behind the closing one.
fn step_in_brackets(text: &[u8]) -> Option<(u32, &[u8])>
    ensures { MatchOption result ((step : ℕ) (rest : List ℕ) → StepFront (40 ∷ text.now) step rest → ⊥) (λ r.
        StepFront (40 ∷ text.now) r.0 r.1.now) }
{
    let (step, rest) = first_number(text, STEP_LIMIT)?;
    if step <= 24 {
        return None;
    }
    Some((step, rest.strip_prefix(b")")?))
}

/// The step that a letter stands for.
fn step_of_letter(letter: u8) -> Option<u32>
    ensures { MatchOption result ((k : ℕ) → k < 24 → slice_index step_letters k ≡ letter → ⊥) (λ step.
        (0 < step) × (step ≤ 24) × (slice_index step_letters (step - 1) ≡ letter)) }
{
    let place = place_of(STEP_LETTERS, letter)?;
    Some(place as u32 + 1)
}

/// The place of a byte.
fn place_of(bytes: &[u8], byte: u8) -> Option<usize>
    ensures { result ≡ position (λ other. other == byte) bytes.now }
{
    bytes.iter().position(|other| *other == byte)
}

/// The number that the bytes begin with, and what stands behind it: `None` where they begin with no digit, with a number
/// past the limit, or with a leading zero.
fn first_number(text: &[u8], limit: u32) -> Option<(u32, &[u8])>
    ensures { MatchOption result ((number : ℕ) (rest : List ℕ) → NumberFront text.now limit number rest → ⊥) (λ r.
        NumberFront text.now limit r.0 r.1.now) }
{
    let (digits, rest) = text.split_at(digit_count(text));
    if !is_decimal(digits) {
        return None;
    }
    Some((number_of(digits, limit)?, rest))
}

/// How many digits the bytes begin with.
fn digit_count(text: &[u8]) -> usize
    ensures value { result ≡ prefix_len is_ascii_digit text.now }
    ensures low { result ≤ length text.now }
{
    text.iter().take_while(|byte| byte.is_ascii_digit()).count()
}

/// There is a digit, and no leading zero.
fn is_decimal(digits: &[u8]) -> bool
    ensures { result ≡ (nat_lt 0 (length digits.now)
        && not (nat_lt 1 (length digits.now) && slice_index digits.now 0 == 48)) }
{
    !digits.is_empty() && !(digits.len() > 1 && digits[0] == b'0')
}

/// The value of digits, where it is at most the limit.
fn number_of(digits: &[u8], limit: u32) -> Option<u32>
    requires { AllDigits 10 digits.now }
    ensures { result ≡ (if nat_le (digits_value 10 digits.now) limit then Some (digits_value 10 digits.now) else None) }
{
    let mut number = 0u64;
    for digit in digits {
        number = number * 10 + u64::from(digit - b'0');
        if number > u64::from(limit) {
            return None;
        }
    }
    Some(number as u32)
}
