// Numbers, which a script spells in one way each: a word is read as a number where it is what is
// printed of that number. A variable may stand in place of some.
ghost use Rattle.std.specs.Prelude.{◌≡◌, ◌∷◌, ◌<◌, ◌^◌, ℕ, IfSome, IfNone, decimal};
ghost use Rattle.rss_model.specs.Script.{IsTransaction, IsNumber, IsNumberIn, IsTid, IsTidIn};
ghost use Rattle.rss_line.specs.Reads.{minus, ReadsAs, IsBehindMinus, IsInt, IsFromZero, IsBelow};

use crate::Names;
use crate::decimal::read_decimal;
use crate::name::read_variable;
use rss_base::Tid;

/// Numbers of transactions, scans and save points lie below this one.
const NUMBER_LIMIT: u64 = 1 << 32;

const PAGE_LIMIT: u64 = 65_536;

const SLOT_LIMIT: u64 = 128;

/// A number below zero, whose sign was read.
fn read_below_zero(digits: &[u8]) -> Option<i64>
    ensures { ReadsAs (IsInt (minus ∷ digits.now)) result }
{
    let size = read_decimal(digits)?;
    if size == 0 {
        None
    } else {
        0_i64.checked_sub_unsigned(size)
    }
}

/// A number from zero on.
fn read_from_zero(digits: &[u8]) -> Option<i64>
    ensures { ReadsAs (IsFromZero digits.now) result }
{
    0_i64.checked_add_unsigned(read_decimal(digits)?)
}

/// The bytes after a minus, if the word begins with one.
fn behind_minus(word: &[u8]) -> Option<&[u8]>
    ensures { IsBehindMinus word.now result }
{
    if let [b'-', digits @ ..] = word {
        Some(digits)
    } else {
        None
    }
}

pub fn read_int(word: &[u8]) -> Option<i64>
    ensures { ReadsAs (IsInt word.now) result }
{
    match behind_minus(word) {
        Some(digits) => read_below_zero(digits),
        None => read_from_zero(word),
    }
}

/// A number below 2^64, without a sign.
pub fn read_number(word: &str) -> Option<u64>
    ensures some { IfSome result (λ n. word.now ≡ decimal n) }
    ensures none { IfNone result ((n : ℕ) → n < 2 ^ 64 → word.now ≡ decimal n → ⊥) }
{
    read_decimal(word.as_bytes())
}

/// A number without a sign, below a limit.
pub fn read_below(limit: u64, word: &[u8]) -> Option<u64>
    ensures { ReadsAs (IsBelow limit word.now) result }
{
    let number = read_decimal(word)?;
    if number < limit { Some(number) } else { None }
}

pub fn read_transaction(word: &[u8]) -> Option<u32>
    ensures { ReadsAs (IsTransaction word.now) result }
{
    let number = read_below(NUMBER_LIMIT, word)?;
    if number == 0 {
        None
    } else {
        Some(number as u32)
    }
}

pub fn read_tid(word: &str) -> Option<Tid>
    ensures { ReadsAs (IsTid word.now) result }
{
    let (page, slot) = word.split_once('.')?;
    let page = read_below(PAGE_LIMIT, page.as_bytes())?;
    let slot = read_below(SLOT_LIMIT, slot.as_bytes())?;
    Some(Tid {
        page: page as u32,
        slot: slot as u16,
    })
}

/// An identifier, or a variable that stands for one.
pub fn read_tid_in(word: &str, names: &Names) -> Option<Tid>
    ensures { ReadsAs (IsTidIn names.now.variables word.now) result }
{
    match read_variable(word) {
        Some(variable) => names.tid(variable),
        None => read_tid(word),
    }
}

/// The number of a scan or a save point.
pub fn read_count(word: &str) -> Option<u32>
    ensures { ReadsAs (IsNumber word.now) result }
{
    let number = read_below(NUMBER_LIMIT, word.as_bytes())?;
    Some(number as u32)
}

/// The number of a scan or a save point, or a variable that stands for a number.
pub fn read_number_in(word: &str, names: &Names) -> Option<u32>
    ensures { ReadsAs (IsNumberIn names.now.variables word.now) result }
{
    match read_variable(word) {
        Some(variable) => names.number(variable),
        None => read_count(word),
    }
}
