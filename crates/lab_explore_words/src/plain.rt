//! The words of numbers, flags and names.

ghost use Rattle.std.specs.Prelude.{◌≡◌, ◌++◌, OnOk, option_copied};
ghost use Rattle.lab_explore_words.specs.Lists.{number_words, int_words, long_words, flag_words, each, list_words, option_words, name_words};

use om_foot::Name;
use om_seq::AllocResult;

// The word of a number that has two more behind it.
const LONG: u64 = 0xffff_ffff;

/// Appends the words of a number. Its only error is out of memory; then some may stand there.
pub(crate) fn push_number(number: u64, out: &mut Vec<u32>) -> AllocResult<()>
    ensures { OnOk result (out.new.items ≡ out.old.items ++ number_words number) }
{
    if number < LONG {
        out.push(number as u32)?;
        return Ok(());
    }
    out.push(0xffff_ffff)?;
    out.push((number / 0x1_0000_0000) as u32)?;
    out.push((number % 0x1_0000_0000) as u32)?;
    Ok(())
}

/// Appends the words of a number that may be below 0.
pub(crate) fn push_int(number: i32, out: &mut Vec<u32>) -> AllocResult<()>
    ensures { OnOk result (out.new.items ≡ out.old.items ++ int_words number) }
{
    out.push(if number < 0 { 1 } else { 0 })?;
    push_number(u64::from(number.unsigned_abs()), out)
}

/// Appends the words of a number of 128 bits.
pub(crate) fn push_long(number: i128, out: &mut Vec<u32>) -> AllocResult<()>
    ensures { OnOk result (out.new.items ≡ out.old.items ++ long_words number) }
{
    out.push(if number < 0 { 1 } else { 0 })?;
    let size = number.unsigned_abs();
    push_number((size / 0x1_0000_0000_0000_0000) as u64, out)?;
    push_number((size % 0x1_0000_0000_0000_0000) as u64, out)
}

/// Appends the word of a flag.
pub(crate) fn push_flag(flag: bool, out: &mut Vec<u32>) -> AllocResult<()>
    ensures { OnOk result (out.new.items ≡ out.old.items ++ flag_words flag) }
{
    out.push(if flag { 1 } else { 0 })?;
    Ok(())
}

/// Appends how many numbers there are, and the words of each.
pub(crate) fn push_numbers(numbers: &[u64], out: &mut Vec<u32>) -> AllocResult<()>
    ensures { OnOk result (out.new.items ≡ out.old.items ++ list_words number_words numbers.now) }
{
    push_number(numbers.len() as u64, out)?;
    for number in numbers {
        push_number(*number, out)?;
    }
    Ok(())
}

/// Appends how many bytes there are, and each.
pub(crate) fn push_bytes(bytes: &[u8], out: &mut Vec<u32>) -> AllocResult<()>
    ensures { OnOk result (out.new.items ≡ out.old.items ++ list_words number_words bytes.now) }
{
    push_number(bytes.len() as u64, out)?;
    for byte in bytes {
        push_number(u64::from(*byte), out)?;
    }
    Ok(())
}

/// Appends the words of a name.
pub(crate) fn push_name(name: &Name, out: &mut Vec<u32>) -> AllocResult<()>
    ensures { OnOk result (out.new.items ≡ out.old.items ++ name_words name.now) }
{
    push_numbers(name.as_slice(), out)
}

/// Appends the words of a name, if there is one.
pub(crate) fn push_some_name(name: &Option<Name>, out: &mut Vec<u32>) -> AllocResult<()>
    ensures { OnOk result (out.new.items ≡ out.old.items ++ option_words name_words name.now) }
{
    match name {
        None => {
            out.push(0)?;
            Ok(())
        }
        Some(name) => {
            out.push(1)?;
            push_name(name, out)
        }
    }
}
