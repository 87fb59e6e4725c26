//! Numbers at the end of a text.
ghost use Rattle.std.specs.Prelude.{◌≡◌, ◌+◌, ◌-◌, ◌<◌, ◌≤◌, ◌^◌, [], ◌∷◌, ◌++◌, OnOk, OnErr, take, length, vec_len, vec_capacity};
ghost use Rattle.std.specs.Fmt.{decimal, signed_decimal};
ghost use Rattle.coord_text.specs.Numbers.{low_digits, fixed};

use coord_model::NoMemory;
use itoa::Buffer;

/// Adds the digits of `n`. After `NoMemory` the text is as before. Takes no memory where there is room.
pub fn push_number(out: &mut Vec<u8>, n: u64) -> Result<(), NoMemory>
    ensures added { OnOk result (out.new.items ≡ out.old.items ++ decimal n) }
    ensures unchanged { OnErr result (out.new.items ≡ out.old.items) }
    ensures capacity { vec_capacity out.old ≤ vec_capacity out.new }
    ensures full { OnErr result (vec_capacity out.old < vec_len out.old + length (decimal n)) }
{
    out.extend_from_slice(Buffer::new().format(n).as_bytes())?;
    Ok(())
}

/// Adds the digits of `n`, after `-` where it is negative. After `NoMemory` the text is as before.
pub fn push_signed(out: &mut Vec<u8>, n: i64) -> Result<(), NoMemory>
    ensures added { OnOk result (out.new.items ≡ out.old.items ++ signed_decimal n) }
    ensures unchanged { OnErr result (out.new.items ≡ out.old.items) }
{
    out.extend_from_slice(Buffer::new().format(n).as_bytes())?;
    Ok(())
}

/// Adds `n` with a point before its last `places` digits. After `NoMemory` the text is as before.
pub fn push_fixed(out: &mut Vec<u8>, n: u64, places: u32) -> Result<(), NoMemory>
    requires at_least_one { 1 ≤ places }
    requires at_most_six { places ≤ 6 }
    ensures added { OnOk result (out.new.items ≡ out.old.items ++ fixed places n) }
    ensures unchanged { OnErr result (out.new.items ≡ out.old.items) }
{
    let before = out.len();
    let pushed = push_parts(out, n, places);
    if pushed.is_err() {
        out.truncate(before);
    }
    pushed
}

/// Adds the parts of a fixed-point number in turn. After `NoMemory` some of them stand behind the text.
fn push_parts(out: &mut Vec<u8>, n: u64, places: u32) -> Result<(), NoMemory>
    requires { places ≤ 6 }
    ensures added { OnOk result (out.new.items ≡ out.old.items ++ fixed places n) }
    ensures front { take (vec_len out.old) out.new.items ≡ out.old.items }
{
    push_number(out, n / 10u64.pow(places))?;
    out.push(b'.')?;
    push_digits(out, n, places)
}

/// Adds the last digits of `n` in turn.
fn push_digits(out: &mut Vec<u8>, n: u64, places: u32) -> Result<(), NoMemory>
    ensures added { OnOk result (out.new.items ≡ out.old.items ++ low_digits places n) }
    ensures front { take (vec_len out.old) out.new.items ≡ out.old.items }
    ensures longer { vec_len out.old ≤ vec_len out.new }
{
    if places == 0 {
        return Ok(());
    }
    push_digits(out, n / 10, places - 1)?;
    out.push(b'0' + (n % 10) as u8)?;
    Ok(())
}

#[cfg(test)]
mod tests {
    use super::*;
    use std::test::Fail;

    #[test]
    fn spells_numbers(rt: HostRuntime) -> Result<(), Fail> {
        let mut out = Vec::new(rt.alloc());
        push_number(&mut out, 0)?;
        out.push(b' ')?;
        push_number(&mut out, 18_446_744_073_709_551_615)?;
        out.push(b' ')?;
        push_signed(&mut out, -220)?;
        out.push(b' ')?;
        push_signed(&mut out, 200)?;
        out.push(b' ')?;
        push_fixed(&mut out, 60, 2)?;
        out.push(b' ')?;
        push_fixed(&mut out, 15_000, 3)?;
        assert_eq!(rt;
            out.as_slice(),
            b"0 18446744073709551615 -220 200 0.60 15.000".as_slice()
        );
        Ok(())
    }
}
