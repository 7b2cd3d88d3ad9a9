//! Lines that are read and written again, and lines that are refused.

use crate::{Digits, FieldFault, Fields, Form, Kind, OrMemory, Rest, Shape, SharedBytes};
use std::test::Fail;

const FILE: Kind = Kind::Plain(Shape::Number {
    least: 0,
    most: 319,
});

const FLAGS: Kind = Kind::Plain(Shape::HexNumber(Digits::Four));

const HEADER: Kind = Kind::OrDash(Shape::HexBytes(20));

const NAME: Kind = Kind::Plain(Shape::Name);

const BYTES: Kind = Kind::Plain(Shape::Hex);

// A name, flags, and then a header or `-` and bytes; one more number may follow.
fn line_form() -> Form {
    Form::new(&[NAME, FLAGS, HEADER, BYTES], Rest::Optional(FILE))
}

// The line that is written for what was read of a line, or its fault.
fn again(
    rt: &HostRuntime,
    form: &Form,
    line: &[u8],
) -> Result<Result<String, OrMemory<FieldFault>>, Fail> {
    let mut out = String::new(rt.alloc());
    match form.read(rt.alloc(), Fields::new(line)) {
        Ok(values) => {
            form.write(&mut out, values.as_slice())?;
            Ok(Ok(out))
        }
        Err(error) => Ok(Err(error)),
    }
}

const GOOD: [&str; 4] = [
    "tap0 1102 - 00ff",
    "a.b_c-Dx ffff 00000000000000000000 0102030405060708090a0b0c0d0e0f",
    "tap0 0000 0123456789abcdefffff 00 319",
    "x5678901234567z 8000 - ab 0",
];

#[test]
fn lines_are_written_as_they_were_read(rt: HostRuntime) -> Result<(), Fail> {
    let form = line_form();
    for line in GOOD {
        let written = again(&rt, &form, line.as_bytes())?.ok().ok_or("refused")?;
        assert_eq!(rt; written.as_str().strip_prefix(' '), Some(line));
    }
    Ok(())
}

const REFUSED: [(&str, FieldFault); 12] = [
    ("tap0 1102 -  00ff", FieldFault::Fields),
    ("tap0 1102 -", FieldFault::Fields),
    ("tap0 1102 - 00 1 1", FieldFault::Fields),
    ("- 1102 - 00", FieldFault::Number),
    ("sixteen_bytes_xx 1102 - 00", FieldFault::Number),
    ("tap0 1102 - 00 01", FieldFault::Number),
    ("tap0 1102 - 00 320", FieldFault::Number),
    ("tap0 11 - 0 +1", FieldFault::Number),
    ("tap0 110 - 00", FieldFault::Hex),
    ("tap0 1102 - 0", FieldFault::Hex),
    ("tap0 1102 - FF", FieldFault::Hex),
    ("tap0 1102 00 ff", FieldFault::Hex),
];

#[test]
fn the_first_fault_is_told(rt: HostRuntime) -> Result<(), Fail> {
    let form = line_form();
    for (line, fault) in REFUSED {
        assert_eq!(rt;
            again(&rt, &form, line.as_bytes())?.err(),
            Some(OrMemory::Fault(fault))
        );
    }
    Ok(())
}

#[test]
fn bytes_are_shared(rt: HostRuntime) -> Result<(), Fail> {
    let bytes = SharedBytes::new(rt.alloc(), [1, 2, 3].to_vec(rt.alloc())?)?;
    let shared = bytes.share()?;
    assert_eq!(rt; shared.as_slice(), [1, 2, 3].as_slice());
    Ok(())
}
