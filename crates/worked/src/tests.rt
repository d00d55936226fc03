// Readings of labels over the field of 11, with four characters of which two are the door's.
// Worksheets and rows are arrays of stated lengths, some too long or too short; a helper has a parameter for each number expected.
use arithmetic::BinaryField;
use label::Scheme;
use reading::{Reading, Scan, Typed, read};
use std::process::Abort;
use std::test::Fail;

/// The scheme of these tests.
fn scheme() -> Result<Scheme<BinaryField>, Fail> {
    let field = BinaryField::open(11).map_err(|_| Fail::new("no field"))?;
    Scheme::lay_out(field, 4, 2).map_err(|_| Fail::new("no scheme"))
}

/// Whether every number of a row is this one.
fn all(row: &[u32], number: u32) -> bool {
    row.iter().all(|x| *x == number)
}

/// A reading is answered this door, v and s.
fn reads<R: Reading>(
    rt: &impl Abort,
    reading: &R,
    door: u32,
    misread: u32,
    smudges: u32,
) -> Result<(), Fail> {
    let scheme = scheme()?;
    let mut worksheet = [7u32; 1030];
    let mut row = [9u32; 4];
    let found = read(&scheme, reading, &mut worksheet, &mut row).map_err(|_| Fail::new("refused"))?;
    assert!(rt; all(&worksheet, 0));
    assert!(rt; scheme.is_label(&row));
    assert_eq!(rt; found.door, door);
    assert_eq!(rt; found.misread, misread);
    assert_eq!(rt; found.smudges, smudges);
    Ok(())
}

/// A reading, with this worksheet and row, is refused with this number and place.
fn refuses<R: Reading>(
    rt: &impl Abort,
    reading: &R,
    worksheet: &mut [u32],
    row: &mut [u32],
    number: u32,
    place: u32,
) -> Result<(), Fail> {
    let scheme = scheme()?;
    row.fill(9);
    let refusal = read(&scheme, reading, worksheet, row)
        .err()
        .ok_or_else(|| Fail::new("accepted"))?;
    assert!(rt; all(worksheet, 0));
    assert!(rt; all(row, 9));
    assert_eq!(rt; refusal.number(), number);
    assert_eq!(rt; refusal.place(), place);
    Ok(())
}

/// A reading with a worksheet and a row that fit is refused with this number and place.
fn refused<R: Reading>(rt: &impl Abort, reading: &R, number: u32, place: u32) -> Result<(), Fail> {
    let mut worksheet = [7u32; 1024];
    let mut row = [9u32; 4];
    refuses(rt, reading, &mut worksheet, &mut row, number, place)
}

#[test]
fn labels_are_read(rt: HostRuntime) -> Result<(), Fail> {
    reads(&rt, &Typed(b"1267"), 10, 0, 0)?;
    reads(&rt, &Typed(b"12?7"), 10, 0, 1)?;
    reads(&rt, &Typed(b"1260"), 10, 1, 0)?;
    reads(&rt, &Typed(b"??67"), 10, 0, 2)?;
    reads(&rt, &Typed(b"??60"), 23, 0, 2)?;
    reads(&rt, &Scan(&[1, 2, 6, 7]), 10, 0, 0)?;
    reads(&rt, &Scan(&[1, 2, 4294967295, 7]), 10, 0, 1)
}

#[test]
fn readings_are_refused(rt: HostRuntime) -> Result<(), Fail> {
    refused(&rt, &Typed(b"1?60"), 16, 0)?;
    refused(&rt, &Typed(b"1???"), 16, 0)?;
    refused(&rt, &Typed(b"12x7"), 15, 2)?;
    refused(&rt, &Typed(b"126"), 14, 0)?;
    refused(&rt, &Typed(b""), 14, 0)?;
    refused(&rt, &Scan(&[1, 8, 9, 7]), 15, 1)?;
    refused(&rt, &Scan(&[1, 2, 6, 7, 7]), 14, 0)
}

#[test]
fn worksheets_and_rows_are_refused(rt: HostRuntime) -> Result<(), Fail> {
    let reading = Typed(b"12x7");
    let mut short = [7u32; 1023];
    let mut enough = [7u32; 1024];
    let mut row = [9u32; 4];
    let mut other = [9u32; 5];
    refuses(&rt, &reading, &mut short, &mut row, 12, 0)?;
    refuses(&rt, &reading, &mut short[0..0], &mut other, 12, 0)?;
    refuses(&rt, &reading, &mut enough, &mut other, 13, 0)?;
    refuses(&rt, &Typed(b"12"), &mut enough, &mut other[0..3], 13, 0)
}
