// Names and their numbers.
use names::number::number_of;
use names::spelling::of_number::{is_name, spelling};
use std::process::Abort;
use std::test::Fail;

// The name has the number, and the number the name.
fn check_name(rt: &impl Abort, name: &[u8], number: u64) -> Result<(), Fail> {
    assert_eq!(rt; number_of(name), Some(number));
    assert!(rt; is_name(number));
    let Some(spelt) = spelling(number) else {
        return Err(Fail::new("no name has the number"));
    };
    assert_eq!(rt; spelt.as_bytes(), name);
    Ok(())
}

#[test]
fn a_name_has_one_to_twelve_bytes(rt: HostRuntime) -> Result<(), Fail> {
    check_name(&rt, b"a", 238_572_050_223_552_512)?;
    check_name(&rt, b"a0", 408_083_770_119_234_560)?;
    check_name(&rt, b"a_", 470_865_888_599_116_800)?;
    check_name(&rt, b"north", 3_437_243_641_839_720_448)?;
    check_name(&rt, b"aaaaaaaaaaaa", 245_019_943_472_837_715)?;
    check_name(&rt, b"z___________", 6_441_445_356_035_917_823)?;
    assert_eq!(rt; number_of(b""), None);
    assert_eq!(rt; number_of(b"aaaaaaaaaaaaa"), None);
    Ok(())
}

#[test]
fn other_bytes_and_numbers_are_no_names(rt: HostRuntime) {
    assert_eq!(rt; number_of(b"A"), None);
    assert_eq!(rt; number_of(b"0a"), None);
    assert_eq!(rt; number_of(b"_a"), None);
    assert_eq!(rt; number_of(b"a-b"), None);
    assert_eq!(rt; number_of(b"a b"), None);
    for number in [
        0,
        1,
        238_572_050_223_552_511,
        238_572_050_223_552_513,
        6_441_445_356_035_917_824,
        9_065_737_908_494_995_456,
        u64::MAX,
    ] {
        assert!(rt; !is_name(number));
    }
}
