// Each test is named by what it shows.
use either_kind::either::{Either, EitherForm};
use kinds::catalogue::Catalogue;
use kinds::kind::Kind;
use ranges::range::{Range, RangeForm};
use std::test::Fail;

type Order = Either<Catalogue, Range>;

fn form(low: i32, high: i32) -> RangeForm {
    RangeForm { low, high }
}

// The form of the greatest kind of each part, as a part that is not in use has it.
const ANY_FIRST: u8 = 0;

fn any_second() -> RangeForm {
    form(i32::MIN, i32::MAX)
}

fn stored(tag: u8, first: u8, second: RangeForm) -> EitherForm<u8, RangeForm> {
    EitherForm { tag, first, second }
}

#[test]
fn every_catalogue_kind_comes_back_from_its_form(rt: HostRuntime) {
    for kind in Catalogue::all() {
        assert_eq!(rt; <Catalogue as Kind>::read(kind.store()), Some(kind));
    }
}

#[test]
fn a_catalogue_form_past_the_last_is_no_kind_and_reads_as_thing(rt: HostRuntime) {
    assert_eq!(rt; <Catalogue as Kind>::read(15), Some(Catalogue::Tune));
    assert_eq!(rt; <Catalogue as Kind>::read(16), None);
    assert_eq!(rt; <Catalogue as Kind>::load(16), Catalogue::Thing);
    assert_eq!(rt; <Catalogue as Kind>::load(255), Catalogue::Thing);
}

#[test]
fn catalogue_meets_by_hand(rt: HostRuntime) {
    assert_eq!(rt;
        Catalogue::Electrical.meet(Catalogue::Outdoor),
        Some(Catalogue::OutdoorMover)
    );
    assert_eq!(rt;
        Catalogue::Striking.meet(Catalogue::Outdoor),
        Some(Catalogue::OutdoorStriker)
    );
    assert_eq!(rt; Catalogue::Tune.meet(Catalogue::Ware), None);
    assert_eq!(rt;
        Catalogue::Bell.meet(Catalogue::Thing),
        Some(Catalogue::Bell)
    );
}

#[test]
fn catalogue_order_by_hand(rt: HostRuntime) {
    assert!(rt; Catalogue::OutsideStriker.at_or_below(Catalogue::OutdoorStriker));
    assert!(rt; Catalogue::Bell.at_or_below(Catalogue::Bell));
    assert!(rt; !Catalogue::Outdoor.at_or_below(Catalogue::OutdoorMover));
    assert!(rt; !Catalogue::ChimeHammer.at_or_below(Catalogue::Outdoor));
}

#[test]
fn a_refused_range_hands_both_numbers_back(rt: HostRuntime) -> Result<(), Fail> {
    assert_eq!(rt; Range::new(48, 24), Err(form(48, 24)));
    assert_eq!(rt;
        Range::new(i32::MAX, i32::MIN),
        Err(form(i32::MAX, i32::MIN))
    );
    assert_eq!(rt; Range::new(-5, -5)?.store(), form(-5, -5));
    Ok(())
}

#[test]
fn a_range_form_with_low_above_high_is_no_kind_and_reads_as_the_widest(rt: HostRuntime) {
    assert_eq!(rt; <Range as Kind>::read(form(1, 0)), None);
    assert_eq!(rt;
        <Range as Kind>::load(form(1, 0)),
        <Range as Kind>::greatest()
    );
    assert_eq!(rt;
        <Range as Kind>::load(form(i32::MAX, i32::MIN)).store(),
        any_second()
    );
    assert_eq!(rt; <Range as Kind>::load(form(24, 48)).store(), form(24, 48));
}

#[test]
fn range_meets_and_order_by_hand(rt: HostRuntime) -> Result<(), Fail> {
    let low = Range::new(24, 48)?;
    let high = Range::new(48, 60)?;
    let past = Range::new(49, 60)?;
    assert_eq!(rt; low.meet(high), Some(Range::new(48, 48)?));
    assert_eq!(rt; low.meet(past), None);
    assert!(rt; past.at_or_below(high));
    assert!(rt; !high.at_or_below(past));
    assert!(rt; low.at_or_below(<Range as Kind>::greatest()));
    Ok(())
}

#[test]
fn an_either_keeps_its_parts_apart(rt: HostRuntime) -> Result<(), Fail> {
    let bell: Order = Either::First(Catalogue::Bell);
    let volts: Order = Either::Second(Range::new(12, 24)?);
    assert_eq!(rt; bell.meet(volts), None);
    assert_eq!(rt; bell.meet(Either::Any), Some(bell));
    assert_eq!(rt;
        volts.meet(Either::Second(Range::new(24, 30)?)),
        Some(Either::Second(Range::new(24, 24)?))
    );
    assert!(rt; volts.at_or_below(Either::Any));
    assert!(rt; !bell.at_or_below(volts));
    Ok(())
}

#[test]
fn any_thing_and_the_widest_range_are_three_kinds(rt: HostRuntime) {
    let any: Order = Either::Any;
    let thing: Order = Either::First(Catalogue::Thing);
    let widest: Order = Either::Second(<Range as Kind>::greatest());
    assert_eq!(rt; any.store(), stored(0, ANY_FIRST, any_second()));
    assert_eq!(rt; thing.store(), stored(1, ANY_FIRST, any_second()));
    assert_eq!(rt; widest.store(), stored(2, ANY_FIRST, any_second()));
    assert!(rt; !any.at_or_below(thing));
    assert!(rt; !any.at_or_below(widest));
}

#[test]
fn an_either_form_with_a_stray_part_is_no_kind_and_reads_as_any(rt: HostRuntime) {
    let strays = [
        stored(3, ANY_FIRST, any_second()),
        stored(0, 1, any_second()),
        stored(0, ANY_FIRST, form(0, 1)),
        stored(1, 16, any_second()),
        stored(1, 13, form(0, 1)),
        stored(2, 13, form(0, 1)),
        stored(2, ANY_FIRST, form(1, 0)),
    ];
    for stray in strays {
        let read: Option<Order> = <Either<_, _> as Kind>::read(stray);
        assert_eq!(rt; read, None);
        let loaded: Order = <Either<_, _> as Kind>::load(stray);
        assert_eq!(rt; loaded, Either::Any);
    }
}
