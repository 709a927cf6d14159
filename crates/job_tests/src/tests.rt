// Each test is named by what it shows.
use crate::{opened, shelf_without_room, three_links, three_places};
use kinds::catalogue::Catalogue;
use records::{PlaceRecord, SlotRecord};

const BLANK: PlaceRecord<u8> = PlaceRecord {
    kind: 0,
    before: 0,
    count: 0,
};

const OLD: PlaceRecord<u8> = PlaceRecord {
    kind: 7,
    before: 3,
    count: 1,
};

const NO_SLOT: SlotRecord = SlotRecord { name: 0, target: 0 };

const OLD_SLOT: SlotRecord = SlotRecord { name: 5, target: 1 };

#[test]
fn records_past_the_limits_stay(rt: HostRuntime) {
    let mut places = [OLD; 1001];
    let mut slots = [OLD_SLOT; 4001];
    let mut work_places = [OLD; 1001];
    let mut work_slots = [OLD_SLOT; 4001];
    let mut links = [9u16; 1001];
    let mut shelf_places = [OLD; 8001];
    let mut shelf_slots = [OLD_SLOT; 32001];
    let counts = opened::<Catalogue>(
        &mut places,
        &mut slots,
        &mut work_places,
        &mut work_slots,
        &mut links,
        &mut shelf_places,
        &mut shelf_slots,
    );
    assert_eq!(rt; counts.places, 1);
    assert_eq!(rt; counts.slots, 0);
    assert_eq!(rt; places[999], BLANK);
    assert_eq!(rt; places[1000], OLD);
    assert_eq!(rt; slots[3999], NO_SLOT);
    assert_eq!(rt; slots[4000], OLD_SLOT);
    assert_eq!(rt; work_places[999], BLANK);
    assert_eq!(rt; work_places[1000], OLD);
    assert_eq!(rt; work_slots[3999], NO_SLOT);
    assert_eq!(rt; work_slots[4000], OLD_SLOT);
    assert_eq!(rt; links[999], 999);
    assert_eq!(rt; links[1000], 9);
    assert_eq!(rt; shelf_places[7999], BLANK);
    assert_eq!(rt; shelf_places[8000], OLD);
    assert_eq!(rt; shelf_slots[31999], NO_SLOT);
    assert_eq!(rt; shelf_slots[32000], OLD_SLOT);
}

#[test]
fn the_shortest_table_is_the_limit(rt: HostRuntime) {
    assert_eq!(rt; three_links(), [0, 1, 2, 9, 9]);
    assert_eq!(rt; three_places(), [BLANK, BLANK, OLD]);
}

#[test]
fn without_room_nothing_is_written(rt: HostRuntime) {
    assert_eq!(rt; shelf_without_room(), [OLD_SLOT, OLD_SLOT]);
}

#[test]
fn opening_the_same_tables_again_begins_anew(rt: HostRuntime) {
    let mut places = [OLD; 2];
    let mut work_places = [OLD; 2];
    let mut links = [9u16; 2];
    let first = opened::<Catalogue>(
        &mut places,
        &mut [],
        &mut work_places,
        &mut [],
        &mut links,
        &mut [],
        &mut [],
    );
    assert_eq!(rt; first.places, 1);
    places[1] = OLD;
    work_places[0] = OLD;
    links[1] = 0;
    let second = opened::<Catalogue>(
        &mut places,
        &mut [],
        &mut work_places,
        &mut [],
        &mut links,
        &mut [],
        &mut [],
    );
    assert_eq!(rt; second.places, 1);
    assert_eq!(rt; places, [BLANK, BLANK]);
    assert_eq!(rt; work_places, [BLANK, BLANK]);
    assert_eq!(rt; links, [0, 1]);
}
