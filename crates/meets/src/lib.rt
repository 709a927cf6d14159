// The meets of classes: joined places become one place, whose kind is the meet of theirs. Some class may have none, and then
// the sheets that are merged clash.
#![tactic(auto)]

ghost use Rattle.std.specs.Prelude.{◌≡◌, ◌<◌, length, OnOk, OnErr};
ghost use Rattle.meets.specs.Classes.{Apart, Classes, Kept, Met, MetInto, NoMeet, kind_held};

use kinds::kind::Kind;
use records::PlaceRecord;

// That the kinds of some class have no meet.
#[derive(Clone, Copy, PartialEq, Eq, Debug)]
pub struct Clash;

// The kind of the place `x`.
fn kind_of<K: Kind>(places: &[PlaceRecord<K::Form>], x: usize) -> K
    requires { x < length places.now }
    ensures { result ≡ kind_held K.Kind.laws places.now x }
{
    K::load(places[x].kind)
}

// Takes the kind of the place `x` into that of the place `end`. A place that is taken into itself keeps its kind, in the kind's own
// stored form.
fn meet_into<K: Kind>(
    places: &mut [PlaceRecord<K::Form>],
    end: usize,
    x: usize,
) -> Result<(), Clash>
    requires { (end < length places.old) × (x < length places.old) }
    ensures ok { OnOk result (MetInto K.Kind.laws end x places.old places.new) }
    ensures err { OnErr result (Apart K.Kind.laws end x places.old places.new) }
{
    let held = kind_of::<K>(places, end);
    let other = kind_of::<K>(places, x);
    let both = held.meet(other).ok_or(Clash)?;
    places[end].kind = both.store();
    Ok(())
}

// Gives each place that stands for a class the meet of the kinds of the class; or says that some class has none. `ends` has for each
// place the one that stands for its class.
pub fn meet_classes<K: Kind>(places: &mut [PlaceRecord<K::Form>], ends: &[u16]) -> Result<(), Clash>
    requires { Classes ends.now (length places.old) }
    ensures kept { Kept ends.now places.old places.new }
    ensures met { OnOk result (Met K.Kind.laws ends.now (length places.old) places.old places.new) }
    ensures clash { OnErr result (NoMeet K.Kind.laws ends.now places.old) }
{
    let ends = &ends[..places.len()];
    for (x, end) in ends.iter().enumerate() {
        meet_into::<K>(places, *end as usize, x)?;
    }
    Ok(())
}
